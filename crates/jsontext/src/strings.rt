// A string at a place, from its opening quote on: the slot of its decoded bytes and the place after it, or the first byte that has no legal continuation.
ghost use Rattle.std.specs.Prelude.{◌≡◌, [], ◌+◌};
ghost use Rattle.classes.specs.Classes.{class_table};
ghost use Rattle.base.specs.Text.{byte_at};
ghost use Rattle.jsontext.specs.Strings.{string_at};
ghost use Rattle.jsontext.specs.Decoded.{as_slot};
ghost use Rattle.jsontext.specs.Scanned.{Scanned};
ghost use Rattle.jsontext.specs.StringAnswers.{Plains, slot_of};

use crate::chars::char_at;
use crate::plain::{plain_end, plain_far};
use crate::slots::{keep_few, keep_none, keep_part, kept_slot};
use base::text::{Fault, byte_at};

// The string at a place, whose bytes up to another stand for themselves; there stands no closing quote.
fn read_on(text: &[u8], classes: &[u8; 256], at: usize, from: usize) -> Result<(u16, usize), Fault>
    requires open { byte_at text.now from ≡ 34 → ⊥ }
    requires behind { Scanned text.now at (at + 1) [] × Plains text.now (at + 1) from }
    ensures { classes.now ≡ class_table → slot_of result ≡ as_slot (string_at text.now at) }
{
    let mut k = keep_part(keep_none(), text, at + 1, from);
    let mut i = from;
    loop {
        let (c, n) = char_at(text, classes, i)?;
        i = plain_far(text, n);
        k = keep_part(keep_few(k, c.bytes, c.count), text, n, i);
        if byte_at(text, i) == b'"' {
            return Ok((kept_slot(k), i + 1));
        }
    }
}

// The slot of the string at a place, and the place after it.
pub fn read(text: &[u8], classes: &[u8; 256], at: usize) -> Result<(u16, usize), Fault>
    ensures { classes.now ≡ class_table → slot_of result ≡ as_slot (string_at text.now at) }
{
    if byte_at(text, at) != b'"' {
        return Err(Fault(at));
    }
    let i = plain_end(text, at + 1);
    if byte_at(text, i) == b'"' {
        let k = keep_part(keep_none(), text, at + 1, i);
        return Ok((kept_slot(k), i + 1));
    }
    read_on(text, classes, at, i)
}
