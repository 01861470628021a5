// Short strings whose bytes all stand for themselves, as most are: read without a loop, and compared in one or two words.
ghost use Rattle.std.specs.Prelude.{◌≡◌, true, ◌+◌, IfSome};
ghost use Rattle.base.specs.Text.{byte_at};
ghost use Rattle.jsontext.specs.StringAnswers.{Plains};
ghost use Rattle.jsontext.specs.Shorts.{ShortAt, SameBytes};

use crate::plain::plain_word;
use crate::slots::{keep_none, keep_part, kept_slot};
use crate::words::{WORD, word};
use base::text::byte_at;

// What is to stand from the opening quote on, so that two words behind it can be read.
const AHEAD: usize = 24;

// The most bytes that two words hold.
const LONGEST: usize = 16;

// The slot of a string and the place of its closing quote.
#[derive(Clone, Copy)]
pub struct ShortString {
    pub slot: u16,
    pub end: usize,
}

// The string at a place, of which the bytes up to a quote stand for themselves.
fn short_to(text: &[u8], at: usize, end: usize) -> Option<ShortString>
    requires { (byte_at text.now at ≡ 34) × Plains text.now (at + 1) end }
    ensures { IfSome result (λ s. ShortAt text.now at s.slot s.end) }
{
    if byte_at(text, end) != b'"' {
        return None;
    }
    let slot = kept_slot(keep_part(keep_none(), text, at + 1, end));
    Some(ShortString { slot, end })
}

// The string at a place, of at most 16 bytes that all stand for themselves, before the last bytes of the text. None: it is to be read in another way.
pub fn short(text: &[u8], at: usize) -> Option<ShortString>
    ensures { IfSome result (λ s. ShortAt text.now at s.slot s.end) }
{
    if text.len() < AHEAD {
        return None;
    }
    if at > text.len() - AHEAD {
        return None;
    }
    if text[at] != b'"' {
        return None;
    }
    let first = at + 1;
    let end = plain_word(text, first);
    if end < first + WORD {
        return short_to(text, at, end);
    }
    short_to(text, at, plain_word(text, first + WORD))
}

// Whether the n bytes at two places are the same; false also of none, of more than two words hold, and near the end of the text.
pub fn same_bytes(text: &[u8], i: usize, j: usize, n: usize) -> bool
    ensures { result ≡ true → SameBytes text.now i j n }
{
    if text.len() < LONGEST {
        return false;
    }
    let last = text.len() - LONGEST;
    if (i > last) | (j > last) | (n == 0) | (n > LONGEST) {
        return false;
    }
    if n < WORD {
        let others = 64 - 8 * n;
        return word(text, i) << others == word(text, j) << others;
    }
    (word(text, i) == word(text, j)) & (word(text, i + n - WORD) == word(text, j + n - WORD))
}
