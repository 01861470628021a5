// A character of a string, decoded: its UTF-8 bytes, whether they stand in the text or come from an escape.
ghost use Rattle.std.specs.Prelude.{◌≡◌};
ghost use Rattle.classes.specs.Classes.{class_table};
ghost use Rattle.base.specs.Text.{byte_at};
ghost use Rattle.jsontext.specs.Utf8.{utf8};
ghost use Rattle.jsontext.specs.Chars.{Joined, CharSays, CharInside};

use crate::pieces::{StringPiece, piece_at};
use crate::words::few_bytes;
use base::text::Fault;

// Bytes joined into a number, the first lowest, and how many they are.
#[derive(Clone, Copy)]
pub(crate) struct Packed {
    pub bytes: u64,
    pub count: usize,
}

// The UTF-8 bytes of a code point.
fn pack(c: u32) -> Packed
    ensures { Joined (utf8 c) result.bytes result.count }
{
    let c = u64::from(c);
    if c < 128 {
        return Packed { bytes: c, count: 1 };
    }
    let last = 128 + c % 64;
    if c < 2048 {
        return Packed {
            bytes: 192 + c / 64 + last * 256,
            count: 2,
        };
    }
    let third = 128 + c / 64 % 64;
    if c < 65536 {
        return Packed {
            bytes: 224 + c / 4096 + (third + last * 256) * 256,
            count: 3,
        };
    }
    let second = 128 + c / 4096 % 64;
    Packed {
        bytes: 240 + c / 262144 % 8 + (second + (third + last * 256) * 256) * 256,
        count: 4,
    }
}

// The bytes of the character at a place where no closing quote stands, and the place after it.
pub(crate) fn char_at(text: &[u8], classes: &[u8; 256], at: usize) -> Result<(Packed, usize), Fault>
    requires open { byte_at text.now at ≡ 34 → ⊥ }
    ensures char_says { classes.now ≡ class_table → CharSays text.now at result }
    ensures inside { CharInside text.now at result }
{
    match piece_at(text, classes, at)? {
        StringPiece::Closed => Err(Fault(at)),
        StringPiece::Raw(n) => {
            let count = n - at;
            let bytes = few_bytes(text, at, count);
            Ok((Packed { bytes, count }, n))
        },
        StringPiece::Code(c, n) => Ok((pack(c), n)),
    }
}
