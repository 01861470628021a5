// UTF-8: the well-formed sequence of two bytes or more at a place.
ghost use Rattle.std.specs.Prelude.{◌≡◌, ◌≤◌, replicate};
ghost use Rattle.jsontext.specs.Utf8.{between, tail, pass_at, sequence_at};
ghost use Rattle.jsontext.specs.Lead.{follows, lowest, highest};
ghost use Rattle.jsontext.specs.StringAnswers.{stretch_of};

use base::text::{Fault, byte_at};

// Whether a byte is one from `lo` to `hi`.
pub(crate) fn within(lo: u8, hi: u8, b: u8) -> bool
    ensures { result ≡ between lo hi b }
{
    (lo <= b) & (b <= hi)
}

// How many bytes follow a lead byte.
fn follows(b: u8) -> usize
    ensures { (result ≡ follows b) × (result ≤ 3) }
{
    if within(194, 223, b) {
        return 1;
    }
    if within(224, 239, b) {
        return 2;
    }
    if within(240, 244, b) {
        return 3;
    }
    0
}

// The bounds of the byte behind a lead byte: they shut out overlong sequences, surrogates and what is above the last code point.
fn lowest(b: u8) -> u8
    ensures { result ≡ lowest b }
{
    if b == 224 {
        return 160;
    }
    if b == 240 {
        return 144;
    }
    128
}

fn highest(b: u8) -> u8
    ensures { result ≡ highest b }
{
    if b == 237 {
        return 159;
    }
    if b == 244 {
        return 143;
    }
    191
}

// The place after so many bytes from 80 to BF.
fn tails(text: &[u8], at: usize, count: usize) -> Result<usize, Fault>
    ensures { stretch_of result ≡ pass_at (replicate count tail) text.now at }
{
    for k in 0..count {
        let i = at + k;
        if !within(128, 191, byte_at(text, i)) {
            return Err(Fault(i));
        }
    }
    Ok(at + count)
}

// The place after the sequence whose lead byte stands at a place.
pub(crate) fn sequence(text: &[u8], at: usize) -> Result<usize, Fault>
    ensures { stretch_of result ≡ sequence_at text.now at }
{
    let b = byte_at(text, at);
    let n = follows(b);
    if n == 0 {
        return Err(Fault(at));
    }
    if !within(lowest(b), highest(b), byte_at(text, at + 1)) {
        return Err(Fault(at + 1));
    }
    tails(text, at + 2, n - 1)
}
