// A string that is written just as it is: the quote, bytes that all stand for themselves, the quote. Where the bytes are known beforehand, nothing is scanned.
ghost use Rattle.std.specs.Prelude.{◌≡◌, true, ◌+◌, ◌<◌, ◌≤◌, length, take};
ghost use Rattle.base.specs.Text.{got};
ghost use Rattle.jsontext.specs.Strings.{string_at};
ghost use Rattle.jsontext.specs.Compared.{Alike};

use crate::plain::{are_plain, word_marks};
use crate::words::{WORD, word};

// Whether n bytes at two places agree and stand for themselves, byte by byte.
fn same_bytes(text: &[u8], i: usize, bytes: &[u8], j: usize, n: usize) -> bool
    requires first { i + n ≤ length text.now }
    requires second { j + n ≤ length bytes.now }
    ensures { result ≡ true → Alike text.now i bytes.now j n }
{
    let part = &bytes[j..j + n];
    are_plain(part) && part == &text[i..i + n]
}

// The same of one to eight bytes, in a word of which the others are shifted out.
fn same_word(text: &[u8], i: usize, bytes: &[u8], j: usize, n: usize) -> bool
    requires some { (0 < n) × (n ≤ 8) }
    requires first { i + 8 ≤ length text.now }
    requires second { j + 8 ≤ length bytes.now }
    ensures { result ≡ true → Alike text.now i bytes.now j n }
{
    let others = 64 - 8 * n;
    if word(text, i) << others != word(bytes, j) << others {
        return false;
    }
    word_marks(bytes, j) << others == 0
}

// The same of up to eight bytes: in a word, where both have eight there.
fn same_few(text: &[u8], i: usize, bytes: &[u8], j: usize, n: usize) -> bool
    requires few { n ≤ 8 }
    requires first { i + n ≤ length text.now }
    requires second { j + n ≤ length bytes.now }
    ensures { result ≡ true → Alike text.now i bytes.now j n }
{
    if (n == 0) | (text.len() - i < WORD) | (bytes.len() - j < WORD) {
        return same_bytes(text, i, bytes, j, n);
    }
    same_word(text, i, bytes, j, n)
}

// Whether n bytes at two places agree and stand for themselves, eight at once. By place, not by `chunks_exact`: two texts are read there, and the last step from there.
fn same_part(text: &[u8], i: usize, bytes: &[u8], n: usize) -> bool
    requires first { i + n ≤ length text.now }
    requires second { n ≤ length bytes.now }
    ensures { result ≡ true → Alike text.now i bytes.now 0 n }
{
    let mut k: usize = 0;
    while n - k > WORD {
        if !same_word(text, i + k, bytes, k, WORD) {
            return false;
        }
        k += WORD;
    }
    same_few(text, i + k, bytes, k, n - k)
}

// The count stands beside the bytes, since those behind the n-th are read with them, a word at once.
// Whether the string at a place is the first n of these bytes, written just as they are. Where it is not, the string may still be these bytes, of which some are escaped or do not stand for themselves: it is then to be read.
pub fn written(text: &[u8], at: usize, bytes: &[u8], n: usize) -> bool
    ensures { result ≡ true → string_at text.now at ≡ got (take n bytes.now) (at + n + 2) }
{
    if n > bytes.len() {
        return false;
    }
    if n + 2 > text.len() {
        return false;
    }
    if at > text.len() - (n + 2) {
        return false;
    }
    if text[at] != b'"' {
        return false;
    }
    if text[at + n + 1] != b'"' {
        return false;
    }
    same_part(text, at + 1, bytes, n)
}
