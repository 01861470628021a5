// Strings compared after decoding: with each other, and with given bytes. Bytes that stand for themselves are compared where they stand, other characters one by one.
ghost use Rattle.std.specs.Prelude.{◌≡◌, [], ◌+◌, ◌≤◌, length};
ghost use Rattle.classes.specs.Classes.{class_table};
ghost use Rattle.jsontext.specs.Strings.{string_at};
ghost use Rattle.jsontext.specs.Decoded.{same_text, is_text};
ghost use Rattle.jsontext.specs.Scanned.{Scanned};
ghost use Rattle.jsontext.specs.Compared.{Alike};

use crate::chars::char_at;
use crate::plain::{is_plain, marks};
use crate::words::{WORD, few_bytes, word};
use base::text::byte_at;

// How many bytes at two places agree and stand for themselves in a string, one by one.
fn alike_rest(s: &[u8], i: usize, t: &[u8], j: usize) -> usize
    requires first { i ≤ length s.now }
    requires second { j ≤ length t.now }
    ensures { Alike s.now i t.now j result }
{
    let room = (s.len() - i).min(t.len() - j);
    for n in 0..room {
        let b = s[i + n];
        if !is_plain(b) {
            return n;
        }
        if t[j + n] != b {
            return n;
        }
    }
    room
}

// How many of the eight bytes at two places agree and stand for themselves, up to the first that does not.
fn alike_word(s: &[u8], i: usize, t: &[u8], j: usize) -> usize
    requires first { i + 8 ≤ length s.now }
    requires second { j + 8 ≤ length t.now }
    ensures { Alike s.now i t.now j result }
{
    let w = word(s, i);
    (u64::trailing_zeros((w ^ word(t, j)) | marks(w)) / 8) as usize
}

// How many bytes at two places agree and stand for themselves, eight at once.
fn alike(s: &[u8], i: usize, t: &[u8], j: usize) -> usize
    requires first { i ≤ length s.now }
    requires second { j ≤ length t.now }
    ensures { Alike s.now i t.now j result }
{
    let room = (s.len() - i).min(t.len() - j);
    let mut n: usize = 0;
    while room - n >= WORD {
        let m = alike_word(s, i + n, t, j + n);
        n += m;
        if m < WORD {
            return n;
        }
    }
    n + alike_rest(s, i + n, t, j + n)
}

// Whether the strings at two places, which have their quotes, are the same.
fn same_quoted(text: &[u8], classes: &[u8; 256], a: usize, b: usize) -> bool
    requires { Scanned text.now a (a + 1) [] × Scanned text.now b (b + 1) [] }
    ensures { classes.now ≡ class_table → result ≡ same_text (string_at text.now a) (string_at text.now b) }
{
    let mut i = a + 1;
    let mut j = b + 1;
    loop {
        let n = alike(text, i, text, j);
        i += n;
        j += n;
        if byte_at(text, i) == b'"' {
            return byte_at(text, j) == b'"';
        }
        if byte_at(text, j) == b'"' {
            return false;
        }
        let Ok((v, x)) = char_at(text, classes, i) else {
            return false;
        };
        let Ok((w, y)) = char_at(text, classes, j) else {
            return false;
        };
        if v.bytes != w.bytes {
            return false;
        }
        i = x;
        j = y;
    }
}

// Whether the strings at two places are the same after decoding; a string that is not whole is the same as none.
pub fn same(text: &[u8], classes: &[u8; 256], a: usize, b: usize) -> bool
    ensures { classes.now ≡ class_table → result ≡ same_text (string_at text.now a) (string_at text.now b) }
{
    if byte_at(text, a) != b'"' {
        return false;
    }
    if byte_at(text, b) != b'"' {
        return false;
    }
    same_quoted(text, classes, a, b)
}

// Whether the string at a place is these bytes after decoding; a string that is not whole is none.
pub fn is_text(text: &[u8], classes: &[u8; 256], at: usize, bytes: &[u8]) -> bool
    ensures { classes.now ≡ class_table → result ≡ is_text (string_at text.now at) bytes.now }
{
    if byte_at(text, at) != b'"' {
        return false;
    }
    let mut i = at + 1;
    let mut k: usize = 0;
    loop {
        let n = alike(text, i, bytes, k);
        i += n;
        k += n;
        if byte_at(text, i) == b'"' {
            return k == bytes.len();
        }
        let Ok((c, x)) = char_at(text, classes, i) else {
            return false;
        };
        if bytes.len() - k < c.count {
            return false;
        }
        if few_bytes(bytes, k, c.count) != c.bytes {
            return false;
        }
        i = x;
        k += c.count;
    }
}
