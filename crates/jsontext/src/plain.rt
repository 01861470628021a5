// Bytes that stand for themselves, one after the other: most of most strings. They are tried eight at once.
ghost use Rattle.std.specs.Prelude.{◌≡◌, true, List, map, ℕ, ◌+◌, ◌≤◌, length, take, drop};
ghost use Rattle.jsontext.specs.Strings.{plain?};
ghost use Rattle.jsontext.specs.Decoded.{join_bytes};
ghost use Rattle.jsontext.specs.StringAnswers.{Plains, mark};
ghost use Rattle.jsontext.specs.Kept.{Bytes};

use crate::words::{WORD, word};

// In each byte of a word: the highest bit, the others, the quote, the backslash, and what 32 lacks to 128.
const HIGH: u64 = 0x8080_8080_8080_8080;

const LOW: u64 = 0x7f7f_7f7f_7f7f_7f7f;

const QUOTE: u64 = 0x2222_2222_2222_2222;

const BACKSLASH: u64 = 0x5c5c_5c5c_5c5c_5c5c;

const FROM_BLANK: u64 = 0x6060_6060_6060_6060;

// The bytes of a block, and how many are tried by words before.
const BLOCK: usize = 64;

const NEAR: usize = 16;

// Whether a byte stands for itself, alone.
pub(crate) fn is_plain(b: u8) -> bool
    ensures { result ≡ plain? b }
{
    (b != b'"') & (b != b'\\') & (32 <= b) & (b < 128)
}

// Whether all of these bytes stand for themselves.
pub(crate) fn are_plain(bytes: &[u8]) -> bool
    ensures plain { result ≡ true → Plains bytes.now 0 (length bytes.now) }
    ensures done { Plains bytes.now 0 (length bytes.now) → result ≡ true }
{
    bytes.iter().all(|b| is_plain(*b))
}

// The highest bit of each byte that does not stand for itself. No sum goes over into the next byte: its highest bit says whether the byte is 32 or more, is no quote, is no backslash.
pub(crate) fn marks(w: u64) -> u64
    ensures { (xs : List ℕ) → length xs ≡ 8 → Bytes xs → w ≡ join_bytes xs → result ≡ join_bytes (map mark xs) }
{
    let low = w & LOW;
    let above = low + FROM_BLANK;
    let no_quote = (low ^ QUOTE) + LOW;
    let no_backslash = (low ^ BACKSLASH) + LOW;
    (((above & no_quote & no_backslash) ^ HIGH) | w) & HIGH
}

// The marks of the eight bytes at a place.
pub(crate) fn word_marks(text: &[u8], i: usize) -> u64
    requires { i + 8 ≤ length text.now }
    ensures { result ≡ join_bytes (map mark (take 8 (drop i text.now))) }
{
    marks(word(text, i))
}

// A place up to which all bytes stand for themselves, one by one.
fn plain_rest(text: &[u8], at: usize) -> usize
    requires { at ≤ length text.now }
    ensures { Plains text.now at result }
{
    for i in at..text.len() {
        if !is_plain(text[i]) {
            return i;
        }
    }
    text.len()
}

// A place up to which the eight bytes at a place stand for themselves; behind them where all do.
pub(crate) fn plain_word(text: &[u8], i: usize) -> usize
    requires { i + 8 ≤ length text.now }
    ensures { Plains text.now i result }
{
    i + (u64::trailing_zeros(word_marks(text, i)) / 8) as usize
}

// A place up to which all bytes stand for themselves, eight at once. By place, not by `chunks_exact`: the answer is a place, and the bytes left are read from one.
fn plain_words(text: &[u8], at: usize) -> usize
    requires { at ≤ length text.now }
    ensures { Plains text.now at result }
{
    let mut i = at;
    while text.len() - i >= WORD {
        let e = plain_word(text, i);
        if e < i + WORD {
            return e;
        }
        i += WORD;
    }
    plain_rest(text, i)
}

// Whether all bytes of the block at a place stand for themselves: no byte ends the loop, so that many are tried at once.
fn is_plain_block(text: &[u8], at: usize) -> bool
    requires { at + 64 ≤ length text.now }
    ensures { result ≡ true → Plains text.now at (at + 64) }
{
    let mut all = true;
    for k in 0..BLOCK {
        all = all & is_plain(text[at + k]);
    }
    all
}

// A place up to which whole blocks stand for themselves. By place, not by `chunks_exact`: the answer is one.
fn plain_blocks(text: &[u8], at: usize) -> usize
    requires { at ≤ length text.now }
    ensures { Plains text.now at result }
{
    let mut i = at;
    while text.len() - i >= BLOCK {
        if !is_plain_block(text, i) {
            return i;
        }
        i += BLOCK;
    }
    i
}

// A place up to which all bytes stand for themselves, of many: by blocks, then by words. Called, not inlined: in the loop of its callers it would slow them.
#[inline(never)]
pub(crate) fn plain_far(text: &[u8], at: usize) -> usize
    requires { at ≤ length text.now }
    ensures { Plains text.now at result }
{
    plain_words(text, plain_blocks(text, at))
}

// The same, where they may be few: a word or two by place, then what is left from there.
pub(crate) fn plain_end(text: &[u8], at: usize) -> usize
    requires { at ≤ length text.now }
    ensures { Plains text.now at result }
{
    let near = at + NEAR.min(text.len() - at);
    let mut i = at;
    while near - i >= WORD {
        let e = plain_word(text, i);
        if e < i + WORD {
            return e;
        }
        i += WORD;
    }
    plain_far(text, i)
}
