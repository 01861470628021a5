// A short string that is known beforehand, compared with the text in one or two words, its quotes included.
ghost use Rattle.std.specs.Prelude.{◌≡◌, true, List, ℕ, ◌+◌, ◌≤◌, length, take, IfSome, IsSomeAnd};
ghost use Rattle.base.specs.Text.{got};
ghost use Rattle.jsontext.specs.Strings.{string_at};
ghost use Rattle.jsontext.specs.StringAnswers.{Plains};
ghost use Rattle.jsontext.specs.Tokens.{quoted, TokenOf};

use crate::plain::are_plain;
use crate::words::{WORD, few_bytes, word};

// The most bytes of a token, two words, and how many of them are quotes.
const LONGEST: usize = 16;

const QUOTES: usize = 2;

// What a string is compared by. Fewer than eight bytes stand in the highest places of the first number; of others the first holds the first eight and the last the last eight, which may overlap.
#[derive(Clone, Copy)]
pub struct Token {
    pub first: u64,
    pub last: u64,
    pub length: usize,
}

// Puts the bytes between quotes at the front, where all stand for themselves.
fn put_quoted(out: &mut [u8], bytes: &[u8]) -> bool
    requires { length bytes.now + 2 ≤ length out.old }
    ensures plain { result ≡ true → Plains bytes.now 0 (length bytes.now) }
    ensures put { result ≡ true → take (length bytes.now + 2) out.new ≡ quoted bytes.now }
    ensures done { Plains bytes.now 0 (length bytes.now) → result ≡ true }
{
    if !are_plain(bytes) {
        return false;
    }
    let n = bytes.len();
    out[0] = b'"';
    out[1..n + 1].copy_from_slice(bytes);
    out[n + 1] = b'"';
    true
}

// The token of at most 14 bytes that all stand for themselves; none of others.
pub fn token_of(bytes: &[u8]) -> Option<Token>
    ensures token_of { IfSome result (λ t. TokenOf bytes.now t.first t.last t.length) }
    ensures some { Plains bytes.now 0 (length bytes.now) → length bytes.now ≤ 14 → IsSomeAnd result (λ t. t.length ≡ length bytes.now + 2) }
{
    if bytes.len() > LONGEST - QUOTES {
        return None;
    }
    let length = bytes.len() + QUOTES;
    let mut all = [0u8; LONGEST];
    if !put_quoted(&mut all, bytes) {
        return None;
    }
    if length < WORD {
        let first = few_bytes(&all, 0, length) << (64 - 8 * length);
        return Some(Token {
            first,
            last: 0,
            length,
        });
    }
    Some(Token {
        first: word(&all, 0),
        last: word(&all, length - WORD),
        length,
    })
}

// Whether the string at a place is written as the token. False also near the end of the text, where the longest cannot be read: the string is then to be read in another way.
pub fn has_token(text: &[u8], at: usize, token: Token) -> bool
    ensures { result ≡ true → (key : List ℕ) → TokenOf key token.first token.last token.length → string_at text.now at ≡ got key (at + token.length) }
{
    let Token {
        first,
        last,
        length: n,
    } = token;
    if text.len() < LONGEST {
        return false;
    }
    if at > text.len() - LONGEST {
        return false;
    }
    if n == 0 {
        return false;
    }
    if n > LONGEST {
        return false;
    }
    if n < WORD {
        return word(text, at) << (64 - 8 * n) == first;
    }
    (word(text, at) == first) & (word(text, at + n - WORD) == last)
}
