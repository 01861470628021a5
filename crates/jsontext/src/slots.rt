// The slot where a text is looked for first: a hash of how many bytes it has, its first eight and its last eight.
ghost use Rattle.std.specs.Prelude.{◌≡◌, List, [], ◌++◌, ℕ, ◌%◌, ◌^◌, ◌<◌, ◌≤◌, length, take};
ghost use Rattle.jsontext.specs.Decoded.{join_bytes, last_eight, text_slot};
ghost use Rattle.jsontext.specs.Scanned.{part};
ghost use Rattle.jsontext.specs.Kept.{Bytes, Keeps};

use crate::kept::Kept;
use crate::words::{WORD, few_bytes, word};

const MODULUS: u64 = 4294967296;

// The highest eleven bits of a hash.
const SLOT_UNIT: u64 = 2097152;

pub(crate) fn keep_none() -> Kept
    ensures { Keeps [] result }
{
    Kept {
        count: 0,
        few: 0,
        first: 0,
        last: 0,
    }
}

fn low(x: u64) -> u32
    ensures { result ≡ x % 2 ^ 32 }
{
    (x % MODULUS) as u32
}

// n bytes more, of which the first eight are given, and the last eight of all.
fn keep(k: Kept, n: usize, front: u64, last: u64) -> Kept
    ensures { (bs xs : List ℕ) → Keeps bs k → Bytes xs → n ≡ length xs → front ≡ join_bytes (take 8 xs) → last ≡ last_eight (bs ++ xs) → Keeps (bs ++ xs) result }
{
    let few = k.few;
    let first = k.first;
    let count = low(u64::from(k.count) + n as u64 % MODULUS);
    if few < WORD {
        return Kept {
            count,
            few: few + n.min(WORD - few),
            first: first | front << (8 * few),
            last,
        };
    }
    Kept {
        count,
        few,
        first,
        last,
    }
}

// A few bytes more, joined.
pub(crate) fn keep_few(k: Kept, w: u64, n: usize) -> Kept
    requires { (0 < n) × (n < 8) }
    ensures { (bs xs : List ℕ) → Keeps bs k → Bytes xs → n ≡ length xs → w ≡ join_bytes xs → Keeps (bs ++ xs) result }
{
    let last = k.last;
    keep(k, n, w, last >> (8 * n) | w << (64 - 8 * n))
}

// The bytes from a place up to another more.
pub(crate) fn keep_part(k: Kept, text: &[u8], at: usize, end: usize) -> Kept
    requires { (at ≤ end) × (end ≤ length text.now) }
    ensures { (bs : List ℕ) → Keeps bs k → Keeps (bs ++ part text.now at end) result }
{
    let n = end - at;
    if n == 0 {
        return k;
    }
    if n < WORD {
        return keep_few(k, few_bytes(text, at, n), n);
    }
    keep(k, n, word(text, at), word(text, end - WORD))
}

// The slot of the bytes of which this is kept.
pub(crate) fn kept_slot(k: Kept) -> u16
    ensures { (bs : List ℕ) → Keeps bs k → result ≡ text_slot bs }
{
    let first = k.first;
    let last = k.last;
    let a = first % MODULUS * 2246822519 ^ first / MODULUS * 3266489917;
    let z = last % MODULUS * 2654435761 ^ last / MODULUS * 668265263;
    let h = a ^ z ^ u64::from(k.count) * 374761393;
    (h % MODULUS / SLOT_UNIT) as u16
}

// The slot of bytes that are at hand.
pub fn slot_of(bytes: &[u8]) -> u16
    ensures { result ≡ text_slot bytes.now }
{
    kept_slot(keep_part(keep_none(), bytes, 0, bytes.len()))
}
