// Eight bytes at once, in a number, the first lowest.
ghost use Rattle.std.specs.Prelude.{◌≡◌, ◌+◌, ◌<◌, ◌≤◌, length, take, drop};
ghost use Rattle.jsontext.specs.Decoded.{join_bytes};

// The bytes in a word.
pub(crate) const WORD: usize = 8;

// The eight bytes at a place. Named one by one: `first_chunk` was tried, and reads of strings took an eighth longer.
pub(crate) fn word(bytes: &[u8], i: usize) -> u64
    requires { i + 8 ≤ length bytes.now }
    ensures { result ≡ join_bytes (take 8 (drop i bytes.now)) }
{
    u64::from_le_bytes([
        bytes[i],
        bytes[i + 1],
        bytes[i + 2],
        bytes[i + 3],
        bytes[i + 4],
        bytes[i + 5],
        bytes[i + 6],
        bytes[i + 7],
    ])
}

// All of fewer than eight bytes.
fn short_word(bytes: &[u8]) -> u64
    requires { length bytes.now < 8 }
    ensures { result ≡ join_bytes bytes.now }
{
    let mut all = [0u8; WORD];
    all[..bytes.len()].copy_from_slice(bytes);
    u64::from_le_bytes(all)
}

// The n bytes at a place, one to seven: most often eight can be read, and the others are shifted out.
pub(crate) fn few_bytes(bytes: &[u8], at: usize, n: usize) -> u64
    requires { (0 < n) × (n < 8) × (at + n ≤ length bytes.now) }
    ensures { result ≡ join_bytes (take n (drop at bytes.now)) }
{
    if bytes.len() - at >= WORD {
        let others = 64 - 8 * n;
        return word(bytes, at) << others >> others;
    }
    short_word(&bytes[at..at + n])
}
