// Bytes of a text by place; a byte past the end counts as 0.
ghost use Rattle.std.specs.Prelude.{◌≡◌, ◌+◌};
ghost use Rattle.base.specs.Text.{byte_at, word_bytes};

// The place of a byte that no rule allows.
#[derive(Clone, Copy, Debug, PartialEq, Eq)]
pub struct Fault(pub usize);

// The byte at a place; past the end 0.
pub fn byte_at(text: &[u8], i: usize) -> u8
    ensures { result ≡ byte_at text.now i }
{
    text.get(i).copied().unwrap_or(0)
}

// The byte that stands n places behind a place; past the end 0, also where the two together are no 64-bit number.
fn byte_behind(text: &[u8], at: usize, n: usize) -> u8
    ensures { result ≡ byte_at text.now (at + n) }
{
    if at >= text.len() {
        return 0;
    }
    if n >= text.len() - at {
        return 0;
    }
    text[at + n]
}

// How many bytes of a word stand at a place.
pub fn word_bytes(text: &[u8], at: usize, word: &[u8]) -> usize
    ensures { result ≡ word_bytes word.now text.now at }
{
    for (n, b) in word.iter().enumerate() {
        if byte_behind(text, at, n) != *b {
            return n;
        }
    }
    word.len()
}
