// The core of all reading: what stands at an index of a slice, where a byte past the end counts as 0.
ghost use Rattle.std.specs.Prelude.{◌≡◌, ◌+◌, ◌-◌, ◌*◌, ◌≤◌, ◌<◌, length, get_or};
ghost use Rattle.automaton.specs.Number.{NumberAt};

// The number whose two bytes both stand in the slice, low byte first.
fn word_inside(s: &[u8], at: usize) -> u16
    requires { at + 1 < length s.now }
    ensures { NumberAt s.now at result }
{
    u16::from_le_bytes([s[at], s[at + 1]])
}

// The number of which at most the low byte stands in the slice, `k` bytes after place `at`.
fn word_outside(s: &[u8], at: usize, k: usize) -> u16
    requires { (length s.now ≤ at + k + 1) × (k < 131072) }
    ensures { NumberAt s.now (at + k) result }
{
    if at < s.len() {
        u16::from(s.get(at + k).copied().unwrap_or(0))
    } else {
        0
    }
}

// Number k of those that stand one after the other from byte `at` on. One that stands in the slice costs one test of a bound.
pub(crate) fn word_from(s: &[u8], at: usize, k: u16) -> u16
    ensures { NumberAt s.now (at + 2 * k) result }
{
    let from = 2 * usize::from(k);
    if from + 1 < s.len().saturating_sub(at) {
        word_inside(s, at + from)
    } else {
        word_outside(s, at, from)
    }
}
