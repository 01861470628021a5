// Answers as one 64-bit number.
ghost use Rattle.std.specs.Prelude.{◌≡◌, ℕ, unwrap_or, ◌-◌, ◌^◌, min};
ghost use Rattle.base.specs.Refusals.{number, answer};
ghost use Rattle.cidhomba.specs.Code.{refusal_code, code_of, text_code};
ghost use Rattle.cidhomba.specs.Value.{sample_value};

use base::refusal::{Refusal, TextRefusal};
use emptiness::Sample;

// The highest bit tells a refusal.
const REFUSED: u64 = 9223372036854775808;

// The largest place that has room beside the number, 2^55 - 1.
const LAST_PLACE: u64 = 36028797018963967;

// A place, cut at the largest that has room.
fn cut_place(place: usize) -> u64
    ensures { result ≡ min place (2 ^ 55 - 1) }
{
    (place as u64).min(LAST_PLACE)
}

fn refusal_code(refusal: Refusal, place: usize) -> u64
    ensures { result ≡ refusal_code (number refusal) place }
{
    REFUSED + cut_place(place) * 256 + u64::from(refusal.number())
}

// What an answer gives, as a number.
pub(crate) trait Value: Sized {
    ghost value: { Self → ℕ };

    fn value(self) -> u64
        ensures { result ≡ value self };
}

// What passed a check.
impl Value for () {
    ghost value = { λ _. 0 };

    fn value(self) -> u64 {
        0
    }
}

// How many bytes were written.
impl Value for usize {
    ghost value = { λ n. n };

    fn value(self) -> u64 {
        self as u64
    }
}

// The steps of a yes, which are never 0, or a no.
impl Value for Option<u16> {
    ghost value = { λ o. unwrap_or o 0 };

    fn value(self) -> u64 {
        u64::from(self.unwrap_or(0))
    }
}

// The rows of a sample and, above the lowest 16 bits, its levels; 0 where the set is dead.
impl Value for Option<Sample> {
    ghost value = { sample_value };

    fn value(self) -> u64 {
        match self {
            Some(sample) => u64::from(sample.rows) + 65536 * u64::from(sample.levels),
            None => 0,
        }
    }
}

// An answer: its value, or its refusal, which has no place.
pub(crate) fn code<V: Value>(given: Result<V, Refusal>) -> u64
    ensures { result ≡ code_of V.value (answer (λ v. v) given) }
{
    match given {
        Ok(value) => value.value(),
        Err(refusal) => refusal_code(refusal, 0),
    }
}

// The number of rows that were read, or the refusal with its place.
pub(crate) fn text_code(given: Result<u16, TextRefusal>) -> u64
    ensures { result ≡ text_code given }
{
    match given {
        Ok(rows) => u64::from(rows),
        Err(fault) => refusal_code(fault.refusal, fault.place),
    }
}
