// A decimal number as a rate: its digits as a whole number, divided once by the power of ten, with the sign put on afterwards.
ghost use Rattle.std.specs.Prelude.{◌≡◌, ◌≤◌, ◌^◌};
ghost use Rattle.jsontext.specs.Number.{quotient, rate};

// Both become f64 without loss, and the division rounds once.
fn quotient(digits: u64, power: u64) -> f64
    requires { (digits ≤ 2 ^ 53) × (power ≤ 10 ^ 15) }
    ensures { result ≡ quotient digits power }
{
    (digits as f64) / (power as f64)
}

// The rate of a number with these digits, so many of them behind the point.
pub(crate) fn rate(negative: bool, digits: u64, places: usize) -> f64
    requires { (digits ≤ 2 ^ 53) × (places ≤ 15) }
    ensures { result ≡ rate negative digits places }
{
    let x = quotient(digits, 10u64.pow(places as u32));
    if negative { -x } else { x }
}
