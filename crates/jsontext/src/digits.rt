// Digits that fit into 64 bits whatever they are, so that no sum has to be tried: those of nearly all numbers.
ghost use Rattle.std.specs.Prelude.{◌≡◌, true, ℕ, ◌+◌, ◌-◌, ◌≤◌, length};
ghost use Rattle.classes.specs.Classes.{digit?, class_table};
ghost use Rattle.jsontext.specs.NumberAnswer.{Short, Within, FewRead};

use classes::is_digit;

// The most digits that fit.
pub(crate) const FITTING: usize = 19;

// The whole number that digits come to, and the place after them.
#[derive(Clone, Copy)]
pub(crate) struct ShortRun {
    pub value: u64,
    pub end: usize,
}

// The value of a digit; at most 15 for every byte.
pub(crate) fn digit_value(b: u8) -> u64
    ensures few { result ≤ 15 }
    ensures value { digit? b ≡ true → result ≡ b - 48 }
{
    u64::from(b % 16)
}

// The digits from a place up to another, after others that come to a number; together at most 19.
pub(crate) fn few_digits(
    text: &[u8],
    classes: &[u8; 256],
    before: u64,
    at: usize,
    last: usize,
) -> ShortRun
    requires order { (at ≤ last) × (last ≤ length text.now) }
    requires fitting { (n : ℕ) × Short before n × (n + last ≤ at + 19) }
    ensures within { Within before at last result.value result.end }
    ensures few_read { classes.now ≡ class_table → FewRead text.now before at last result }
{
    let mut value = before;
    for i in at..last {
        let b = text[i];
        if !is_digit(classes, b) {
            return ShortRun { value, end: i };
        }
        value = value * 10 + digit_value(b);
    }
    ShortRun { value, end: last }
}
