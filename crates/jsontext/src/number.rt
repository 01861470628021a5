// A JSON number at a place of a text, and the scalar that it becomes.
ghost use Rattle.std.specs.Prelude.{◌≡◌, true, ◌+◌, ◌-◌, ◌/◌, ◌<◌, ◌≤◌, ◌^◌, ltb, length, Ok, is_some, unwrap_or, IfSome};
ghost use Rattle.base.specs.Text.{byte_at, got};
ghost use Rattle.classes.specs.Classes.{digit?, class_table};
ghost use Rattle.jsontext.specs.Number.{Digits, Number, no_digits, with_digit, digits_from, some_digits, whole_at, sign_end, with_exponent, plain_number, exponent_at, fraction_at, after_whole, number_at, number_scalar, as_scalar};
ghost use Rattle.jsontext.specs.NumberAnswer.{ShortRead, ShortWhole, Begins, carried, carried_at, Bounded, BoundedFrom, scalar_read, number_of};

use crate::digits::{FITTING, ShortRun, digit_value, few_digits};
use crate::rate::rate;
use base::text::{Fault, byte_at};
use classes::is_digit;
use document::scalar::bits_of;

const MAX_COUNT: u64 = 18446744073709551615;

// A tenth of what the greatest value of a digit, 15 where any byte is taken for one, leaves of it.
const TENTH: u64 = 1844674407370955160;

// The most digits of a rate.
const MAX_DIGITS: usize = 15;

// Digits: the whole number that they come to, where it fits, and how many they are. That the value is no longer than they are stands in the contracts: `carried` makes one of any digits.
#[derive(Clone, Copy)]
pub(crate) struct DigitRun {
    value: Option<u64>,
    count: usize,
}

const NO_DIGITS: DigitRun = DigitRun {
    value: Some(0),
    count: 0,
};

// What a number becomes: a count; a rate's bits, of which a row takes minus zero for zero; or no scalar.
#[derive(Clone, Copy)]
pub enum NumberRead {
    Counted(u64),
    Rated(u64),
    Outside,
}

// Whether a digit of value x takes a number past 2^64 - 1: up to a tenth of that none does, which most numbers show without a division.
fn is_past(value: u64, x: u64) -> bool
    requires { x ≤ 15 }
    ensures { result ≡ ltb ((2 ^ 64 - 1 - x) / 10) value }
{
    if value <= TENTH {
        return false;
    }
    value > (MAX_COUNT - x) / 10
}

// A digit more.
fn with_digit(digits: DigitRun, b: u8) -> DigitRun
    requires { ShortRead digits × (digits.count < 2 ^ 64 - 1) }
    ensures counted { result.count ≡ digits.count + 1 }
    ensures short { ShortRead result }
    ensures held { digit? b ≡ true → (d : Digits) → digits ≡ carried d → result ≡ carried (with_digit d b) }
{
    let x = digit_value(b);
    let count = digits.count + 1;
    let Some(v) = digits.value else {
        return DigitRun { value: None, count };
    };
    if is_past(v, x) {
        return DigitRun { value: None, count };
    }
    DigitRun {
        value: Some(v * 10 + x),
        count,
    }
}

// The digits at a place, after others, and the place after them.
fn digits(text: &[u8], classes: &[u8; 256], before: DigitRun, at: usize) -> (DigitRun, usize)
    requires { Bounded before at }
    ensures value { classes.now ≡ class_table → ((d : Digits) → before ≡ carried d → Ok result ≡ carried_at (digits_from (length text.now - at) text.now d at)) }
    ensures bounds { Bounded result.0 result.1 × (before.count ≤ result.0.count) }
{
    let mut run = before;
    for i in at..text.len() {
        let b = text[i];
        if !is_digit(classes, b) {
            return (run, i);
        }
        run = with_digit(run, b);
    }
    (run, at.max(text.len()))
}

// The same, where there is one digit or more.
fn some_digits(
    text: &[u8],
    classes: &[u8; 256],
    before: DigitRun,
    at: usize,
) -> Result<(DigitRun, usize), Fault>
    requires { Bounded before at }
    ensures value { classes.now ≡ class_table → ((d : Digits) → before ≡ carried d → result ≡ carried_at (some_digits text.now d at)) }
    ensures bounds { BoundedFrom before.count result }
{
    if is_digit(classes, byte_at(text, at)) {
        return Ok(digits(text, classes, before, at));
    }
    Err(Fault(at))
}

// The whole part: 0 with no digit after it, or digits that begin with another.
fn whole_part(text: &[u8], classes: &[u8; 256], at: usize) -> Result<(DigitRun, usize), Fault>
    ensures value { classes.now ≡ class_table → result ≡ carried_at (whole_at text.now at) }
    ensures bounds { BoundedFrom 0 result }
{
    if byte_at(text, at) != b'0' {
        return some_digits(text, classes, NO_DIGITS, at);
    }
    if is_digit(classes, byte_at(text, at + 1)) {
        return Err(Fault(at + 1));
    }
    let zero = DigitRun {
        value: Some(0),
        count: 1,
    };
    Ok((zero, at + 1))
}

// The place after a sign, where there is one.
fn sign_end(text: &[u8], at: usize) -> usize
    ensures { result ≡ sign_end text.now at }
{
    let b = byte_at(text, at);
    if (b == b'+') | (b == b'-') {
        at + 1
    } else {
        at
    }
}

// A number without exponent as a scalar, by its digits and how many of them stand behind its point, if it has one: a count, else a rate, else none.
fn as_scalar(negative: bool, digits: DigitRun, places: Option<usize>) -> NumberRead
    requires { ShortRead digits × (unwrap_or places 0 ≤ digits.count) }
    ensures { (d : Digits) → digits ≡ carried d → scalar_read result ≡ number_scalar (plain_number negative d (unwrap_or places 0) (is_some places)) }
{
    let Some(value) = digits.value else {
        return NumberRead::Outside;
    };
    if !negative & places.is_none() {
        return NumberRead::Counted(value);
    }
    if digits.count > MAX_DIGITS {
        return NumberRead::Outside;
    }
    NumberRead::Rated(bits_of(rate(negative, value, places.unwrap_or(0))))
}

// The exponent's sign and digits. A number that has one becomes no scalar.
fn exponent(text: &[u8], classes: &[u8; 256], at: usize) -> Result<(NumberRead, usize), Fault>
    ensures { classes.now ≡ class_table → ((m : Number) → number_of result ≡ as_scalar (with_exponent m (some_digits text.now no_digits (sign_end text.now at)))) }
{
    let first = sign_end(text, at);
    let (_, next) = some_digits(text, classes, NO_DIGITS, first)?;
    Ok((NumberRead::Outside, next))
}

// Behind the digits: an exponent or none.
fn behind_digits(
    text: &[u8],
    classes: &[u8; 256],
    negative: bool,
    digits: DigitRun,
    places: Option<usize>,
    at: usize,
) -> Result<(NumberRead, usize), Fault>
    requires { ShortRead digits × (unwrap_or places 0 ≤ digits.count) }
    ensures { classes.now ≡ class_table → ((d : Digits) → digits ≡ carried d → number_of result ≡ as_scalar (exponent_at text.now (plain_number negative d (unwrap_or places 0) (is_some places)) at)) }
{
    let b = byte_at(text, at);
    if (b == b'e') | (b == b'E') {
        return exponent(text, classes, at + 1);
    }
    Ok((as_scalar(negative, digits, places), at))
}

// Behind the whole part: a fraction or none, then an exponent or none.
fn behind_whole(
    text: &[u8],
    classes: &[u8; 256],
    negative: bool,
    whole: DigitRun,
    at: usize,
) -> Result<(NumberRead, usize), Fault>
    requires { Bounded whole at }
    ensures { classes.now ≡ class_table → ((d : Digits) → whole ≡ carried d → number_of result ≡ as_scalar (fraction_at text.now negative d at)) }
{
    if byte_at(text, at) != b'.' {
        return behind_digits(text, classes, negative, whole, None, at);
    }
    let (all, next) = some_digits(text, classes, whole, at + 1)?;
    let places = all.count - whole.count;
    behind_digits(text, classes, negative, all, Some(places), next)
}

// Behind the sign.
fn behind_sign(
    text: &[u8],
    classes: &[u8; 256],
    negative: bool,
    at: usize,
) -> Result<(NumberRead, usize), Fault>
    ensures { classes.now ≡ class_table → number_of result ≡ as_scalar (after_whole text.now negative (whole_at text.now at)) }
{
    let (whole, next) = whole_part(text, classes, at)?;
    behind_whole(text, classes, negative, whole, next)
}

// The number at a place, however long it is.
fn any_number(text: &[u8], classes: &[u8; 256], at: usize) -> Result<(NumberRead, usize), Fault>
    ensures { classes.now ≡ class_table → number_of result ≡ as_scalar (number_at text.now at) }
{
    if byte_at(text, at) == b'-' {
        return behind_sign(text, classes, true, at + 1);
    }
    behind_sign(text, classes, false, at)
}

// The whole part at a place, without sign and with at most 18 digits, before the last bytes of the text; none for any other.
fn short_whole(text: &[u8], classes: &[u8; 256], at: usize) -> Option<ShortRun>
    ensures placed { IfSome result (λ r. ShortWhole text.now at r) }
    ensures begins { classes.now ≡ class_table → IfSome result (λ r. Begins text.now at r) }
{
    if text.len() < FITTING {
        return None;
    }
    if at > text.len() - FITTING {
        return None;
    }
    let last = at + FITTING;
    let run = few_digits(text, classes, 0, at, last);
    let next = run.end;
    if (next == at) | (next == last) {
        return None;
    }
    if (text[at] == b'0') & (next > at + 1) {
        return None;
    }
    Some(run)
}

// The number at a place, whose whole part is short and has a point behind it: in the short way where all its digits are before place at + 19.
fn short_fraction(
    text: &[u8],
    classes: &[u8; 256],
    at: usize,
    whole: ShortRun,
) -> Result<(NumberRead, usize), Fault>
    requires { ShortWhole text.now at whole }
    ensures { classes.now ≡ class_table → Begins text.now at whole → byte_at text.now whole.end ≡ 46 → number_of result ≡ as_scalar (number_at text.now at) }
{
    let first = whole.end + 1;
    let last = at + FITTING;
    let run = few_digits(text, classes, whole.value, first, last);
    let next = run.end;
    if (next == first) | (next == last) {
        return any_number(text, classes, at);
    }
    let all = DigitRun {
        value: Some(run.value),
        count: next - at - 1,
    };
    behind_digits(text, classes, false, all, Some(next - first), next)
}

// The number at a place, the longest one, as a scalar. A short one is read in a shorter way.
pub fn number(text: &[u8], classes: &[u8; 256], at: usize) -> Result<(NumberRead, usize), Fault>
    ensures { classes.now ≡ class_table → number_of result ≡ as_scalar (number_at text.now at) }
{
    let Some(run) = short_whole(text, classes, at) else {
        return any_number(text, classes, at);
    };
    let next = run.end;
    let b = text[next];
    if b == b'.' {
        return short_fraction(text, classes, at, run);
    }
    if (b == b'e') | (b == b'E') {
        return any_number(text, classes, at);
    }
    Ok((NumberRead::Counted(run.value), next))
}
