// Names and scalars at a place of a text; a byte past the end counts as 0, which no rule allows.
ghost use Rattle.std.specs.Prelude.{◌≡◌, true, cond, ◌+◌, ◌-◌, ◌<◌, ◌≤◌, ◌^◌, length};
ghost use Rattle.names.specs.Names.{digit?};
ghost use Rattle.term.specs.Scan.{name_bytes, word_at, digit_value, digits_from, number_at, hex_digit?, hex_value, hex_from, scalar, of_kind, of_rate, value_at, scalar_at};
ghost use Rattle.term.specs.Answer.{number_of, scalar_of};

use crate::input::Source;
use base::text::{Fault, byte_at, word_bytes};
use classes::{is_digit, is_hex_digit, is_letter_or_digit};
use document::Scalar;
use document::scalar::row_rate;
use names::lines::MAX_NAME;

const HEX_DIGITS: usize = 16;

const MAX_NAME_NUMBER: u64 = u32::MAX as u64;

// How many name bytes stand at a place, counted up to one more than a name may have.
pub(crate) fn name_bytes(source: &Source, at: usize) -> usize
    ensures { result ≡ name_bytes source.now.text.now at }
{
    for n in 0..=MAX_NAME {
        if !is_letter_or_digit(source.classes, byte_at(source.text, at + n)) {
            return n;
        }
    }
    MAX_NAME + 1
}

// A word that says a flag.
fn flag(source: &Source, at: usize, word: &[u8], value: bool) -> Result<(Scalar, usize), Fault>
    requires { at + length word.now < 2 ^ 64 }
    ensures { scalar_of result ≡ word_at (scalar 1 (cond value 1 0)) word.now source.now.text.now at }
{
    let n = word_bytes(source.text, at, word);
    if n != word.len() {
        return Err(Fault(at + n));
    }
    Ok((Scalar::Flag(value), at + n))
}

fn digit_value(b: u8) -> u64
    requires { digit? b ≡ true }
    ensures { (result ≡ digit_value b) × (result < 10) }
{
    u64::from(b - b'0')
}

// The digits at a place, after a number; the whole number is at most `most`.
fn digits(source: &Source, at: usize, most: u64, first: u64) -> Result<(u64, usize), Fault>
    requires { 9 ≤ most }
    ensures { number_of result ≡ digits_from (length source.now.text.now - at) (most + 1) source.now.text.now first at }
{
    let mut v = first;
    for i in at..source.text.len() {
        let b = source.text[i];
        if !is_digit(source.classes, b) {
            return Ok((v, i));
        }
        let d = digit_value(b);
        if v > (most - d) / 10 {
            return Err(Fault(i));
        }
        v = v * 10 + d;
    }
    Ok((v, at.max(source.text.len())))
}

// The decimal number at a place, at most `most`.
fn number(source: &Source, at: usize, most: u64) -> Result<(u64, usize), Fault>
    requires { 9 ≤ most }
    ensures { number_of result ≡ number_at (most + 1) source.now.text.now at }
{
    let b = byte_at(source.text, at);
    if !is_digit(source.classes, b) {
        return Err(Fault(at));
    }
    if b != b'0' {
        return digits(source, at + 1, most, digit_value(b));
    }
    if is_digit(source.classes, byte_at(source.text, at + 1)) {
        return Err(Fault(at + 1));
    }
    Ok((0, at + 1))
}

// Whether a byte is a hex digit in lowercase: a hex digit that is a digit or a letter.
fn is_lower_hex(source: &Source, b: u8) -> bool
    ensures { result ≡ hex_digit? b }
{
    is_hex_digit(source.classes, b) & is_letter_or_digit(source.classes, b)
}

fn hex_value(source: &Source, b: u8) -> u64
    requires { hex_digit? b ≡ true }
    ensures { (result ≡ hex_value b) × (result < 16) }
{
    if is_digit(source.classes, b) {
        return u64::from(b - b'0');
    }
    u64::from(b - b'a') + 10
}

// The bits that 16 hex digits at a place say.
fn hex_bits(source: &Source, at: usize) -> Result<(u64, usize), Fault>
    ensures { number_of result ≡ hex_from 16 source.now.text.now 0 at }
{
    let mut v = 0;
    for n in 0..HEX_DIGITS {
        let i = at + n;
        let b = byte_at(source.text, i);
        if !is_lower_hex(source, b) {
            return Err(Fault(i));
        }
        v = v * 16 + hex_value(source, b);
    }
    Ok((v, at + HEX_DIGITS))
}

// The rate that 16 hex digits say; minus zero is taken for zero.
fn rate(source: &Source, at: usize) -> Result<(Scalar, usize), Fault>
    ensures { scalar_of result ≡ of_rate (hex_from 16 source.now.text.now 0 at) }
{
    let (n, end) = hex_bits(source, at)?;
    Ok((row_rate(n), end))
}

fn name_number(source: &Source, at: usize) -> Result<(Scalar, usize), Fault>
    ensures { scalar_of result ≡ of_kind 4 (number_at (2 ^ 32) source.now.text.now at) }
{
    let (n, end) = number(source, at, MAX_NAME_NUMBER)?;
    Ok((Scalar::Name(n as u32), end))
}

// What stands after `=`.
fn value(source: &Source, at: usize) -> Result<(Scalar, usize), Fault>
    ensures { scalar_of result ≡ value_at source.now.text.now at }
{
    let b = byte_at(source.text, at);
    if b == b't' {
        return flag(source, at, b"true", true);
    }
    if b == b'f' {
        return flag(source, at, b"false", false);
    }
    let (n, end) = number(source, at, u64::MAX)?;
    Ok((Scalar::Count(n), end))
}

// The scalar behind a name; a bare one where there is none.
pub(crate) fn scalar_at(source: &Source, at: usize) -> Result<(Scalar, usize), Fault>
    ensures { scalar_of result ≡ scalar_at source.now.text.now at }
{
    let b = byte_at(source.text, at);
    if b == b'=' {
        return value(source, at + 1);
    }
    if b == b'~' {
        return rate(source, at + 1);
    }
    if b == b'#' {
        return name_number(source, at + 1);
    }
    Ok((Scalar::Bare, at))
}
