// What stands at a place of a string, behind its opening quote: the closing quote, bytes that stand for themselves, an escape, or a byte that no rule allows.
ghost use Rattle.std.specs.Prelude.{◌≡◌, true, ◌<◌, ◌≤◌, length, MatchOption};
ghost use Rattle.classes.specs.Classes.{either_hex_digit?, class_table};
ghost use Rattle.jsontext.specs.Strings.{simple, hex_value, hex_from, dee?, low?, first_unit, second_unit, as_code, pair_at, unicode_at, escape_at, piece_at};
ghost use Rattle.jsontext.specs.StringAnswers.{hex_of, piece_of, HexInside, EscapeInside, PieceInside};

use crate::utf8::{sequence, within};
use base::text::{Fault, byte_at};
use classes::{is_control, is_hex_digit};

// The digits of a `\u`.
const UNIT_DIGITS: usize = 4;

// The closing quote, bytes up to a place, or a code point by escape and the place after it.
#[derive(Clone, Copy)]
pub(crate) enum StringPiece {
    Closed,
    Raw(usize),
    Code(u32, usize),
}

// The value of a hex digit of either case; below 16 for every byte.
fn hex_value(b: u8) -> u32
    ensures few { result < 16 }
    ensures value { either_hex_digit? b ≡ true → result ≡ hex_value b }
{
    u32::from((b % 16 + b / 64 * 9) % 16)
}

// Four hex digits and the place after them.
fn hex(text: &[u8], classes: &[u8; 256], at: usize) -> Result<(u32, usize), Fault>
    requires { at ≤ length text.now }
    ensures answer { classes.now ≡ class_table → hex_of result ≡ hex_from 4 text.now 0 at }
    ensures inside { HexInside text.now at result }
{
    let mut v = 0;
    for k in 0..UNIT_DIGITS {
        let i = at + k;
        if i >= text.len() {
            return Err(Fault(i));
        }
        let b = text[i];
        if !is_hex_digit(classes, b) {
            return Err(Fault(i));
        }
        v = v * 16 + hex_value(b);
    }
    Ok((v, at + UNIT_DIGITS))
}

// How a surrogate begins, and how a low one goes on.
fn is_dee(b: u8) -> bool
    ensures { result ≡ dee? b }
{
    (b == b'D') | (b == b'd')
}

fn is_low(b: u8) -> bool
    ensures { result ≡ low? b }
{
    within(b'C', b'F', b) | within(b'c', b'f', b)
}

// The digits of a first `\u`, which are no low surrogate's.
fn first_unit(text: &[u8], classes: &[u8; 256], at: usize) -> Result<(u32, usize), Fault>
    requires { at ≤ length text.now }
    ensures answer { classes.now ≡ class_table → hex_of result ≡ first_unit text.now at }
    ensures inside { HexInside text.now at result }
{
    if !is_dee(byte_at(text, at)) {
        return hex(text, classes, at);
    }
    if is_low(byte_at(text, at + 1)) {
        return Err(Fault(at + 1));
    }
    hex(text, classes, at)
}

// The digits of a second `\u`, which are a low surrogate's.
fn second_unit(text: &[u8], classes: &[u8; 256], at: usize) -> Result<(u32, usize), Fault>
    requires { at ≤ length text.now }
    ensures answer { classes.now ≡ class_table → hex_of result ≡ second_unit text.now at }
    ensures inside { HexInside text.now at result }
{
    if !is_dee(byte_at(text, at)) {
        return Err(Fault(at));
    }
    if !is_low(byte_at(text, at + 1)) {
        return Err(Fault(at + 1));
    }
    hex(text, classes, at)
}

// The code point of a pair by what follows its high surrogate, and the place after it.
fn pair(text: &[u8], classes: &[u8; 256], v: u32, at: usize) -> Result<(u32, usize), Fault>
    requires { at ≤ length text.now }
    ensures answer { classes.now ≡ class_table → as_code (hex_of result) ≡ pair_at text.now v at }
    ensures inside { EscapeInside text.now at result }
{
    if byte_at(text, at) != b'\\' {
        return Err(Fault(at));
    }
    if byte_at(text, at + 1) != b'u' {
        return Err(Fault(at + 1));
    }
    let (w, n) = second_unit(text, classes, at + 2)?;
    Ok((65536 + v % 1024 * 1024 + w % 1024, n))
}

// The code point by what follows `\u`, and the place after it.
fn unicode(text: &[u8], classes: &[u8; 256], at: usize) -> Result<(u32, usize), Fault>
    requires { at ≤ length text.now }
    ensures answer { classes.now ≡ class_table → as_code (hex_of result) ≡ unicode_at text.now at }
    ensures inside { EscapeInside text.now at result }
{
    let (v, n) = first_unit(text, classes, at)?;
    if (55296 <= v) & (v <= 56319) {
        return pair(text, classes, v, n);
    }
    Ok((v, n))
}

// The byte that an escape of one letter stands for.
fn simple(b: u8) -> Option<u32>
    ensures { MatchOption result (simple b ≡ 0) (λ c. (c ≡ simple b) × (0 < c)) }
{
    match b {
        b'"' => Some(34),
        b'\\' => Some(92),
        b'/' => Some(47),
        b'b' => Some(8),
        b'f' => Some(12),
        b'n' => Some(10),
        b'r' => Some(13),
        b't' => Some(9),
        _ => None,
    }
}

// The code point by what follows a backslash, and the place after it.
fn escape(text: &[u8], classes: &[u8; 256], at: usize) -> Result<(u32, usize), Fault>
    requires { at ≤ length text.now }
    ensures answer { classes.now ≡ class_table → as_code (hex_of result) ≡ escape_at text.now at }
    ensures inside { EscapeInside text.now at result }
{
    let b = byte_at(text, at);
    if b == b'u' {
        return unicode(text, classes, at + 1);
    }
    let Some(c) = simple(b) else {
        return Err(Fault(at));
    };
    Ok((c, at + 1))
}

// What stands at a place.
pub(crate) fn piece_at(text: &[u8], classes: &[u8; 256], at: usize) -> Result<StringPiece, Fault>
    ensures answer { classes.now ≡ class_table → piece_of result ≡ piece_at text.now at }
    ensures inside { PieceInside text.now at result }
{
    if at >= text.len() {
        return Err(Fault(at));
    }
    let b = text[at];
    if b == b'"' {
        return Ok(StringPiece::Closed);
    }
    if b == b'\\' {
        let (c, n) = escape(text, classes, at + 1)?;
        return Ok(StringPiece::Code(c, n));
    }
    if is_control(classes, b) {
        return Err(Fault(at));
    }
    if b < 128 {
        return Ok(StringPiece::Raw(at + 1));
    }
    Ok(StringPiece::Raw(sequence(text, at)?))
}
