// The pieces of a line, each put at a place of the output, and whole lines at its front; the place after them comes back. Space and place are no struct: it would hold them for one call, and each clause would still tell of both.
ghost use Rattle.std.specs.Prelude.{[], ◌∷◌, ◌++◌, ◌+◌, ◌<◌, ◌≤◌, length};
ghost use Rattle.base.specs.Refusals.{number};
ghost use Rattle.names.specs.Names.{decimal};
ghost use Rattle.spelling.specs.Parts.{Wrote};
ghost use Rattle.console.specs.Output.{Printed};
ghost use Rattle.console.specs.Words.{refused_word, at_word, numbered, line_of, refused_line, refused_at_line, refusal_line, alive_lines};

use base::refusal::{Refusal, TextRefusal};
use base::space::put;
use spelling::number::put_decimal;

// The refusals that have a place.
const FIRST_PLACED: u16 = 63;

const LAST_PLACED: u16 = 67;

// Some bytes.
fn put_bytes(out: &mut [u8], at: usize, bytes: &[u8]) -> usize
    requires { at + length bytes.now ≤ length out.old }
    ensures { Wrote out.old at bytes.now out.new result }
{
    put(out, at, bytes);
    at + bytes.len()
}

// An answer of one word, at the front of the output.
pub(crate) fn put_answer(out: &mut [u8], line: &[u8]) -> usize
    requires { length line.now ≤ length out.old }
    ensures { Printed line.now out.old out.new result }
{
    put_bytes(out, 0, line)
}

// A number in decimal.
fn put_number(out: &mut [u8], at: usize, n: u64) -> usize
    requires { at + 20 ≤ length out.old }
    ensures wrote { Wrote out.old at (decimal n) out.new result }
    ensures few { result ≤ at + 20 }
{
    at + put_decimal(out, at, n)
}

// A word and a number.
fn put_numbered(out: &mut [u8], at: usize, word: &[u8], n: u64) -> usize
    requires { at + length word.now + 20 ≤ length out.old }
    ensures wrote { Wrote out.old at (numbered word.now n) out.new result }
    ensures few { result ≤ at + length word.now + 20 }
{
    let end = put_bytes(out, at, word);
    put_number(out, end, n)
}

// The end of a line.
fn put_end(out: &mut [u8], at: usize) -> usize
    requires { at < length out.old }
    ensures { Wrote out.old at (10 ∷ []) out.new result }
{
    put_bytes(out, at, b"\n")
}

// A line of some bytes.
fn put_line(out: &mut [u8], at: usize, bytes: &[u8]) -> usize
    requires { at + length bytes.now < length out.old }
    ensures { Wrote out.old at (line_of bytes.now) out.new result }
{
    let end = put_bytes(out, at, bytes);
    put_end(out, end)
}

// A line of a word and a number.
fn put_number_line(out: &mut [u8], at: usize, word: &[u8], n: u64) -> usize
    requires { at + length word.now + 20 < length out.old }
    ensures wrote { Wrote out.old at (line_of (numbered word.now n)) out.new result }
    ensures few { result ≤ at + length word.now + 21 }
{
    let end = put_numbered(out, at, word, n);
    put_end(out, end)
}

// A refusal at the front of the output.
pub(crate) fn put_refused(out: &mut [u8], refusal: Refusal) -> usize
    requires { 28 < length out.old }
    ensures { Printed (refused_line (number refusal)) out.old out.new result }
{
    put_number_line(out, 0, b"refused ", u64::from(refusal.number()))
}

// A refusal's number and place.
fn put_numbers(out: &mut [u8], number: u16, place: u64) -> usize
    requires { 52 ≤ length out.old }
    ensures wrote { Wrote out.old 0 (numbered refused_word number ++ numbered at_word place) out.new result }
    ensures few { result ≤ 52 }
{
    let end = put_numbered(out, 0, b"refused ", u64::from(number));
    put_numbered(out, end, b" at ", place)
}

// A refusal with its place at the front of the output.
fn put_refused_at(out: &mut [u8], number: u16, place: u64) -> usize
    requires { 52 < length out.old }
    ensures { Printed (refused_at_line number place) out.old out.new result }
{
    let end = put_numbers(out, number, place);
    put_end(out, end)
}

// The same, with the place where the refusal has one.
pub(crate) fn put_refusal(out: &mut [u8], text: TextRefusal) -> usize
    requires { 52 < length out.old }
    ensures { Printed (refusal_line (number text.refusal) text.place) out.old out.new result }
{
    let number = text.refusal.number();
    if number < FIRST_PLACED || number > LAST_PLACED {
        return put_refused(out, text.refusal);
    }
    put_refused_at(out, number, text.place as u64)
}

// A height, and a text in a line of its own, at the front of the output.
pub(crate) fn put_alive(out: &mut [u8], height: u16, text: &[u8]) -> usize
    requires { 28 + length text.now ≤ length out.old }
    ensures { Printed (alive_lines height text.now) out.old out.new result }
{
    let end = put_number_line(out, 0, b"alive ", u64::from(height));
    put_line(out, end, text)
}
