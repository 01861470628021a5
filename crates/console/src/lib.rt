// What the two programs print, byte by byte: proved functions from the bytes of standard input to those of standard output.
#![tactic(auto)]

mod line; // line.rt: the pieces of a line

ghost use Rattle.std.specs.Prelude.{[], ◌≤◌, length};
ghost use Rattle.spelling.specs.Write.{write_of};
ghost use Rattle.console.specs.Output.{Printed, output_bytes, text_space, live_lines, rows_line, judged_line, sample_output, judge_output};

use crate::line::{put_alive, put_answer, put_refusal, put_refused};
use base::limits::{MAX_ROWS, MAX_STATES};
use base::refusal::Refusal;
use document::rows::ROW_CELLS;
use membership::ANNOTATION_CELLS;
use runs::steps::STEP_CELLS;

// The most bytes that a program prints: `alive`, a height and a text, each line with its end, fit.
pub const OUTPUT: usize = 32800;

// The most bytes of input (69).
const MAX_INPUT: usize = 32768;

// A program's input space: a byte more than the most that is taken, so that a longer input is seen.
pub const INPUT: usize = MAX_INPUT + 1;

// The cells of the sample's 256 rows, and the bytes of its text.
const SAMPLE_CELLS: usize = MAX_STATES as usize * ROW_CELLS;

const TEXT: usize = 32768;

// The cells of the judge's 1,024 rows, of its annotations and of as many steps.
const CELLS: usize = MAX_ROWS as usize * ROW_CELLS;

const ROOM: usize = 512;

const WORK: usize = ROOM * ANNOTATION_CELLS;

const RUN: usize = ROOM * STEP_CELLS;

// The rows of a witness: its height and its text.
fn live(set: &[u8], rows: &[u16], height: u16, out: &mut [u8]) -> usize
    requires { output_bytes ≤ length out.old }
    ensures { Printed (live_lines height (write_of set.now [] [] rows.now text_space)) out.old out.new result }
{
    let mut text = [0u8; TEXT];
    match spelling::write(set, b"", b"", rows, &mut text) {
        Ok(n) => put_alive(out, height, &text[..n]),
        Err(refusal) => put_refused(out, refusal),
    }
}

// What the sample program prints for an input; the answer is the number of its bytes, which the space has.
pub fn sample(input: &[u8], out: &mut [u8; OUTPUT]) -> usize
    ensures printed { Printed (sample_output input.now) out.old out.new result }
    ensures fits { result ≤ length out.new }
{
    if input.len() > MAX_INPUT {
        return put_refused(out, Refusal::InputLength);
    }
    let mut rows = [0u16; SAMPLE_CELLS];
    match emptiness::witness(input, &mut rows) {
        Ok(None) => put_answer(out, b"dead\n"),
        Ok(Some(sample)) => {
            let cells = usize::from(sample.rows) * ROW_CELLS;
            live(input, &rows[..cells], sample.levels, out)
        },
        Err(refusal) => put_refused(out, refusal),
    }
}

// The line for a set and a document's rows.
fn judge_rows(set: &[u8], rows: &[u16], out: &mut [u8]) -> usize
    requires { output_bytes ≤ length out.old }
    ensures { Printed (rows_line set.now rows.now) out.old out.new result }
{
    let mut work = [0u16; WORK];
    let mut run = [0u16; RUN];
    match membership::judge(set, rows, &mut work, &mut run) {
        Ok(Some(_)) => put_answer(out, b"yes\n"),
        Ok(None) => put_answer(out, b"no\n"),
        Err(refusal) => put_refused(out, refusal),
    }
}

// The line for a set and a text.
fn judge_text(set: &[u8], text: &[u8], out: &mut [u8]) -> usize
    requires { output_bytes ≤ length out.old }
    ensures { Printed (judged_line set.now text.now) out.old out.new result }
{
    let mut rows = [0u16; CELLS];
    match term::read(set, b"", b"", text, &mut rows) {
        Ok(n) => {
            let cells = usize::from(n) * ROW_CELLS;
            judge_rows(set, &rows[..cells], out)
        },
        Err(refusal) => put_refusal(out, refusal),
    }
}

// What the judging program prints for an input, a stored set and a text behind it; the answer is the number of its bytes.
pub fn judge(input: &[u8], out: &mut [u8; OUTPUT]) -> usize
    ensures printed { Printed (judge_output input.now) out.old out.new result }
    ensures fits { result ≤ length out.new }
{
    if input.len() > MAX_INPUT {
        return put_refused(out, Refusal::InputLength);
    }
    let stated = usize::from(automaton::header(input).total);
    let total = stated.min(input.len());
    judge_text(&input[..total], &input[total..], out)
}
