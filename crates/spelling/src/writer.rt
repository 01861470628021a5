// Terms and argument lists: the two writers call each other, row numbers falling; siblings are a loop. Space and place are no struct: it would hold them for one call, and each clause would still tell of both.
ghost use Rattle.std.specs.Prelude.{[], ◌∷◌, ◌+◌, ◌<◌, ◌≤◌, T, length};
ghost use Rattle.model.specs.Table.{scalar?};
ghost use Rattle.names.specs.Table.{name_in};
ghost use Rattle.document.specs.Rows.{row_in};
ghost use Rattle.document.specs.Check.{row_count};
ghost use Rattle.spelling.specs.Text.{scalar_text};
ghost use Rattle.spelling.specs.Rows.{SoundCells, row_text, list_text};
ghost use Rattle.spelling.specs.Parts.{Wrote};

use crate::piece::{put_piece, scalar_at};
use base::limits::{MAX_CHILDREN, UNUSED};
use document::rows::{Row, place, symbol};
use names::table::{put_name, shown_length};

fn byte(out: &mut [u8], at: usize, b: u8) -> usize
    requires { at < length out.old }
    ensures { Wrote out.old at (b ∷ []) out.new result }
{
    out[at] = b;
    at + 1
}

fn name(names: &[u8], s: u16, out: &mut [u8], at: usize) -> usize
    requires { at + length (name_in names.now s) ≤ length out.old }
    ensures { Wrote out.old at (name_in names.now s) out.new result }
{
    put_name(out, at, names, s);
    at + shown_length(names, s)
}

// The scalar of row i.
fn scalar(rows: &[u16], i: Row, out: &mut [u8], at: usize) -> usize
    requires known { T (scalar? (row_in rows.now i.0).kind (row_in rows.now i.0).payload) }
    requires fits { at + length (scalar_text (row_in rows.now i.0).kind (row_in rows.now i.0).payload) ≤ length out.old }
    ensures { Wrote out.old at (scalar_text (row_in rows.now i.0).kind (row_in rows.now i.0).payload) out.new result }
{
    let p = scalar_at(rows, i);
    at + put_piece(out, at, p)
}

// The text of row i at a place of a space, where it fits.
#[cycle(arguments_term)]
pub(crate) fn term(rows: &[u16], names: &[u8], i: Row, out: &mut [u8], at: usize) -> usize
    requires sound { SoundCells rows.now }
    requires inside { i.0 < row_count rows.now }
    requires fits { at + length (row_text (name_in names.now) rows.now i.0) ≤ length out.old }
    ensures { Wrote out.old at (row_text (name_in names.now) rows.now i.0) out.new result }
{
    let p = name(names, symbol(rows, i), out, at);
    let c = place(rows, i, 0);
    if c.0 == UNUSED {
        return scalar(rows, i, out, p);
    }
    arguments(rows, names, i, out, p)
}

// The children of row i in brackets: one turn of the loop for each.
#[cycle(arguments_term)]
fn arguments(rows: &[u16], names: &[u8], i: Row, out: &mut [u8], at: usize) -> usize
    requires sound { SoundCells rows.now }
    requires inside { i.0 < row_count rows.now }
    requires fits { at + length (list_text (row_text (name_in names.now) rows.now) 40 (row_in rows.now i.0).children) ≤ length out.old }
    ensures { Wrote out.old at (list_text (row_text (name_in names.now) rows.now) 40 (row_in rows.now i.0).children) out.new result }
{
    let mut p = at;
    let mut lead = b'(';
    for k in 0..MAX_CHILDREN {
        let c = place(rows, i, k);
        if c.0 == UNUSED {
            break;
        }
        p = byte(&mut *out, p, lead);
        p = term(rows, names, c, &mut *out, p);
        lead = b',';
    }
    byte(out, p, b')')
}
