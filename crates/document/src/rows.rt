// Lent rows, cell by cell: every function answers for every slice, a cell past the end counting as 0.
ghost use Rattle.std.specs.Prelude.{◌≡◌, ℕ, ◌*◌, ◌/◌, length};
ghost use Rattle.model.specs.Space.{put_at};
ghost use Rattle.document.specs.Rows.{row_cells, cell_in, places_in, row_in, encode_row};
ghost use Rattle.document.specs.Scalars.{decode_scalar};
ghost use Rattle.document.specs.Fields.{as_rows, fields_row, or_bare, fields_in};
ghost use Rattle.document.specs.Check.{place_in};

use crate::fields::{RowFields, cells_of};
use crate::scalar::{Scalar, from_cells};
use base::limits::{MAX_CHILDREN, PLACES, UNUSED};
use base::space;

// A row's number.
#[derive(Clone, Copy)]
pub struct Row(pub u16);

// The number of a step of a written run.
#[derive(Clone, Copy)]
pub struct Step(pub u16);

// What goes by a number, as a row or a step does.
pub trait Numbered: Copy {
    ghost number: { Self → ℕ };

    fn number(self) -> u16
        ensures { result ≡ number self };
}

impl Numbered for Row {
    ghost number = { λ r. r.0 };

    fn number(self) -> u16 {
        self.0
    }
}

impl Numbered for Step {
    ghost number = { λ s. s.0 };

    fn number(self) -> u16 {
        self.0
    }
}

pub const ROW_CELLS: usize = 10;

// Cell k of row i.
pub fn cell(rows: &[u16], i: Row, k: u16) -> u16
    ensures { result ≡ cell_in rows.now i.0 k }
{
    let at = usize::from(i.0) * ROW_CELLS + usize::from(k);
    rows.get(at).copied().unwrap_or(0)
}

// As many rows as fit whole.
pub fn count(rows: &[u16]) -> usize
    ensures { result ≡ length rows.now / row_cells }
{
    rows.len() / ROW_CELLS
}

pub fn symbol(rows: &[u16], i: Row) -> u16
    ensures { result ≡ (row_in rows.now i.0).symbol }
{
    cell(rows, i, 0)
}

// Place k of row i: a child's number, or UNUSED. It is no Option, since the clause says the number that the cell holds.
pub fn place(rows: &[u16], i: Row, k: u16) -> Row
    ensures { result.0 ≡ place_in rows.now i.0 k }
{
    if k < MAX_CHILDREN {
        return Row(cell(rows, i, 1 + k));
    }
    Row(UNUSED)
}

pub fn kind(rows: &[u16], i: Row) -> u16
    ensures { result ≡ (row_in rows.now i.0).kind }
{
    cell(rows, i, 5)
}

pub fn payload(rows: &[u16], i: Row) -> u64
    ensures { result ≡ (row_in rows.now i.0).payload }
{
    u64::from(cell(rows, i, 6))
        + 65536
            * (u64::from(cell(rows, i, 7))
                + 65536 * (u64::from(cell(rows, i, 8)) + 65536 * u64::from(cell(rows, i, 9))))
}

fn scalar_of(kind: u16, payload: u64) -> Scalar
    ensures { result ≡ or_bare (decode_scalar kind payload) }
{
    from_cells(kind, payload).unwrap_or(Scalar::Bare)
}

// The four places of row i.
pub(crate) fn places_of(rows: &[u16], i: Row) -> [Row; PLACES]
    ensures { result ≡ as_rows (places_in rows.now i.0) }
{
    [
        Row(cell(rows, i, 1)),
        Row(cell(rows, i, 2)),
        Row(cell(rows, i, 3)),
        Row(cell(rows, i, 4)),
    ]
}

// Row i by value; its scalar is bare where kind and payload are none.
pub fn fields_at(rows: &[u16], i: Row) -> RowFields
    ensures { result ≡ fields_in rows.now i.0 }
{
    let places = places_of(rows, i);
    let scalar = scalar_of(kind(rows, i), payload(rows, i));
    RowFields {
        symbol: symbol(rows, i),
        places,
        scalar,
    }
}

// Makes the cells row i of the space; where they do not fit whole, nothing is written.
pub fn put_cells(out: &mut [u16], i: Row, cells: [u16; ROW_CELLS])
    ensures { out.new ≡ put_at out.old (i.0 * row_cells) cells }
{
    space::put(out, usize::from(i.0) * ROW_CELLS, &cells);
}

// The same with a row by value.
pub fn put_row(out: &mut [u16], i: Row, f: RowFields)
    ensures { out.new ≡ put_at out.old (i.0 * row_cells) (encode_row (fields_row f)) }
{
    put_cells(out, i, cells_of(f));
}
