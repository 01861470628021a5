// A row's ten cells as three numbers: four cells, four, and two, in each the first lowest. So a row is compared and written at once.
ghost use Rattle.std.specs.Prelude.{◌≡◌, [], ◌∷◌, ◌+◌, ◌*◌, ◌<◌, ◌≤◌, ◌%◌, length};
ghost use Rattle.model.specs.Limits.{max_rows};
ghost use Rattle.model.specs.Space.{put_at};
ghost use Rattle.document.specs.Rows.{row_cells, split_cells};
ghost use Rattle.document.specs.Words.{words_cells, cells_at, same_words};

use crate::rows::{ROW_CELLS, Row};
use base::limits::MAX_ROWS;

// The cells of as many rows as a table may have.
pub const CELLS: usize = MAX_ROWS as usize * ROW_CELLS;

// A row's cells: four, four, and two.
#[derive(Clone, Copy)]
pub struct RowWords {
    pub a: u64,
    pub b: u64,
    pub c: u64,
}

// What is above two cells counts times this.
pub(crate) const TWO_CELLS: u64 = 4294967296;

// Two cells as one number.
fn pair(x: u16, y: u16) -> u64
    ensures { (split_cells 2 result ≡ x ∷ y ∷ []) × (result < 4294967296) }
{
    u64::from(x) + u64::from(y) * 65536
}

// Four cells as one number: a word to place a row by.
pub fn word(x: u16, y: u16, z: u16, w: u16) -> u64
    ensures { split_cells 4 result ≡ x ∷ y ∷ z ∷ w ∷ [] }
{
    pair(x, y) + pair(z, w) * TWO_CELLS
}

// Two cells that stand at a place.
pub(crate) fn two(cells: &[u16], at: usize) -> u64
    requires { at + 2 ≤ length cells.now }
    ensures { (split_cells 2 result ≡ cells_at 2 cells.now at) × (result < 4294967296) }
{
    pair(cells[at], cells[at + 1])
}

// Four cells that stand at a place.
pub(crate) fn four(cells: &[u16], at: usize) -> u64
    requires { at + 4 ≤ length cells.now }
    ensures { split_cells 4 result ≡ cells_at 4 cells.now at }
{
    word(cells[at], cells[at + 1], cells[at + 2], cells[at + 3])
}

// Whether row i has the cells of the words; none past the last row that a table may have.
pub(crate) fn same_words(rows: &[u16; CELLS], i: Row, w: RowWords) -> bool
    ensures { result ≡ same_words rows.now w.a w.b w.c i.0 }
{
    if i.0 >= MAX_ROWS {
        return false;
    }
    let at = usize::from(i.0) * ROW_CELLS;
    (four(rows, at) == w.a) & (four(rows, at + 4) == w.b) & (two(rows, at + 8) == w.c % TWO_CELLS)
}

// A number's lowest cell.
pub fn low_cell(x: u64) -> u16
    ensures { result ≡ x % 65536 }
{
    (x % 65536) as u16
}

fn put_two(rows: &mut [u16], at: usize, x: u64)
    requires { at + 2 ≤ length rows.old }
    ensures { rows.new ≡ put_at rows.old at (split_cells 2 x) }
{
    rows[at] = low_cell(x);
    rows[at + 1] = low_cell(x / 65536);
}

fn put_four(rows: &mut [u16], at: usize, x: u64)
    requires { at + 4 ≤ length rows.old }
    ensures { rows.new ≡ put_at rows.old at (split_cells 4 x) }
{
    put_two(&mut *rows, at, x);
    put_two(&mut *rows, at + 2, x / TWO_CELLS);
}

// Makes the words' cells row i.
pub(crate) fn put_words(rows: &mut [u16], i: Row, w: RowWords)
    requires { i.0 * row_cells + row_cells ≤ length rows.old }
    ensures { rows.new ≡ put_at rows.old (i.0 * row_cells) (words_cells w.a w.b w.c) }
{
    let at = usize::from(i.0) * ROW_CELLS;
    put_four(&mut *rows, at, w.a);
    put_four(&mut *rows, at + 4, w.b);
    put_two(&mut *rows, at + 8, w.c);
}
