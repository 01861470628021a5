// How long a table's text is: each row's length once, from those of its children, which are lower.
ghost use Rattle.std.specs.Prelude.{◌≡◌, ◌+◌, ◌-◌, ◌<◌, T, length, get_or};
ghost use Rattle.model.specs.Table.{scalar?};
ghost use Rattle.names.specs.Table.{name_in};
ghost use Rattle.document.specs.Rows.{row_in};
ghost use Rattle.document.specs.Check.{row_count};
ghost use Rattle.spelling.specs.Rows.{SoundCells, row_text, list_length, row_length, within};

use crate::piece::{PIECE, scalar_at};
use base::limits::{MAX_CHILDREN, MAX_ROWS, UNUSED};
use document::rows::{Row, count, place, symbol};
use names::table::shown_length;

const ROWS: usize = MAX_ROWS as usize;

// The sum of three lengths, where it is at most that of the space.
fn sum(a: usize, b: usize, c: usize, space: usize) -> Option<usize>
    ensures { result ≡ within space (a + b + c) }
{
    if a > space || b > space - a || c > space - a - b {
        return None;
    }
    Some(a + b + c)
}

fn length_at(lengths: &[usize], i: Row) -> usize
    ensures { result ≡ get_or lengths.now i.0 0 }
{
    lengths.get(usize::from(i.0)).copied().unwrap_or(0)
}

// The children of row i in brackets, after so many bytes.
fn list_length(rows: &[u16], lengths: &[usize], i: Row, first: usize, space: usize) -> Option<usize>
    ensures { result ≡ within space (first + list_length lengths.now (row_in rows.now i.0).children) }
{
    let mut n = first;
    for k in 0..MAX_CHILDREN {
        let c = place(rows, i, k);
        if c.0 == UNUSED {
            break;
        }
        n = sum(n, 1, length_at(lengths, c), space)?;
    }
    sum(n, 1, 0, space)
}

// Row i: its name, then its scalar or its children.
fn row_length(rows: &[u16], names: &[u8], lengths: &[usize], i: Row, space: usize) -> Option<usize>
    requires { T (scalar? (row_in rows.now i.0).kind (row_in rows.now i.0).payload) }
    ensures { result ≡ within space (row_length (name_in names.now) lengths.now rows.now i.0) }
{
    let n = shown_length(names, symbol(rows, i));
    let c = place(rows, i, 0);
    if c.0 == UNUSED {
        let p = scalar_at(rows, i);
        return sum(n, PIECE - p.start, 0, space);
    }
    list_length(rows, lengths, i, n, space)
}

// The last row's text. A row that is longer than the space makes the last one so too, since each other row is part of it.
pub(crate) fn text_length(rows: &[u16], names: &[u8], space: usize) -> Option<usize>
    requires { SoundCells rows.now }
    ensures { result ≡ within space (length (row_text (name_in names.now) rows.now (row_count rows.now - 1))) }
{
    let mut lengths = [0usize; ROWS];
    let n = count(rows);
    for i in 0..n {
        lengths[i] = row_length(rows, names, &lengths, Row(i as u16), space)?;
    }
    Some(lengths[n - 1])
}
