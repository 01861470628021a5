// A row by value: its symbol, child places and scalar; its ten cells; and its equality with a lent row.
ghost use Rattle.std.specs.Prelude.{◌≡◌, ◌/◌, ◌%◌};
ghost use Rattle.model.specs.Lists.{eq_list};
ghost use Rattle.model.specs.Build.{eq_row};
ghost use Rattle.document.specs.Rows.{used, places_of, row_in, encode_row, Kept};
ghost use Rattle.document.specs.Fields.{numbers_of, as_rows, fields_row, place_after};

use crate::rows::{ROW_CELLS, Row, kind, payload, place, symbol};
use crate::scalar;
use crate::scalar::Scalar;
use crate::words::low_cell;
use base::limits::{PLACES, UNUSED};

const LAST_PLACE: usize = PLACES - 1;

// Places after the first unused one do not count.
#[derive(Clone, Copy)]
pub struct RowFields {
    pub symbol: u16,
    pub places: [Row; PLACES],
    pub scalar: Scalar,
}

fn place_after(last: Row, x: Row) -> Row
    ensures { result.0 ≡ place_after last.0 x.0 }
{
    if last.0 == UNUSED { Row(UNUSED) } else { x }
}

// The places, all unused after the first that is.
fn settled(places: [Row; PLACES]) -> [Row; PLACES]
    ensures { result ≡ as_rows (places_of (used (numbers_of places))) }
{
    let mut p = places;
    for k in 0..LAST_PLACE {
        p[k + 1] = place_after(p[k], p[k + 1]);
    }
    p
}

// The ten cells of a row; they hold all of it.
pub fn cells_of(f: RowFields) -> [u16; ROW_CELLS]
    ensures value { result ≡ encode_row (fields_row f) }
    ensures kept { Kept (fields_row f) }
{
    let places = f.places;
    let p = settled(places);
    let s = f.scalar;
    let k = scalar::kind(s);
    let x = scalar::payload(s);
    let y = x / 65536;
    let z = y / 65536;
    let w = z / 65536;
    [
        f.symbol,
        p[0].0,
        p[1].0,
        p[2].0,
        p[3].0,
        k,
        low_cell(x),
        low_cell(y),
        low_cell(z),
        low_cell(w),
    ]
}

// Whether the places of row i are these, up to the first unused one.
fn same_places(rows: &[u16], i: Row, places: [Row; PLACES]) -> bool
    ensures { result ≡ eq_list (used (numbers_of places)) (row_in rows.now i.0).children }
{
    for k in 0..PLACES {
        let x = places[k];
        let y = place(rows, i, k as u16);
        if x.0 != y.0 {
            return false;
        }
        if x.0 == UNUSED {
            return true;
        }
    }
    true
}

// Whether row i equals the fields.
pub fn same_row(rows: &[u16], i: Row, f: RowFields) -> bool
    ensures { result ≡ eq_row (fields_row f) (row_in rows.now i.0) }
{
    if f.symbol != symbol(rows, i) {
        return false;
    }
    let s = f.scalar;
    if !scalar::held(s, kind(rows, i), payload(rows, i)) {
        return false;
    }
    let places = f.places;
    same_places(rows, i, places)
}
