// The table builder: rows in cells that the caller lends, each added once, with an index over them.
ghost use Rattle.std.specs.Prelude.{◌≡◌};
ghost use Rattle.document.specs.Rows.{Kept};
ghost use Rattle.document.specs.Fields.{fields_row};
ghost use Rattle.document.specs.Builder.{room_for?, find_or_add, Did};

use crate::fields::{RowFields, cells_of};
use crate::index::{Probed, SLOTS, look_up, start_slot};
use crate::rows::{ROW_CELLS, Row, put_cells};
use base::limits::MAX_ROWS;

// A row that was there, one that was added, or no room for one. Who asks does something of its own in each case, so an Option of two cases would only be matched twice.
#[derive(Clone, Copy)]
pub enum Placed {
    Known(Row),
    Added(Row),
    Full,
}

// Rows, slots, their number and the limit are no struct: a reader lends the first two out of tables of its own, so it would build one for each call and take it apart again.

// Room for a row more, after n.
pub(crate) fn has_room(rows: &[u16], n: u16, limit: u16) -> bool
    ensures { result ≡ room_for? rows.now n limit }
{
    let m = usize::from(n);
    (n < limit) & (n < MAX_ROWS) & (m * ROW_CELLS + ROW_CELLS <= rows.len())
}

// The row of these fields among the first n, which the slots index; added as row n where there is none and there is room.
pub fn find_or_add(
    rows: &mut [u16],
    slots: &mut [u16; SLOTS],
    n: u16,
    limit: u16,
    f: RowFields,
) -> Placed
    ensures did { Did (find_or_add rows.old slots.old n limit (fields_row f)) result rows.new slots.new }
    ensures kept { Kept (fields_row f) }
{
    let cells = cells_of(f);
    let start = start_slot(cells);
    match look_up(&*rows, &*slots, start, f) {
        Probed::Found(i) => Placed::Known(i),
        Probed::Free(t) => {
            if !has_room(&*rows, n, limit) {
                return Placed::Full;
            }
            put_cells(&mut *rows, Row(n), cells);
            slots[t] = n + 1;
            Placed::Added(Row(n))
        },
        Probed::Crowded => Placed::Full,
    }
}
