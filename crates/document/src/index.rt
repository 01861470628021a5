// The index of a table's rows: slots of open addressing, each empty or with a row's number and 1.
ghost use Rattle.std.specs.Prelude.{◌≡◌, Bool, false, ℕ, ◌<◌, ◌%◌};
ghost use Rattle.model.specs.Build.{eq_row};
ghost use Rattle.document.specs.Rows.{row_in};
ghost use Rattle.document.specs.Hash.{row_hash};
ghost use Rattle.document.specs.Fields.{fields_row};
ghost use Rattle.document.specs.Index.{slot_count, probe};
ghost use Rattle.document.specs.Words.{same_words};

use crate::fields::{RowFields, same_row};
use crate::hash::row_hash;
use crate::rows::{ROW_CELLS, Row};
use crate::words::{CELLS, RowWords, same_words};

// Twice as many slots as a table has rows, so that a probe finds an empty one.
pub const SLOTS: usize = 2048;

// What a probe finds: an equal row, the empty slot where the row belongs, or neither. Who asks does something of its own in each case, so an Option of two cases would only be matched twice.
#[derive(Clone, Copy)]
pub enum Probed {
    Found(Row),
    Free(usize),
    Crowded,
}

// The slot where a row of these cells is looked for first.
pub fn start_slot(cells: [u16; ROW_CELLS]) -> u16
    ensures { result ≡ row_hash cells % slot_count }
{
    (row_hash(cells) as usize % SLOTS) as u16
}

// Tries each slot once, from slot start on: the first empty slot ends it, or the first row that passes the test.
pub fn probe<F: Fn(Row) -> bool>(slots: &[u16; SLOTS], start: usize, same: F) -> Probed
    requires callable { F.IsAlwaysCallable same }
    requires start { start < 65536 }
    ensures { (same? : ℕ → Bool) → ((i : Row) (b : Bool) → F.post same i b → b ≡ same? i.0) → result ≡ probe slots.now same? start }
{
    for d in 0..SLOTS {
        let at = (start + d) % SLOTS;
        let held = slots[at];
        if held == 0 {
            return Probed::Free(at);
        }
        let i = Row(held - 1);
        if same(i) {
            return Probed::Found(i);
        }
    }
    Probed::Crowded
}

// Looks for a row that equals the fields, from slot start on.
pub fn look_up(rows: &[u16], slots: &[u16; SLOTS], start: u16, f: RowFields) -> Probed
    ensures { result ≡ probe slots.now (λ i. eq_row (fields_row f) (row_in rows.now i)) start }
{
    probe(slots, usize::from(start), |i| same_row(rows, i, f))
}

// The same for a row with the cells of the words.
pub(crate) fn look_up_words(
    rows: &[u16; CELLS],
    slots: &[u16; SLOTS],
    start: usize,
    w: RowWords,
) -> Probed
    requires { start < slot_count }
    ensures { result ≡ probe slots.now (same_words rows.now w.a w.b w.c) start }
{
    probe(slots, start, |i| same_words(rows, i, w))
}

// The first empty slot from slot start on: a probe that no row passes.
pub(crate) fn free_slot(slots: &[u16; SLOTS], start: usize) -> Probed
    requires { start < slot_count }
    ensures { result ≡ probe slots.now (λ _. false) start }
{
    probe(slots, start, |_| false)
}
