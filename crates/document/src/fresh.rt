// Rows that are new for sure: they are added with no row compared.
ghost use Rattle.std.specs.Prelude.{◌≡◌};
ghost use Rattle.std.proofs.Math.Option.{none};
ghost use Rattle.model.specs.Table as table;
ghost use Rattle.model.specs.Build.{find_row};
ghost use Rattle.document.specs.Rows.{encode_row, rows_below};
ghost use Rattle.document.specs.Hash.{row_hash};
ghost use Rattle.document.specs.Words.{Words};
ghost use Rattle.document.specs.Builder.{find_or_add, Did, Ready};

use crate::builder::{Placed, has_room};
use crate::index::{Probed, SLOTS, free_slot};
use crate::rows::Row;
use crate::words::{CELLS, RowWords, put_words};

// Adds, as row n, the row of the hash and with the cells of the words, which none of the first n has, where there is room: only an empty slot is looked for.
pub fn add_new(
    rows: &mut [u16; CELLS],
    slots: &mut [u16; SLOTS],
    n: u16,
    limit: u16,
    hash: u32,
    w: RowWords,
) -> Placed
    ensures { (x : table.Row) → Words x w.a w.b w.c → hash ≡ row_hash (encode_row x) → Ready rows.old slots.old n limit → find_row x (rows_below rows.old n) ≡ none → Did (find_or_add rows.old slots.old n limit x) result rows.new slots.new }
{
    match free_slot(&*slots, hash as usize % SLOTS) {
        Probed::Found(i) => Placed::Known(i),
        Probed::Free(t) => {
            if !has_room(&*rows, n, limit) {
                return Placed::Full;
            }
            put_words(&mut *rows, Row(n), w);
            slots[t] = n + 1;
            Placed::Added(Row(n))
        },
        Probed::Crowded => Placed::Full,
    }
}
