// The table builder over words, with a table of rows near at hand: a row whose number it holds need not be looked up.
ghost use Rattle.std.specs.Prelude.{List, ℕ, ◌<◌, IfSome};
ghost use Rattle.model.specs.Table as table;
ghost use Rattle.document.specs.Words.{Words};
ghost use Rattle.document.specs.Builder.{find_or_add, Did, Ready};
ghost use Rattle.document.specs.declared.builder.Placed.TheVariants.{Known};

use crate::builder::{Placed, has_room};
use crate::hash::words_hash;
use crate::index::{Probed, SLOTS, look_up_words};
use crate::rows::Row;
use crate::words::{CELLS, RowWords, put_words, same_words};

// Rows near at hand.
pub const NEAR: usize = 2048;

// The place near at hand of a row with these words: any would do, and this one spreads them well.
fn near_place(w: RowWords) -> usize
    ensures { result < 2048 }
{
    let mixed = (w.a ^ w.a >> 16 ^ w.b >> 32 ^ w.c) % 4294967296;
    (mixed * 2654435761 / 2097152 % 2048) as usize
}

// The row with the cells of the words, where it is near at hand among the first n.
pub fn near_row(rows: &[u16; CELLS], near: &[u16; NEAR], n: u16, w: RowWords) -> Option<Row>
    ensures inside { IfSome result (λ row. row.0 < n) }
    ensures found { IfSome result (λ row. (x : table.Row) (slots : List ℕ) (limit : ℕ) → Words x w.a w.b w.c → Ready rows.now slots n limit → Did (find_or_add rows.now slots n limit x) (Known row) rows.now slots) }
{
    let guess = near[near_place(w)];
    if (guess < n) & same_words(rows, Row(guess), w) {
        return Some(Row(guess));
    }
    None
}

// The row with the cells of the words among the first n, which the slots index; added as row n where there is none and there is room. It is near at hand from then on.
pub fn place_row(
    rows: &mut [u16; CELLS],
    slots: &mut [u16; SLOTS],
    near: &mut [u16; NEAR],
    n: u16,
    limit: u16,
    w: RowWords,
) -> Placed
    ensures { (x : table.Row) → Words x w.a w.b w.c → Ready rows.old slots.old n limit → Did (find_or_add rows.old slots.old n limit x) result rows.new slots.new }
{
    let at = near_place(w);
    let start = words_hash(w.a, w.b, w.c) as usize % SLOTS;
    match look_up_words(&*rows, &*slots, start, w) {
        Probed::Found(i) => {
            near[at] = i.0;
            Placed::Known(i)
        },
        Probed::Free(t) => {
            if !has_room(&*rows, n, limit) {
                return Placed::Full;
            }
            put_words(&mut *rows, Row(n), w);
            slots[t] = n + 1;
            near[at] = n;
            Placed::Added(Row(n))
        },
        Probed::Crowded => Placed::Full,
    }
}
