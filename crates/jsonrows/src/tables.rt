// What is read, and what it is read into.
ghost use Rattle.std.specs.Prelude.{◌≡◌};
ghost use Rattle.classes.specs.Classes.{class_table};
ghost use Rattle.jsonrows.specs.KeyTable.{Keyed};

use crate::keys::{LINES, Line};
use base::limits::{MAX_LEVELS, MAX_ROWS};
use document::index::SLOTS;
use document::near::NEAR;
use document::rows::Row;
use document::words::CELLS;

// The most levels of a value.
pub(crate) const LEVELS: usize = MAX_LEVELS as usize;

// As many texts as a table has rows, since each has a row.
pub(crate) const TEXTS: usize = MAX_ROWS as usize;

// Where each text first stands, and behind that the row of its leaf.
pub(crate) const STARTS: usize = 2 * TEXTS;

// As many as there are symbols: behind each a guess at the next one's key.
pub(crate) const SYMBOLS: usize = 64;

// A text, the key list with its places and index, and the most rows.
#[derive(Drop)]
pub(crate) struct Source<'a> {
    pub(crate) text: &'a [u8],
    pub(crate) classes: &'a [u8; 256],
    pub(crate) list: &'a [u8],
    pub(crate) places: &'a [Line; LINES],
    pub(crate) key_slots: &'a [u16; SLOTS],
    pub(crate) limit: u16,
    ghost lent: { classes.now ≡ class_table },
    ghost table: { Keyed list.now places.now key_slots.now },
}

// The rows with their index and those near at hand, and the texts by number with theirs. That they hold what was read (`Held`) is no ghost field: it goes by the text and the counts too, and has places as data (`Reached`), which a ghost field may not have.
#[derive(Drop)]
pub(crate) struct Tables {
    pub(crate) rows: [u16; CELLS],
    pub(crate) slots: [u16; SLOTS],
    pub(crate) near: [u16; NEAR],
    pub(crate) starts: [usize; STARTS],
    pub(crate) found: [u16; SLOTS],
}

// How many rows and texts there are.
#[derive(Clone, Copy)]
pub(crate) struct Counts {
    pub(crate) used: u16,
    pub(crate) texts: u16,
}

// A member or an element whose rest is still to come: its symbol, the row of its key's text, and its value's row. The symbol says whether there is such a text, so its row is no Option.
#[derive(Clone, Copy)]
pub(crate) struct Item {
    pub(crate) symbol: u16,
    pub(crate) key: Row,
    pub(crate) value: Row,
}

// What stands at a level before the first item.
pub(crate) const NO_ITEM: Item = Item {
    symbol: 0,
    key: Row(0),
    value: Row(0),
};

// The items that are open: at each level an entry for a key, and a frame; and behind each symbol a guess.
#[derive(Drop)]
pub(crate) struct Open {
    pub(crate) pending: [u16; LEVELS],
    pub(crate) frames: [Item; LEVELS],
    pub(crate) after: [u16; SYMBOLS],
}
