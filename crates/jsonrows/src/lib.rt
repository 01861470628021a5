// The reader of JSON text (document 02, Wish 1).
#![tactic(auto)]

mod tables; // tables.rt: what is read, and what it is read into
mod rows; // rows.rt: rows of what was read
mod keys; // keys.rt: the key list, and the lookup of a key
mod texts; // texts.rt: texts by number
mod frames; // frames.rt: members and elements whose rest is still to come
mod leaves; // leaves.rt: words, numbers and strings
mod members; // members.rt: the keys of an object
mod reader; // reader.rt: values, members and elements

ghost use Rattle.std.specs.Prelude.{◌≡◌, ◌/◌, min, length};
ghost use Rattle.model.specs.Limits.{max_rows, max_levels};
ghost use Rattle.document.specs.Rows.{row_cells};
ghost use Rattle.jsonrows.specs.Read.{read_text, setting_for, read_of, reading_map};
ghost use Rattle.jsonrows.specs.Answer.{read_answer, space_after, Answers};

use base::limits::MAX_ROWS;
use base::refusal::{Refusal, TextRefusal};
use base::space::put;
use classes::class_table;
use document::index::SLOTS;
use document::near::NEAR;
use document::rows::{ROW_CELLS, count};
use document::words::CELLS;
use jsontext::spaces::space_end;
use keys::{LINES, NO_LINE, fill_keys};
use reader::items;
use tables::{Counts, LEVELS, NO_ITEM, Open, STARTS, SYMBOLS, Source, Tables};

// The most rows: as many as a table has, and as fit into the space.
fn row_limit(rows: &[u16]) -> u16
    ensures { result ≡ min max_rows (length rows.now / row_cells) }
{
    usize::from(MAX_ROWS).min(count(rows)) as u16
}

// Behind each key the next on the list is guessed first: lists often have the keys in the order of the texts.
fn guess_next(after: &mut [u16; SYMBOLS]) {
    for i in 0..SYMBOLS as u16 {
        after[usize::from(i)] = i + 1;
    }
}

// A text by a key list that fits. The rows are built in local cells, and copied where the text is whole.
fn read_text(source: &Source, rows: &mut [u16]) -> Result<u16, TextRefusal>
    requires { source.now.limit ≡ min max_rows (length rows.old / row_cells) }
    ensures { Answers (read_text max_levels (setting_for source.now.list.now (length rows.old)) source.now.text.now) result rows.old rows.new }
{
    let mut tables = Tables {
        rows: [0u16; CELLS],
        slots: [0u16; SLOTS],
        near: [0u16; NEAR],
        starts: [0usize; STARTS],
        found: [0u16; SLOTS],
    };
    let mut opened = Open {
        pending: [0u16; LEVELS],
        frames: [NO_ITEM; LEVELS],
        after: [0u16; SYMBOLS],
    };
    guess_next(&mut opened.after);
    let none = Counts { used: 0, texts: 0 };
    let first = space_end(source.text, source.classes, 0);
    let part = items(
        source,
        &mut tables,
        &mut opened,
        none,
        LEVELS,
        first,
        false,
        true,
    )?;
    let end = space_end(source.text, source.classes, part.next);
    if end != source.text.len() {
        return Err(TextRefusal {
            refusal: Refusal::JsonFault,
            place: end,
        });
    }
    put(
        &mut *rows,
        0,
        &tables.rows[..usize::from(part.counts.used) * ROW_CELLS],
    );
    Ok(part.counts.used)
}

// Reads a text into rows by a list of keys: the list (74), then the text (64, 67, 71 to 73). A refusal writes nothing.
pub fn read(keys: &[u8], text: &[u8], rows: &mut [u16]) -> Result<u16, TextRefusal>
    ensures answer { read_answer result ≡ reading_map length (read_of keys.now text.now (length rows.old)) }
    ensures space { rows.new ≡ space_after (read_of keys.now text.now (length rows.old)) rows.old }
{
    let classes = class_table();
    let mut places = [NO_LINE; LINES];
    let mut key_slots = [0u16; SLOTS];
    if fill_keys(keys, &mut places, &mut key_slots) {
        let source = Source {
            text,
            classes: &classes,
            list: keys,
            places: &places,
            key_slots: &key_slots,
            limit: row_limit(&*rows),
        };
        return read_text(&source, rows);
    }
    Err(TextRefusal {
        refusal: Refusal::KeyList,
        place: 0,
    })
}
