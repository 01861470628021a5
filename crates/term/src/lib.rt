// Term text: the reader of a text into a row table.
#![tactic(auto)]

ghost use Rattle.std.specs.Prelude.{◌≡◌, ◌/◌, min, length};
ghost use Rattle.model.specs.Limits.{max_rows};
ghost use Rattle.automaton.specs.Stored.{decode};
ghost use Rattle.automaton.specs.Check.{check_of};
ghost use Rattle.document.specs.Rows.{row_cells};
ghost use Rattle.term.specs.State.{setting_of};
ghost use Rattle.term.specs.Read.{read_text, read_of, reading_map, read_answer, space_after, Answers};

use automaton::{check, header};
use base::limits::{MAX_LEVELS, MAX_ROWS};
use base::refusal::{Refusal, TextRefusal};
use base::space::put;
use classes::class_table;
use document::index::SLOTS;
use document::rows::{ROW_CELLS, count};
use input::Source;
use names::table::{TABLE, fill};
use reader::{refused, term};

mod input; // input.rt: what is read, and against what
mod reader; // reader.rt: terms and argument lists
mod scan; // scan.rt: names and scalars at a place

// The cells of as many rows as a table has.
const CELLS: usize = MAX_ROWS as usize * ROW_CELLS;

// The most rows: as many as a table has, and as fit into the space.
fn row_limit(rows: &[u16]) -> u16
    ensures { result ≡ min max_rows (length rows.now / row_cells) }
{
    usize::from(MAX_ROWS).min(count(rows)) as u16
}

// A text against a sound set and a table of its symbols' names. The rows are built in local cells, and copied where the text is whole.
fn read_text(
    set: &[u8],
    names: &[u8],
    symbols: u16,
    text: &[u8],
    rows: &mut [u16],
) -> Result<u16, TextRefusal>
    requires sound { check_of set.now ≡ 0 }
    requires counted { symbols ≡ length (decode set.now).arities }
    ensures { Answers (read_text (setting_of set.now names.now symbols (min max_rows (length rows.old / row_cells))) text.now) result rows.old rows.new }
{
    let mut cells = [0u16; CELLS];
    let mut slots = [0u16; SLOTS];
    let classes = class_table();
    let source = Source {
        text,
        classes: &classes,
        set,
        names,
        symbols,
        limit: row_limit(&*rows),
    };
    let whole = term(&source, &mut cells, &mut slots, 0, MAX_LEVELS as usize, 0)?;
    if whole.next != text.len() {
        return refused(Refusal::TextFault, whole.next);
    }
    put(rows, 0, &cells[..usize::from(whole.used) * ROW_CELLS]);
    Ok(whole.used)
}

// Reads a text into rows: set (1 to 7), names (61, 62), text (63 to 67). A refusal writes nothing.
pub fn read<'a>(
    set: &[u8],
    site: &'a [u8],
    built_in: &'a [u8],
    text: &[u8],
    rows: &mut [u16],
) -> Result<u16, TextRefusal>
    ensures answer { read_answer result ≡ reading_map length (read_of set.now site.now built_in.now text.now (length rows.old)) }
    ensures space { rows.new ≡ space_after (read_of set.now site.now built_in.now text.now (length rows.old)) rows.old }
{
    check(set)?;
    let symbols = header(set).symbols;
    names::check(symbols, site, built_in)?;
    let mut table = [0u8; TABLE];
    fill(&mut table, site, built_in);
    read_text(set, &table, symbols, text, rows)
}
