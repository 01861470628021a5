// Term text: the writer of a row table as a text.
#![tactic(auto)]

mod lengths; // lengths.rt: how long the text is, row by row
pub mod number; // number.rt: a number in decimal
mod piece; // piece.rt: the text of a scalar
mod writer; // writer.rt: terms and argument lists

ghost use Rattle.std.specs.Prelude.{◌≡◌, ◌-◌, length};
ghost use Rattle.model.specs.Refusal.{answer_map};
ghost use Rattle.names.specs.Table.{name_in};
ghost use Rattle.document.specs.Check.{row_count};
ghost use Rattle.spelling.specs.Rows.{SoundCells, row_text};
ghost use Rattle.spelling.specs.Write.{fitted, write_of, write_answer, space_after, Answers};

use automaton::header;
use base::refusal::Refusal;
use document::rows::{Row, count};
use lengths::text_length;
use names::table::{TABLE, fill};
use writer::term;

// The text of a sound table by the names of a filled table. The length is known before the first byte is written.
fn write_text(rows: &[u16], names: &[u8], text: &mut [u8]) -> Result<usize, Refusal>
    requires { SoundCells rows.now }
    ensures { Answers (fitted (length text.old) (row_text (name_in names.now) rows.now (row_count rows.now - 1))) result text.old text.new }
{
    if text_length(rows, names, text.len()).is_none() {
        return Err(Refusal::TextSpace);
    }
    let last = count(rows) - 1;
    Ok(term(rows, names, Row(last as u16), text, 0))
}

// Writes a table as text: set (1 to 7), names (61, 62), table (11 to 17), space (68). A refusal writes nothing.
pub fn write<'a>(
    set: &[u8],
    site: &'a [u8],
    built_in: &'a [u8],
    rows: &[u16],
    text: &mut [u8],
) -> Result<usize, Refusal>
    ensures answer { write_answer result ≡ answer_map length (write_of set.now site.now built_in.now rows.now (length text.old)) }
    ensures space { text.new ≡ space_after (write_of set.now site.now built_in.now rows.now (length text.old)) text.old }
{
    automaton::check(set)?;
    names::check(header(set).symbols, site, built_in)?;
    document::check(set, rows)?;
    let mut table = [0u8; TABLE];
    fill(&mut table, site, built_in);
    write_text(rows, &table, text)
}
