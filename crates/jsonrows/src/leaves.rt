// Values without parts: words, numbers and strings.
ghost use Rattle.std.specs.Prelude.{◌≡◌, ◌+◌, ◌<◌, ◌^◌, length};
ghost use Rattle.base.specs.Text.{word_at};
ghost use Rattle.jsontext.specs.Strings.{string_at};
ghost use Rattle.jsontext.specs.Number.{number_at, as_scalar};
ghost use Rattle.jsonrows.specs.Signature.{text_leaf};
ghost use Rattle.jsonrows.specs.Grammar.{after_word, after_text, after_number};
ghost use Rattle.jsonrows.specs.State.{built_of, Held, SaysOf};

use crate::rows::{Part, finish, leaf, leaf_of, settle};
use crate::tables::{Counts, Source, Tables};
use crate::texts::{glance, look_up, new_text, row_of, text_leaf};
use base::refusal::{Refusal, TextRefusal};
use base::text::{Fault, word_bytes};
use document::Scalar;
use document::index::Probed;
use document::near::near_row;
use document::scalar::{RATE, rate_payload};
use jsontext::number::{NumberRead, number};
use jsontext::shorts::short;
use jsontext::strings::read;

// The symbol of a number's leaf.
const NUMBER: u16 = 6;

// A word that says a scalar. Inlined where it is called: as a call of its own, its answer would come back through memory.
#[inline(always)]
pub(crate) fn word(
    source: &Source,
    tables: &mut Tables,
    counts: Counts,
    at: usize,
    letters: &[u8],
    symbol: u16,
    scalar: Scalar,
) -> Result<Part, TextRefusal>
    requires holds { Held source.now.text.now tables.old counts source.now.limit }
    requires fits { at + length letters.now < 2 ^ 64 }
    requires some { 0 < length letters.now }
    requires plain { symbol ≡ text_leaf → ⊥ }
    ensures { SaysOf source.now.text.now tables.old tables.new counts source.now.limit result (after_word source.now.limit symbol (built_of source.now.text.now tables.old counts) (word_at scalar letters.now source.now.text.now at)) }
{
    let n = word_bytes(source.text, at, letters);
    if n != letters.len() {
        return Err(TextRefusal {
            refusal: Refusal::JsonFault,
            place: at + n,
        });
    }
    finish(source, tables, counts, at + n, leaf(symbol, scalar))
}

// A number: a count, a rate, or one that has no form. Its row is tried near at hand in place, twice: so most numbers need no call.
pub(crate) fn number_leaf(
    source: &Source,
    tables: &mut Tables,
    counts: Counts,
    at: usize,
) -> Result<Part, TextRefusal>
    requires holds { Held source.now.text.now tables.old counts source.now.limit }
    ensures { SaysOf source.now.text.now tables.old tables.new counts source.now.limit result (after_number source.now.limit at (built_of source.now.text.now tables.old counts) (as_scalar (number_at source.now.text.now at))) }
{
    match number(source.text, source.classes, at) {
        Err(Fault(place)) => Err(TextRefusal {
            refusal: Refusal::JsonFault,
            place,
        }),
        Ok((NumberRead::Outside, _)) => Err(TextRefusal {
            refusal: Refusal::NumberForm,
            place: at,
        }),
        Ok((NumberRead::Counted(value), next)) => {
            let w = leaf(NUMBER, Scalar::Count(value));
            if let Some(row) = near_row(&tables.rows, &tables.near, counts.used, w) {
                return Ok(Part { row, next, counts });
            }
            settle(source, tables, counts, next, w)
        },
        Ok((NumberRead::Rated(bits), next)) => {
            let w = leaf_of(NUMBER, RATE, rate_payload(bits));
            if let Some(row) = near_row(&tables.rows, &tables.near, counts.used, w) {
                return Ok(Part { row, next, counts });
            }
            settle(source, tables, counts, next, w)
        },
    }
}

// A string as a value.
pub(crate) fn string_leaf(
    source: &Source,
    tables: &mut Tables,
    counts: Counts,
    at: usize,
) -> Result<Part, TextRefusal>
    requires holds { Held source.now.text.now tables.old counts source.now.limit }
    ensures { SaysOf source.now.text.now tables.old tables.new counts source.now.limit result (after_text source.now.limit (built_of source.now.text.now tables.old counts) (string_at source.now.text.now at)) }
{
    if let Some(s) = short(source.text, at) {
        let next = s.end + 1;
        match glance(source, &*tables, s.slot, at, s.end) {
            Probed::Found(k) => {
                let row = row_of(&tables.starts, k.0);
                return Ok(Part { row, next, counts });
            },
            Probed::Free(free) => return new_text(source, tables, counts, at, next, free),
            Probed::Crowded => {},
        }
    }
    match read(source.text, source.classes, at) {
        Err(Fault(place)) => Err(TextRefusal {
            refusal: Refusal::JsonFault,
            place,
        }),
        Ok((slot, next)) => {
            let probed = look_up(source, &*tables, slot, at);
            text_leaf(source, tables, counts, at, next, probed)
        },
    }
}
