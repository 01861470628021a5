// Texts that become leaves, numbered by first appearance after decoding: each is known by the place where it first stands, and an index finds it again.
ghost use Rattle.std.specs.Prelude.{◌≡◌, ◌+◌, ◌<◌, length, get_or};
ghost use Rattle.document.specs.Index.{probe};
ghost use Rattle.jsontext.specs.Strings.{string_at};
ghost use Rattle.jsontext.specs.Decoded.{same_text};
ghost use Rattle.jsontext.specs.Shorts.{ShortAt};
ghost use Rattle.jsonrows.specs.Grammar.{after_text};
ghost use Rattle.jsonrows.specs.State.{built_of, Held, SaysOf};
ghost use Rattle.jsonrows.specs.Texts.{ProbedAt};
ghost use Rattle.document.specs.declared.index.Probed.TheVariants.{Free, Crowded};

use crate::rows::{Part, leaf};
use crate::tables::{Counts, STARTS, Source, TEXTS, Tables};
use base::refusal::{Refusal, TextRefusal};
use document::Scalar;
use document::builder::Placed;
use document::fresh::add_new;
use document::hash::words_hash;
use document::index::{Probed, SLOTS, probe};
use document::rows::Row;
use jsontext::decoded::same;
use jsontext::shorts::same_bytes;

// The symbol of a text's leaf.
const TEXT: u16 = 7;

// The place where a text first stands, by its number; for a number that no text has, what stands there, or 0.
fn start_of(starts: &[usize; STARTS], k: u16) -> usize
    ensures { result ≡ get_or starts.now k 0 }
{
    starts.get(usize::from(k)).copied().unwrap_or(0)
}

// The row of a text's leaf.
pub(crate) fn row_of(starts: &[usize; STARTS], k: u16) -> Row
    requires size { length starts.now ≡ 2048 }
    requires numbered { (k < 1024) × (get_or starts.now (1024 + k) 0 < 65536) }
    ensures { result.0 ≡ get_or starts.now (1024 + k) 0 }
{
    Row(starts[TEXTS + usize::from(k)] as u16)
}

// Looks for the text of the string at a place, from its slot on: the number that is found is that of a text.
pub(crate) fn look_up(source: &Source, tables: &Tables, slot: u16, at: usize) -> Probed
    ensures { result ≡ probe tables.now.found (λ k. same_text (string_at source.now.text.now at) (string_at source.now.text.now (get_or tables.now.starts k 0))) slot }
{
    probe(&tables.found, usize::from(slot), |k| {
        same(
            source.text,
            source.classes,
            at,
            start_of(&tables.starts, k.0),
        )
    })
}

// What the first slot tells of the text of a short string: that it is this one, or that it is new. Crowded: neither, and it is to be looked up.
pub(crate) fn glance(source: &Source, tables: &Tables, slot: u16, at: usize, end: usize) -> Probed
    requires short { ShortAt source.now.text.now at slot end }
    ensures { (result ≡ Crowded → ⊥) → ProbedAt source.now.text.now tables.now.starts tables.now.found at (end + 1) result }
{
    let i = usize::from(slot) % SLOTS;
    let held = tables.found[i];
    if held == 0 {
        return Probed::Free(i);
    }
    if same_bytes(
        source.text,
        at,
        start_of(&tables.starts, held - 1),
        end + 1 - at,
    ) {
        return Probed::Found(Row(held - 1));
    }
    Probed::Crowded
}

// The leaf of a text that is new: it gets the next number.
pub(crate) fn new_text(
    source: &Source,
    tables: &mut Tables,
    counts: Counts,
    at: usize,
    next: usize,
    free: usize,
) -> Result<Part, TextRefusal>
    requires holds { Held source.now.text.now tables.old counts source.now.limit }
    requires behind { 0 < next }
    requires new { ProbedAt source.now.text.now tables.old.starts tables.old.found at next (Free free) }
    ensures { SaysOf source.now.text.now tables.old tables.new counts source.now.limit result (after_text source.now.limit (built_of source.now.text.now tables.old counts) (string_at source.now.text.now at)) }
{
    let w = leaf(TEXT, Scalar::Name(u32::from(counts.texts)));
    match add_new(
        &mut tables.rows,
        &mut tables.slots,
        counts.used,
        source.limit,
        words_hash(w.a, w.b, w.c),
        w,
    ) {
        Placed::Added(row) => {
            let k = usize::from(counts.texts);
            tables.starts[k] = at;
            tables.starts[TEXTS + k] = usize::from(counts.used);
            tables.found[free] = counts.texts + 1;
            Ok(Part {
                row,
                next,
                counts: Counts {
                    used: counts.used + 1,
                    texts: counts.texts + 1,
                },
            })
        },
        Placed::Known(_) | Placed::Full => Err(TextRefusal {
            refusal: Refusal::TextRows,
            place: next - 1,
        }),
    }
}

// The leaf of the text of a whole string, by what the probe for it found.
pub(crate) fn text_leaf(
    source: &Source,
    tables: &mut Tables,
    counts: Counts,
    at: usize,
    next: usize,
    probed: Probed,
) -> Result<Part, TextRefusal>
    requires holds { Held source.now.text.now tables.old counts source.now.limit }
    requires behind { 0 < next }
    requires whole { ProbedAt source.now.text.now tables.old.starts tables.old.found at next probed }
    ensures { SaysOf source.now.text.now tables.old tables.new counts source.now.limit result (after_text source.now.limit (built_of source.now.text.now tables.old counts) (string_at source.now.text.now at)) }
{
    match probed {
        Probed::Found(k) => Ok(Part {
            row: row_of(&tables.starts, k.0),
            next,
            counts,
        }),
        Probed::Free(free) => new_text(source, tables, counts, at, next, free),
        Probed::Crowded => Err(TextRefusal {
            refusal: Refusal::TextRows,
            place: next - 1,
        }),
    }
}
