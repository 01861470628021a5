// Rows of what was read: each is looked for among the rows so far, and added where it is new.
ghost use Rattle.std.specs.Prelude.{◌≡◌, [], ◌∷◌, ◌++◌, ◌<◌};
ghost use Rattle.model.specs.Table as table;
ghost use Rattle.document.specs.declared.scalar.Scalar.{Scalar};
ghost use Rattle.document.specs.Scalars.{kind_of, payload_of};
ghost use Rattle.document.specs.Rows.{encode_row};
ghost use Rattle.document.specs.Hash.{row_hash};
ghost use Rattle.document.specs.Words.{Words};
ghost use Rattle.jsonrows.specs.Signature.{other, text_leaf};
ghost use Rattle.jsonrows.specs.Grammar.{leaf_row, node_row, finish, close_at};
ghost use Rattle.jsonrows.specs.Items.{mark_of, leaf_of};
ghost use Rattle.jsonrows.specs.State.{key_rows, built_of, Held, Old, SaysOf, part_after};

use crate::tables::{Counts, Item, Source, Tables};
use base::limits::UNUSED;
use base::refusal::{Refusal, TextRefusal};
use base::text::byte_at;
use document::builder::Placed;
use document::fresh::add_new;
use document::hash::node_hash;
use document::near::{near_row, place_row};
use document::rows::Row;
use document::words::{RowWords, low_cell, word};
use document::{Scalar, scalar};

// What one cell holds, and what two do.
const CELL: u64 = 65536;

const TWO_CELLS: u64 = 4294967296;

// The symbols that close an object and an array: numbers, as the cells of a row hold them, and so are all others.
pub(crate) const END: u16 = 0;

const STOP: u16 = 1;

// The symbol of an unlisted key.
pub(crate) const OTHER: u16 = 2;

// What was read: its row, the place after it, and the counts then.
#[derive(Clone, Copy)]
pub(crate) struct Part {
    pub(crate) row: Row,
    pub(crate) next: usize,
    pub(crate) counts: Counts,
}

// A row without children, by the kind and the payload of its scalar.
pub(crate) fn leaf_of(symbol: u16, kind: u16, payload: u64) -> RowWords
    ensures { (scalar : Scalar) → kind ≡ kind_of scalar → payload ≡ payload_of scalar → Words (leaf_row symbol scalar) result.a result.b result.c }
{
    RowWords {
        a: word(symbol, UNUSED, UNUSED, UNUSED),
        b: word(UNUSED, kind, low_cell(payload), low_cell(payload / CELL)),
        c: payload / TWO_CELLS,
    }
}

// A row without children.
pub(crate) fn leaf(symbol: u16, scalar: Scalar) -> RowWords
    ensures { Words (leaf_row symbol scalar) result.a result.b result.c }
{
    leaf_of(symbol, scalar::kind(scalar), scalar::payload(scalar))
}

// The row of a member or an element: its value and its rest, behind the text of a key that is not listed.
fn node(item: Item, rest: Row) -> RowWords
    requires { (item.key.0 < 65535) × (item.value.0 < 65535) × (rest.0 < 65535) }
    ensures { Words (node_row item.symbol ((key_rows item.symbol item.key.0 ++ item.value.0 ∷ []) ++ rest.0 ∷ [])) result.a result.b result.c }
{
    let b = word(UNUSED, 0, 0, 0);
    if item.symbol == OTHER {
        let a = word(item.symbol, item.key.0, item.value.0, rest.0);
        return RowWords { a, b, c: 0 };
    }
    let a = word(item.symbol, item.value.0, rest.0, UNUSED);
    RowWords { a, b, c: 0 }
}

// The hash of that row.
fn hash_of(item: Item, rest: Row) -> u32
    ensures { result ≡ row_hash (encode_row (node_row item.symbol ((key_rows item.symbol item.key.0 ++ item.value.0 ∷ []) ++ rest.0 ∷ []))) }
{
    if item.symbol == OTHER {
        return node_hash(item.symbol, item.key.0, item.value.0, rest.0);
    }
    node_hash(item.symbol, item.value.0, rest.0, UNUSED)
}

// What becomes of a row that ends before `next`, by the builder's answer.
fn part_after(placed: Placed, next: usize, counts: Counts) -> Result<Part, TextRefusal>
    requires { (0 < next) × (counts.used < 65535) }
    ensures { result ≡ part_after next counts.used counts.texts placed }
{
    match placed {
        Placed::Known(row) => Ok(Part { row, next, counts }),
        Placed::Added(row) => Ok(Part {
            row,
            next,
            counts: Counts {
                used: counts.used + 1,
                texts: counts.texts,
            },
        }),
        Placed::Full => Err(TextRefusal {
            refusal: Refusal::TextRows,
            place: next - 1,
        }),
    }
}

// The row of the words, which is not that of a text still to come, is finished before `next`: it is looked up.
pub(crate) fn settle(
    source: &Source,
    tables: &mut Tables,
    counts: Counts,
    next: usize,
    w: RowWords,
) -> Result<Part, TextRefusal>
    requires holds { Held source.now.text.now tables.old counts source.now.limit }
    requires behind { 0 < next }
    ensures { (x : table.Row) → Words x w.a w.b w.c → Old counts.used counts.texts x → SaysOf source.now.text.now tables.old tables.new counts source.now.limit result (finish source.now.limit x next (built_of source.now.text.now tables.old counts)) }
{
    let placed = place_row(
        &mut tables.rows,
        &mut tables.slots,
        &mut tables.near,
        counts.used,
        source.limit,
        w,
    );
    part_after(placed, next, counts)
}

// The row of the words, which is not that of a text still to come, is finished before `next`: it is near at hand, or looked up.
pub(crate) fn finish(
    source: &Source,
    tables: &mut Tables,
    counts: Counts,
    next: usize,
    w: RowWords,
) -> Result<Part, TextRefusal>
    requires holds { Held source.now.text.now tables.old counts source.now.limit }
    requires behind { 0 < next }
    ensures { (x : table.Row) → Words x w.a w.b w.c → Old counts.used counts.texts x → SaysOf source.now.text.now tables.old tables.new counts source.now.limit result (finish source.now.limit x next (built_of source.now.text.now tables.old counts)) }
{
    if let Some(row) = near_row(&tables.rows, &tables.near, counts.used, w) {
        return Ok(Part { row, next, counts });
    }
    settle(source, tables, counts, next, w)
}

// The row of a member or an element, whose rest is read too. Over the last row it is new, since no row below has that one as a child.
pub(crate) fn join(
    source: &Source,
    tables: &mut Tables,
    item: Item,
    rest: Part,
) -> Result<Part, TextRefusal>
    requires holds { Held source.now.text.now tables.old rest.counts source.now.limit }
    requires behind { 0 < rest.next }
    requires plain { item.symbol ≡ text_leaf → ⊥ }
    requires inside { (item.key.0 < 65535) × (item.value.0 < rest.counts.used) × (rest.row.0 < rest.counts.used) }
    requires own { item.symbol ≡ other → item.key.0 < rest.counts.used }
    ensures { SaysOf source.now.text.now tables.old tables.new rest.counts source.now.limit result (finish source.now.limit (node_row item.symbol ((key_rows item.symbol item.key.0 ++ item.value.0 ∷ []) ++ rest.row.0 ∷ [])) rest.next (built_of source.now.text.now tables.old rest.counts)) }
{
    let counts = rest.counts;
    let w = node(item, rest.row);
    if (item.value.0 + 1 == counts.used) | (rest.row.0 + 1 == counts.used) {
        let placed = add_new(
            &mut tables.rows,
            &mut tables.slots,
            counts.used,
            source.limit,
            hash_of(item, rest.row),
            w,
        );
        return part_after(placed, rest.next, counts);
    }
    finish(source, tables, counts, rest.next, w)
}

// What closes an object or an array.
pub(crate) fn mark(object: bool) -> u8
    ensures { (result ≡ mark_of object) × (0 < result) }
{
    if object { b'}' } else { b']' }
}

fn closing(object: bool) -> u16
    ensures { (result ≡ leaf_of object) × (result < 2) }
{
    if object { END } else { STOP }
}

// The closing mark of an object or an array, and its leaf.
pub(crate) fn close(
    source: &Source,
    tables: &mut Tables,
    counts: Counts,
    at: usize,
    object: bool,
) -> Result<Part, TextRefusal>
    requires holds { Held source.now.text.now tables.old counts source.now.limit }
    ensures { SaysOf source.now.text.now tables.old tables.new counts source.now.limit result (close_at source.now.limit source.now.text.now (mark_of object) (leaf_of object) at (built_of source.now.text.now tables.old counts)) }
{
    if byte_at(source.text, at) != mark(object) {
        return Err(TextRefusal {
            refusal: Refusal::JsonFault,
            place: at,
        });
    }
    finish(
        source,
        tables,
        counts,
        at + 1,
        leaf(closing(object), Scalar::Bare),
    )
}
