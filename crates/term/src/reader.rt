// Terms and argument lists: the two readers call each other, the level falling; siblings are a loop.
ghost use Rattle.std.specs.Prelude.{◌≡◌, true, List, ℕ, ◌-◌, length, Err};
ghost use Rattle.std.proofs.Math.Option.{Option};
ghost use Rattle.model.specs.Automaton.{arity_of};
ghost use Rattle.automaton.specs.Stored.{decode};
ghost use Rattle.document.specs.Rows.{rows_below};
ghost use Rattle.document.specs.Scalars.{kind_of, payload_of};
ghost use Rattle.names.specs.Names.{letter?, find_in};
ghost use Rattle.names.specs.Table.{name_in};
ghost use Rattle.term.specs.Scan.{byte_at, name_at, scalar, scalar_at};
ghost use Rattle.term.specs.Grammar.{row_of, end_term, after_args, after_scalar, read_args, symbol_of, read_term};
ghost use Rattle.term.specs.State.{setting_of, Ready, childless, with_child, Held, Says, named_of};

use crate::input::Source;
use crate::scan::{name_bytes, scalar_at};
use automaton::arity;
use base::limits::{PLACES, UNUSED};
use base::refusal::{Refusal, TextRefusal};
use base::text::{Fault, byte_at};
use classes::is_letter;
use document::Scalar;
use document::builder::{Placed, find_or_add};
use document::fields::RowFields;
use document::index::SLOTS;
use document::rows::Row;
use names::lines::MAX_NAME;
use names::table::find;

// A term that was read: its row, the place after it and the rows so far.
#[derive(Clone, Copy)]
pub(crate) struct TermEnd {
    pub(crate) row: Row,
    pub(crate) next: usize,
    pub(crate) used: u16,
}

// A refusal with its place.
pub(crate) fn refused<T>(refusal: Refusal, place: usize) -> Result<T, TextRefusal>
    ensures { result ≡ Err (record { refusal = refusal; place = place }) }
{
    Err(TextRefusal { refusal, place })
}

// The symbol that is named at a place, where a letter stands, and the place after its name.
fn symbol_at(source: &Source, at: usize) -> Result<(u16, usize), TextRefusal>
    requires { letter? (byte_at source.now.text.now at) ≡ true }
    ensures { named_of result ≡ symbol_of (find_in source.now.symbols (name_in source.now.names.now)) at (name_at source.now.text.now at) }
{
    let n = name_bytes(source, at);
    if n > MAX_NAME {
        return refused(Refusal::TextFault, at + MAX_NAME);
    }
    let end = at + n;
    match find(source.names, source.symbols, &source.text[at..end]) {
        Some(s) => Ok((s, end)),
        None => refused(Refusal::NameUnknown, at),
    }
}

// The term that began at `at` ends before `next`: its row is looked for, and added where it is new.
fn end_term(
    source: &Source,
    rows: &mut [u16],
    slots: &mut [u16; SLOTS],
    used: u16,
    at: usize,
    next: usize,
    count: usize,
    fields: RowFields,
) -> Result<TermEnd, TextRefusal>
    requires { Ready rows.old slots.old used source.now.limit }
    ensures { (js : List ℕ) → Held js count fields.places → Says rows.new slots.new source.now.limit result (end_term (arity_of (decode source.now.set.now)) source.now.limit at (row_of fields.symbol (scalar (kind_of fields.scalar) (payload_of fields.scalar)) js) next (rows_below rows.old used)) }
{
    if count != usize::from(arity(source.set, fields.symbol)) {
        return refused(Refusal::TermChildren, at);
    }
    match find_or_add(rows, slots, used, source.limit, fields) {
        Placed::Known(row) => Ok(TermEnd { row, next, used }),
        Placed::Added(row) => Ok(TermEnd {
            row,
            next,
            used: used + 1,
        }),
        Placed::Full => refused(Refusal::TextRows, at),
    }
}

// A row by value without children.
fn no_children(symbol: u16, value: Scalar) -> RowFields
    ensures { result ≡ childless symbol value }
{
    RowFields {
        symbol,
        places: [Row(UNUSED); PLACES],
        scalar: value,
    }
}

// A row by value with row j as child k; past the last place the places stay as they are.
fn with_child(fields: RowFields, k: usize, j: Row) -> RowFields
    ensures { result ≡ with_child fields k j }
{
    if k >= PLACES {
        return fields;
    }
    let mut places = fields.places;
    places[k] = j;
    let scalar = fields.scalar;
    RowFields {
        symbol: fields.symbol,
        places,
        scalar,
    }
}

// A term without children: the scalar behind its name, then its end.
fn leaf(
    source: &Source,
    rows: &mut [u16],
    slots: &mut [u16; SLOTS],
    used: u16,
    at: usize,
    symbol: u16,
    end: usize,
) -> Result<TermEnd, TextRefusal>
    requires { Ready rows.old slots.old used source.now.limit }
    ensures { (find : List ℕ → Option ℕ) → Says rows.new slots.new source.now.limit result (after_scalar (record { symbol = find; arity = arity_of (decode source.now.set.now); limit = source.now.limit }) at symbol (rows_below rows.old used) (scalar_at source.now.text.now end)) }
{
    match scalar_at(source, end) {
        Ok((s, next)) => {
            let fields = no_children(symbol, s);
            end_term(source, rows, slots, used, at, next, 0, fields)
        },
        Err(Fault(p)) => refused(Refusal::TextFault, p),
    }
}

// The term at a place, of at most so many levels.
#[cycle(arguments_term)]
pub(crate) fn term(
    source: &Source,
    rows: &mut [u16],
    slots: &mut [u16; SLOTS],
    used: u16,
    level: usize,
    at: usize,
) -> Result<TermEnd, TextRefusal>
    requires { Ready rows.old slots.old used source.now.limit }
    ensures { Says rows.new slots.new source.now.limit result (read_term (setting_of source.now.set.now source.now.names.now source.now.symbols source.now.limit) source.now.text.now level at (rows_below rows.old used)) }
{
    if !is_letter(source.classes, byte_at(source.text, at)) {
        return refused(Refusal::TextFault, at);
    }
    if level == 0 {
        return refused(Refusal::TextLevel, at);
    }
    let (s, end) = symbol_at(source, at)?;
    if byte_at(source.text, end) != b'(' {
        return leaf(source, rows, slots, used, at, s, end);
    }
    arguments(source, rows, slots, used, level - 1, end + 1, at, s)
}

// An argument list after its bracket, then the end of its term, which began at `first`: one turn of the loop for each child.
#[cycle(arguments_term)]
fn arguments(
    source: &Source,
    rows: &mut [u16],
    slots: &mut [u16; SLOTS],
    used: u16,
    level: usize,
    start: usize,
    first: usize,
    symbol: u16,
) -> Result<TermEnd, TextRefusal>
    requires { Ready rows.old slots.old used source.now.limit }
    ensures { Says rows.new slots.new source.now.limit result (after_args (setting_of source.now.set.now source.now.names.now source.now.symbols source.now.limit) first symbol (read_args (read_term (setting_of source.now.set.now source.now.names.now source.now.symbols source.now.limit) source.now.text.now level) source.now.text.now (length source.now.text.now - start) start (rows_below rows.old used))) }
{
    let mut at = start;
    let mut known = used;
    let mut count = 0;
    let mut fields = no_children(symbol, Scalar::Bare);
    loop {
        let child = term(source, &mut *rows, &mut *slots, known, level, at)?;
        fields = with_child(fields, count, child.row);
        count += 1;
        known = child.used;
        let b = byte_at(source.text, child.next);
        if b == b')' {
            return end_term(
                source,
                rows,
                slots,
                known,
                first,
                child.next + 1,
                count,
                fields,
            );
        }
        if b != b',' {
            return refused(Refusal::TextFault, child.next);
        }
        at = child.next + 1;
    }
}
