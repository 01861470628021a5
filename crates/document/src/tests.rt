// The four tests of a table of lent rows: its form (11 to 14), equal rows (15), unused rows (16), its height (17).
ghost use Rattle.std.specs.Prelude.{◌≡◌, false, ◌-◌, ◌<◌, ◌≤◌, T, length, get_or, is_some, IfSome, IfOk};
ghost use Rattle.model.specs.Limits.{max_children, max_rows};
ghost use Rattle.model.specs.Lists.{all_below, larger};
ghost use Rattle.model.specs.Tree.{levels};
ghost use Rattle.model.specs.Table.{tree_of, scalar?, Lower};
ghost use Rattle.automaton.specs.Stored.{decode};
ghost use Rattle.base.specs.Refusals.{refused_by};
ghost use Rattle.automaton.specs.Check.{check_of};
ghost use Rattle.document.specs.Rows.{row_in, decode_rows};
ghost use Rattle.document.specs.Index.{probe};
ghost use Rattle.document.specs.Check.{row_count, counted?, known?, place?, child?, children?, scalar_for?, scalar_fits?, form_check_of, fresh?, distinct_check_of, used?, used_check_of, levels_check_of, table_check_of};
ghost use Rattle.document.specs.Marks.{AllScalars, same_as, start_of, highest_of};

use crate::fields::cells_of;
use crate::index::{Probed, SLOTS, look_up, start_slot};
use crate::marks::{all_marked, mark};
use crate::rows::{ROW_CELLS, Row, count, fields_at, kind, payload, place, places_of, symbol};
use crate::scalar::from_cells;
use automaton::{arity, header};
use base::limits::{MAX_CHILDREN, MAX_LEVELS, MAX_ROWS, UNUSED};
use base::refusal::Refusal;

// The length of a scratch over all rows.
const ROWS: usize = MAX_ROWS as usize;

// 12 at row i.
fn symbol_known(set: &[u8], rows: &[u16], i: Row) -> bool
    ensures { result ≡ known? (decode set.now) rows.now i.0 }
{
    let h = header(set);
    symbol(rows, i) < h.symbols
}

fn place_fits(in_use: bool, i: Row, x: Row) -> bool
    ensures { result ≡ place? in_use i.0 x.0 }
{
    if in_use { x.0 < i.0 } else { x.0 == UNUSED }
}

fn child_fits(rows: &[u16], i: Row, arity: u16, k: u16) -> bool
    ensures { result ≡ child? rows.now i.0 arity k }
{
    place_fits(k < arity, i, place(rows, i, k))
}

fn places_fit(rows: &[u16], i: Row, arity: u16) -> bool
    ensures { result ≡ all_below max_children (child? rows.now i.0 arity) }
{
    (0..MAX_CHILDREN).all(|k| child_fits(rows, i, arity, k))
}

// 13 at row i.
fn children_fit(set: &[u8], rows: &[u16], i: Row) -> bool
    ensures { result ≡ children? (decode set.now) rows.now i.0 }
{
    let a = arity(set, symbol(rows, i));
    places_fit(rows, i, a)
}

fn is_scalar(kind: u16, payload: u64) -> bool
    ensures { result ≡ scalar? kind payload }
{
    from_cells(kind, payload).is_some()
}

fn fits_arity(arity: u16, kind: u16, payload: u64) -> bool
    ensures { result ≡ scalar_for? arity kind payload }
{
    if arity == 0 {
        return is_scalar(kind, payload);
    }
    (kind == 0) & (payload == 0)
}

// 14 at row i.
fn scalar_fits(set: &[u8], rows: &[u16], i: Row) -> bool
    ensures { result ≡ scalar_fits? (decode set.now) rows.now i.0 }
{
    let a = arity(set, symbol(rows, i));
    fits_arity(a, kind(rows, i), payload(rows, i))
}

// Looks for row j among the rows that the slots index.
fn probe_row(rows: &[u16], slots: &[u16; SLOTS], j: Row) -> Probed
    requires { T (scalar? (row_in rows.now j.0).kind (row_in rows.now j.0).payload) }
    ensures { result ≡ probe slots.now (same_as rows.now j.0) (start_of rows.now j.0) }
{
    let f = fields_at(rows, j);
    look_up(rows, slots, start_slot(cells_of(f)), f)
}

fn height_at(heights: &[u16], c: Row) -> u16
    ensures { result ≡ get_or heights.now c.0 0 }
{
    heights.get(usize::from(c.0)).copied().unwrap_or(0)
}

// The height of row i's highest child, 0 where it has none.
fn highest_child(rows: &[u16], heights: &[u16], i: Row) -> u16
    ensures { result ≡ highest_of heights.now (row_in rows.now i.0).children }
{
    let mut h = 0;
    for k in 0..MAX_CHILDREN {
        let c = place(rows, i, k);
        if c.0 == UNUSED {
            return h;
        }
        h = h.max(height_at(heights, c));
    }
    h
}

// Rows that passed 11, and how many they are.
#[derive(Clone, Copy)]
struct WholeRows<'a> {
    rows: &'a [u16],
    n: u16,
    ghost counted: { n ≡ row_count rows.now },
    ghost some: { 0 < n },
    ghost few: { n ≤ max_rows },
}

impl<'a> WholeRows<'a> {
    // 11: 1 to 1,024 rows, none cut short.
    fn counted(rows: &'a [u16]) -> Option<WholeRows<'a>>
        ensures told { is_some result ≡ counted? rows.now }
        ensures same { IfSome result (λ whole. whole.rows.now ≡ rows.now) }
    {
        let n = count(rows);
        if (1 <= n) & ((n <= ROWS) & (rows.len() % ROW_CELLS == 0)) {
            return Some(WholeRows { rows, n: n as u16 });
        }
        None
    }

    fn symbols_known(&self, set: &[u8]) -> bool
        ensures { result ≡ all_below (row_count self.now.rows.now) (known? (decode set.now) self.now.rows.now) }
    {
        let rows = self.rows;
        (0..self.n).all(|i| symbol_known(set, rows, Row(i)))
    }

    fn all_children_fit(&self, set: &[u8]) -> bool
        ensures { result ≡ all_below (row_count self.now.rows.now) (children? (decode set.now) self.now.rows.now) }
    {
        let rows = self.rows;
        (0..self.n).all(|i| children_fit(set, rows, Row(i)))
    }

    fn all_scalars_fit(&self, set: &[u8]) -> bool
        ensures { result ≡ all_below (row_count self.now.rows.now) (scalar_fits? (decode set.now) self.now.rows.now) }
    {
        let rows = self.rows;
        (0..self.n).all(|i| scalar_fits(set, rows, Row(i)))
    }

    // 11 to 14: the form of the rows, each by itself.
    fn formed(set: &[u8], rows: &'a [u16]) -> Result<WholeRows<'a>, Refusal>
        ensures told { refused_by result ≡ form_check_of (decode set.now) rows.now }
        ensures same { IfOk result (λ whole. whole.rows.now ≡ rows.now) }
    {
        let Some(whole) = WholeRows::counted(rows) else {
            return Err(Refusal::TableLength);
        };
        if !whole.symbols_known(set) {
            return Err(Refusal::RowSymbol);
        }
        if !whole.all_children_fit(set) {
            return Err(Refusal::RowChildren);
        }
        if !whole.all_scalars_fit(set) {
            return Err(Refusal::RowScalar);
        }
        Ok(whole)
    }

    // 15: each row is looked for among the earlier ones, then entered.
    fn all_distinct(&self) -> bool
        requires { AllScalars self.now.rows.now self.now.n }
        ensures { result ≡ all_below (length (decode_rows self.now.rows.now)) (fresh? (decode_rows self.now.rows.now)) }
    {
        let mut slots = [0u16; SLOTS];
        for j in 0..self.n {
            match probe_row(self.rows, &slots, Row(j)) {
                Probed::Found(_) => return false,
                Probed::Free(t) => slots[t] = j + 1,
                Probed::Crowded => return false,
            }
        }
        true
    }

    // 15.
    fn distinct(&self) -> Result<(), Refusal>
        requires { AllScalars self.now.rows.now self.now.n }
        ensures { refused_by result ≡ distinct_check_of (decode_rows self.now.rows.now) }
    {
        if self.all_distinct() {
            Ok(())
        } else {
            Err(Refusal::RowsEqual)
        }
    }

    // 16: one pass marks the children of every row, then every row but the last must be marked.
    fn all_used(&self) -> bool
        ensures { result ≡ all_below (length (decode_rows self.now.rows.now) - 1) (used? (decode_rows self.now.rows.now)) }
    {
        let mut used = [false; ROWS];
        for j in 0..self.n {
            mark(&mut used, Row(j), &places_of(self.rows, Row(j)));
        }
        all_marked(&used, self.n - 1)
    }

    // 16.
    fn used(&self) -> Result<(), Refusal>
        ensures { refused_by result ≡ used_check_of (decode_rows self.now.rows.now) }
    {
        if self.all_used() {
            Ok(())
        } else {
            Err(Refusal::RowUnused)
        }
    }

    // The levels of the last row's tree: each row's height from those of its children, which are lower.
    fn levels_of(&self) -> u16
        requires { Lower (decode_rows self.now.rows.now) }
        ensures { result ≡ levels (tree_of (decode_rows self.now.rows.now)) }
    {
        let mut heights = [0u16; ROWS];
        for i in 0..self.n {
            heights[usize::from(i)] = highest_child(self.rows, &heights, Row(i)) + 1;
        }
        height_at(&heights, Row(self.n - 1))
    }

    // 17: heights need lower children only.
    fn low(&self) -> Result<(), Refusal>
        requires { Lower (decode_rows self.now.rows.now) }
        ensures { refused_by result ≡ levels_check_of (decode_rows self.now.rows.now) }
    {
        if self.levels_of() <= MAX_LEVELS {
            Ok(())
        } else {
            Err(Refusal::TableHeight)
        }
    }
}

// 11 to 17: each test over the whole table before the next.
pub(crate) fn table(set: &[u8], rows: &[u16]) -> Result<(), Refusal>
    requires { check_of set.now ≡ 0 }
    ensures { refused_by result ≡ table_check_of (decode set.now) rows.now }
{
    let whole = WholeRows::formed(set, rows)?;
    whole.distinct()?;
    whole.used()?;
    whole.low()
}
