// The witness's rows: each state's tree is added once, its children's before it, from left to right.
ghost use Rattle.std.specs.Prelude.{◌≡◌, get_or};
ghost use Rattle.model.specs.Limits.{max_children, unused};
ghost use Rattle.model.specs.Lists.{tab};
ghost use Rattle.model.specs.Written.{rule_at};
ghost use Rattle.automaton.specs.Stored.{decode};
ghost use Rattle.document.specs.Fields.{numbers_of, fields_row};
ghost use Rattle.emptiness.specs.Building.{memo_place, rule_row, noted, RowPut, Builds};

use crate::marking::mark_of;
use crate::places::STATES;
use automaton::{State, arity, rule_child, rule_symbol};
use base::limits::{PLACES, UNUSED};
use document::Scalar;
use document::builder::{Placed, find_or_add};
use document::fields::RowFields;
use document::index::SLOTS;
use document::rows::Row;

// The row of a state's tree, or UNUSED, which is what a place of a row holds for none.
fn row_of(memo: &[u16], q: State) -> Row
    ensures { result.0 ≡ get_or memo.now q.0 unused }
{
    Row(memo.get(usize::from(q.0)).copied().unwrap_or(UNUSED))
}

fn place_of(set: &[u8], memo: &[u16], i: u16, k: u16) -> Row
    ensures { result.0 ≡ memo_place memo.now (rule_at (decode set.now) i) k }
{
    row_of(memo, rule_child(set, i, k))
}

// The rows of rule i's child states.
fn places_of(set: &[u8], memo: &[u16], i: u16) -> [Row; PLACES]
    ensures { numbers_of result ≡ tab max_children (memo_place memo.now (rule_at (decode set.now) i)) }
{
    [0, 1, 2, 3].map(|k| place_of(set, memo, i, k))
}

// The row of rule i over the rows of its child states.
fn fields_of(set: &[u8], memo: &[u16], i: u16) -> RowFields
    ensures { fields_row result ≡ rule_row memo.now (rule_at (decode set.now) i) }
{
    let places = places_of(set, memo, i);
    RowFields {
        symbol: rule_symbol(set, i),
        places,
        scalar: Scalar::Bare,
    }
}

// What is known of the rows in a space: slots over them, the row of each state's tree, or UNUSED, and how many they are.
// Numbers, not Options: those would take twice the fixed memory.
#[derive(Clone, Copy)]
pub(crate) struct Builder {
    pub(crate) slots: [u16; SLOTS],
    pub(crate) memo: [u16; STATES],
    pub(crate) count: u16,
}

impl Builder {
    fn remember(&mut self, q: State, row: Row)
        ensures memo { self.new.memo ≡ noted self.old.memo q.0 row.0 }
        ensures rest { (self.new.slots ≡ self.old.slots) × (self.new.count ≡ self.old.count) }
    {
        let at = usize::from(q.0);
        if at >= STATES {
            return;
        }
        self.memo[at] = row.0;
    }

    // Finds or adds the row of rule i as that of state q.
    fn put(&mut self, set: &[u8], rows: &mut [u16], limit: u16, i: u16, q: State)
        ensures { RowPut (rule_at (decode set.now) i) limit q.0 rows.old self.old.slots self.old.memo self.old.count rows.new self.new.slots self.new.memo self.new.count }
    {
        let f = fields_of(set, &self.memo, i);
        match find_or_add(rows, &mut self.slots, self.count, limit, f) {
            Placed::Known(r) => self.remember(q, r),
            Placed::Added(r) => {
                self.remember(q, r);
                self.count += 1;
            },
            Placed::Full => {},
        }
    }

    // Adds the tree of state q to the rows, where it is not there yet: its children's first, then its own.
    pub(crate) fn build(
        &mut self,
        set: &[u8],
        marks: &[u16; STATES],
        rows: &mut [u16],
        limit: u16,
        depth: u16,
        q: State,
    )
        ensures { Builds (decode set.now) marks.now limit depth q.0 rows.old self.old.slots self.old.memo self.old.count rows.new self.new.slots self.new.memo self.new.count }
    {
        let known = row_of(&self.memo, q);
        if known.0 != UNUSED {
            return;
        }
        let Some(i) = mark_of(marks, q).checked_sub(1) else {
            return;
        };
        let Some(below) = depth.checked_sub(1) else {
            return;
        };
        for k in 0..arity(set, rule_symbol(set, i)) {
            let c = rule_child(set, i, k);
            self.build(set, marks, rows, limit, below, c);
        }
        self.put(set, rows, limit, i, q);
    }
}
