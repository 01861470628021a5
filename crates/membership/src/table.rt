// The annotations of a whole table: row by row, by the rules of the row's symbol alone, with each child's window at hand.
ghost use Rattle.std.specs.Prelude.{◌≡◌, cond, suc, ◌+◌, ◌%◌, ◌≤◌, ◌<◌, eqb, min, length, get_or};
ghost use Rattle.model.specs.Limits.{max_children};
ghost use Rattle.model.specs.Lists.{tab};
ghost use Rattle.model.specs.Automaton.{bit?};
ghost use Rattle.model.specs.Table.{SoundTable};
ghost use Rattle.automaton.specs.Stored.{decode};
ghost use Rattle.automaton.specs.Check.{check_of};
ghost use Rattle.document.specs.Rows.{decode_rows};
ghost use Rattle.membership.specs.Cells.{room_of, memory_of};
ghost use Rattle.membership.specs.Entries.{Grown};
ghost use Rattle.membership.specs.Listing.{entries_below};
ghost use Rattle.membership.specs.Plan.{Bounds, WantFor, Starts, FirstRules, Before};
ghost use Rattle.membership.specs.Annotated.{Annotated};

use crate::cells::ANNOTATION_CELLS;
use crate::entries::narrow;
use crate::search::{Want, search};
use automaton::{arity, header, rule, rules_from, tags_of};
use base::limits::{MAX_ROWS, MAX_STEPS, MAX_SYMBOLS, PLACES, UNUSED};
use document::rows::{Row, count, place, symbol};

// The room is at most as many annotations as a run has steps.
const MAX_ROOM: usize = MAX_STEPS as usize;

const ROWS: usize = MAX_ROWS as usize;

// The first rule of each symbol, and the end.
const FIRSTS: usize = MAX_SYMBOLS as usize + 1;

// What all rules of a row have in common: the windows of its children's rows among the first `base` annotations.
#[derive(Clone, Copy)]
pub struct Plan {
    pub row: Row,
    pub tags: usize,
    pub arity: usize,
    pub base: usize,
    pub room: usize,
    pub low: [usize; PLACES],
    pub high: [usize; PLACES],
}

pub fn cell_at(cells: &[u16], k: usize) -> u16
    ensures { result ≡ get_or cells.now k 0 }
{
    cells.get(k).copied().unwrap_or(0)
}

pub fn start_at(starts: &[u16], c: usize) -> usize
    ensures { result ≡ get_or starts.now c 0 }
{
    usize::from(cell_at(starts, c))
}

// The number of annotations before each child's row, or before the row that follows it by so many; there are at most four children.
pub fn bounds(rows: &[u16], starts: &[u16], i: Row, arity: usize, shift: u16) -> [usize; PLACES]
    ensures { Bounds rows.now starts.now i.0 (min arity max_children) shift result }
{
    let mut out = [0usize; PLACES];
    for p in 0..arity.min(PLACES) {
        let c = place(rows, i, p as u16);
        out[p] = start_at(starts, usize::from(c.0) + usize::from(shift));
    }
    out
}

fn want_for(set: &[u8], plan: &Plan, r: u16) -> Want
    ensures { WantFor (decode set.now) plan.now r result }
{
    let asked = rule(set, r);
    let low = plan.low;
    let high = plan.high;
    let states = asked.places;
    Want {
        row: plan.row,
        target: asked.target,
        rule: r,
        forget: asked.forget,
        tags: plan.tags,
        arity: plan.arity,
        base: plan.base,
        room: plan.room,
        low,
        high,
        states,
    }
}

// The row and 1 where the lowest bit of a mask is set.
pub fn own_place(mask: u16, row: Row) -> u16
    requires { row.0 < 65535 }
    ensures { result ≡ cond (eqb (mask % 2) 1) (suc row.0) 0 }
{
    if mask % 2 == 1 { row.0 + 1 } else { 0 }
}

// The memory of a mask's tags, each going to the row.
fn own_memory(mask: u16, row: Row, tags: usize) -> [u16; 16]
    requires { (tags ≤ 16) × (row.0 < 65535) }
    ensures { memory_of tags result ≡ tab tags (λ k. cond (bit? mask k) (suc row.0) 0) }
{
    let mut out = [0u16; 16];
    let mut rest = mask;
    for k in 0..tags {
        out[k] = own_place(rest, row);
        rest = rest / 2;
    }
    out
}

// The first rule of each symbol and of the one past the last, found once for all rows.
pub fn first_rules(set: &[u8]) -> [u16; FIRSTS]
    requires { check_of set.now ≡ 0 }
    ensures { FirstRules (decode set.now) result }
{
    let mut out = [0u16; FIRSTS];
    for f in 0..FIRSTS {
        out[f] = rules_from(set, narrow(f));
    }
    out
}

// The annotations of row i, by the rules of its symbol, added to those of the rows below.
fn by_row(
    set: &[u8],
    rows: &[u16],
    starts: &[u16],
    firsts: &[u16],
    work: &mut [u16],
    i: Row,
    tags: usize,
    room: usize,
    n: usize,
) -> Option<usize>
    requires sound { (check_of set.now ≡ 0) × SoundTable (decode set.now) (decode_rows rows.now) }
    requires before { Before (decode set.now) (decode_rows rows.now) i.0 room tags work.old n }
    requires starts { Starts (decode set.now) (decode_rows rows.now) starts.now i.0 × FirstRules (decode set.now) firsts.now }
    ensures { Grown n room tags (entries_below (decode set.now) (decode_rows rows.now) (suc i.0)) work.new result }
{
    let f = symbol(rows, i);
    let width = usize::from(arity(set, f));
    let low = bounds(rows, starts, i, width, 0);
    let high = bounds(rows, starts, i, width, 1);
    let plan = Plan {
        row: i,
        tags,
        arity: width,
        base: n,
        room,
        low,
        high,
    };
    let empty = [0u16; 16];
    let free = [UNUSED; PLACES];
    let at = usize::from(f);
    let first = cell_at(firsts, at);
    let end = cell_at(firsts, at + 1);
    let mut m = n;
    for r in first..end {
        let want = want_for(set, &plan, r);
        let own = own_memory(tags_of(set, want.target), i, tags);
        m = search(work, &own, &want, width, m, &empty, free)?;
    }
    Some(m)
}

// The room of a work space of so many cells.
pub fn room_of(cells: usize) -> usize
    ensures { result ≡ room_of cells }
{
    (cells / ANNOTATION_CELLS).min(MAX_ROOM)
}

// The number of annotations of all rows, left in the work space, or none where they do not fit.
pub(crate) fn annotate(set: &[u8], rows: &[u16], work: &mut [u16]) -> Option<usize>
    requires { (check_of set.now ≡ 0) × SoundTable (decode set.now) (decode_rows rows.now) }
    ensures { Annotated (decode set.now) (decode_rows rows.now) (room_of (length work.old)) work.new result }
{
    let room = room_of(work.len());
    let head = header(set);
    let tags = usize::from(head.tags);
    let end = count(rows);
    let firsts = first_rules(set);
    let mut starts = [0u16; ROWS];
    let mut n = 0;
    for i in 0..end {
        starts[i] = narrow(n);
        n = by_row(
            set,
            rows,
            &starts,
            &firsts,
            work,
            Row(narrow(i)),
            tags,
            room,
            n,
        )?;
    }
    Some(n)
}
