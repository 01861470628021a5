// The annotations reached from an accepting one, with the numbers of their steps.
ghost use Rattle.std.specs.Prelude.{◌≡◌, ◌+◌, ◌*◌, ◌-◌, ◌≤◌, ◌<◌, length};
ghost use Rattle.model.specs.Limits.{max_children, max_rows};
ghost use Rattle.model.specs.Lists.{tab};
ghost use Rattle.automaton.specs.Stored.{decode};
ghost use Rattle.document.specs.Rows.{decode_rows};
ghost use Rattle.runs.specs.Fields.{step_numbers};
ghost use Rattle.membership.specs.Cells.{cell_of, child_in};
ghost use Rattle.membership.specs.Trace.{reached?, number_at, accepting_in, ReachedMore, Unmarked, ChildrenReached, Traced, FirstOf};

use crate::cells::{ANNOTATION_CELLS, CHILD, NUMBER, REACHED, ROW, STATE};
use crate::entries::narrow;
use automaton::{State, is_final};
use base::limits::{PLACES, UNUSED};
use document::rows::{Row, Step, count};

// Cell k of annotation j.
pub(crate) fn cell(work: &[u16], j: usize, k: usize) -> u16
    requires { (k < 32) × (j * 32 + 32 ≤ length work.now) }
    ensures { result ≡ cell_of work.now j k }
{
    work[j * ANNOTATION_CELLS + k]
}

// The annotation whose rule and children derive annotation j: itself.
pub(crate) fn source(j: usize) -> usize
    ensures { result ≡ j }
{
    j
}

// What stands in place p of annotation j: a child annotation's number, or UNUSED.
fn child(work: &[u16], j: usize, p: usize) -> usize
    requires { (p < 4) × (j * 32 + 32 ≤ length work.now) }
    ensures { (result ≡ child_in work.now j p) × (result < 65536) }
{
    usize::from(cell(work, source(j), CHILD + p))
}

pub(crate) fn is_reached(work: &[u16], j: usize) -> bool
    requires { j * 32 + 32 ≤ length work.now }
    ensures { result ≡ reached? work.now j }
{
    cell(work, j, REACHED) == 1
}

// Annotation j is one of the last row in a final state.
fn is_accepting(set: &[u8], work: &[u16], j: usize, last: Row) -> bool
    requires { j * 32 + 32 ≤ length work.now }
    ensures { result ≡ accepting_in (decode set.now) last.0 work.now j }
{
    cell(work, j, ROW) == last.0 && is_final(set, State(cell(work, j, STATE)))
}

// The last row.
pub(crate) fn last_row(rows: &[u16]) -> Row
    requires { (0 < length (decode_rows rows.now)) × (length (decode_rows rows.now) ≤ max_rows) }
    ensures { result.0 ≡ length (decode_rows rows.now) - 1 }
{
    Row(narrow(count(rows) - 1))
}

// The first of n annotations that is accepting.
pub(crate) fn first_accepting(set: &[u8], work: &[u16], n: usize, last: Row) -> Option<usize>
    requires { n * 32 ≤ length work.now }
    ensures { FirstOf (accepting_in (decode set.now) last.0 work.now) n result }
{
    (0..n).find(|j| is_accepting(set, work, *j, last))
}

// None of the first n annotations is reached.
fn unmark(work: &mut [u16], n: usize)
    requires { n * 32 ≤ length work.old }
    ensures { Unmarked work.old n work.new }
{
    for j in 0..n {
        work[j * ANNOTATION_CELLS + REACHED] = 0;
    }
}

// Annotation j is reached.
fn reach(work: &mut [u16], j: usize)
    requires { j * 32 + 32 ≤ length work.old }
    ensures { ReachedMore work.old j work.new }
{
    work[j * ANNOTATION_CELLS + REACHED] = 1;
}

// The child annotations of j are reached.
fn reach_children(work: &mut [u16], j: usize)
    requires { j * 32 + 32 ≤ length work.old }
    ensures { ChildrenReached work.old j work.new }
{
    for p in 0..PLACES {
        let x = child(work, j, p);
        if x < j {
            reach(work, x);
        }
    }
}

// What is reached from the root is marked, from the highest annotation down, since child annotations are lower.
pub(crate) fn trace(work: &mut [u16], root: usize)
    requires { root * 32 + 32 ≤ length work.old }
    ensures { Traced work.old root work.new }
{
    unmark(work, root);
    reach(work, root);
    for i in (0..root + 1).rev() {
        if is_reached(work, i) {
            reach_children(work, i);
        }
    }
}

// The step of the child annotation in place p of annotation j, or UNUSED.
fn number_at(work: &[u16], j: usize, p: usize) -> Step
    requires { (p < 4) × (j * 32 + 32 ≤ length work.now) }
    ensures { result.0 ≡ number_at work.now j p }
{
    let x = child(work, j, p);
    if x < j {
        return Step(cell(work, x, NUMBER));
    }
    Step(UNUSED)
}

// The step places of annotation j: its child annotations' steps.
pub(crate) fn places_of(work: &[u16], j: usize) -> [Step; PLACES]
    requires { j * 32 + 32 ≤ length work.now }
    ensures { step_numbers result ≡ tab max_children (number_at work.now j) }
{
    let mut out = [Step(UNUSED); PLACES];
    for p in 0..PLACES {
        out[p] = number_at(work, j, p);
    }
    out
}
