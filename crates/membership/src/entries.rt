// Annotations with their sources in the work space: the test whether one may be chosen, the test for an equal one, and a new one's cells.
ghost use Rattle.std.specs.Prelude.{◌≡◌, ◌+◌, ◌*◌, ◌≤◌, ◌<◌, length};
ghost use Rattle.model.specs.Annotation.{annotation, eq_annotation};
ghost use Rattle.membership.specs.Cells.{memory_of, annotation_in};
ghost use Rattle.membership.specs.Entries.{Stored};
ghost use Rattle.membership.specs.Search.{choosable?, JoinedWith};

use crate::cells::{ANNOTATION_CELLS, CHILD, MARK, MEMORY, MEMORY_END, ROW, RULE, STATE};
use crate::memory::{agree, join, same};
use automaton::State;
use base::limits::PLACES;
use document::rows::Row;

// A number that fits a cell.
pub fn narrow(x: usize) -> u16
    requires { x < 65536 }
    ensures { result ≡ x }
{
    x as u16
}

// Annotation j may be chosen for a child in a state, the memory being joined so far.
pub(crate) fn choosable(work: &[u16], j: usize, state: State, memory: &[u16], tags: usize) -> bool
    requires { (tags ≤ 16) × (length memory.now ≡ 16) × (j * 32 + 32 ≤ length work.now) }
    ensures { result ≡ choosable? state.0 (memory_of tags memory.now) (annotation_in tags work.now j) }
{
    let at = j * ANNOTATION_CELLS;
    if work[at + STATE] != state.0 {
        return false;
    }
    let start = at + MEMORY;
    let end = at + MEMORY_END;
    agree(memory, &work[start..end], tags)
}

// The memory joined so far with that of annotation j.
pub(crate) fn joined_with(work: &[u16], j: usize, memory: &[u16]) -> [u16; 16]
    requires { (length memory.now ≡ 16) × (j * 32 + 32 ≤ length work.now) }
    ensures { JoinedWith work.now j memory.now result }
{
    let at = j * ANNOTATION_CELLS;
    let start = at + MEMORY;
    let end = at + MEMORY_END;
    join(memory, &work[start..end])
}

// Annotation j is the one with this row, state and memory. Here and in the index these stay three parameters: the memory is lent, and a struct of them would be made for one call and taken apart in it.
pub(crate) fn is_same(
    work: &[u16],
    j: usize,
    row: Row,
    state: State,
    memory: &[u16],
    tags: usize,
) -> bool
    requires { (tags ≤ 16) × (length memory.now ≡ 16) × (j * 32 + 32 ≤ length work.now) }
    ensures { result ≡ eq_annotation (annotation row.0 state.0 (memory_of tags memory.now)) (annotation_in tags work.now j) }
{
    let at = j * ANNOTATION_CELLS;
    if row.0 != work[at + ROW] {
        return false;
    }
    if state.0 != work[at + STATE] {
        return false;
    }
    let start = at + MEMORY;
    let end = at + MEMORY_END;
    same(memory, &work[start..end], tags)
}

// Entry n is written.
pub(crate) fn put(
    work: &mut [u16],
    n: usize,
    row: Row,
    state: State,
    memory: &[u16],
    rule: u16,
    children: [u16; PLACES],
    tags: usize,
)
    requires { (tags ≤ 16) × (length memory.now ≡ 16) × (n * 32 + 32 ≤ length work.old) }
    ensures { Stored tags work.old n (record { annotation = annotation row.0 state.0 (memory_of tags memory.now); rule = rule; children = children }) work.new }
{
    let at = n * ANNOTATION_CELLS;
    work[at] = row.0;
    work[at + STATE] = state.0;
    base::space::put(work, at + MEMORY, memory);
    work[at + MARK] = 0;
    work[at + RULE] = rule;
    base::space::put(work, at + CHILD, &children);
}
