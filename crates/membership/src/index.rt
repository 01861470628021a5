// An index in spare cells of the work space: each slot's chain goes from its newest annotation to its oldest.
ghost use Rattle.std.specs.Prelude.{◌≡◌, ◌+◌, ◌*◌, ◌≤◌, ◌<◌, length, get_or};
ghost use Rattle.model.specs.Lists.{any};
ghost use Rattle.model.specs.Annotation.{annotation, eq_annotation};
ghost use Rattle.membership.specs.Cells.{memory_of, annotations_in};
ghost use Rattle.membership.specs.Index.{mixed, slot_of, link_of, Indexed, Linked};

use crate::cells::{ANNOTATION_CELLS, FIRST, NEXT};
use crate::entries::is_same;
use automaton::State;
use document::rows::Row;

// A number more goes into a hash.
fn mix(h: usize, x: u16) -> usize
    requires { h < 65536 }
    ensures { (result ≡ mixed h x) × (result < 65536) }
{
    (h * 40503 + usize::from(x)) % 65536
}

// An annotation's slot.
pub fn slot_of(row: Row, state: State, memory: &[u16], tags: usize, room: usize) -> usize
    requires { (tags ≤ 16) × (length memory.now ≡ 16) × (0 < room) }
    ensures { (result ≡ slot_of room (annotation row.0 state.0 (memory_of tags memory.now))) × (result < room) }
{
    let mut h = mix(usize::from(row.0), state.0);
    for k in 0..tags {
        h = mix(h, memory[k]);
    }
    h % room
}

// The link in a cell: a number and 1, at most `most`, or 0. It stays one number, as in the cell, since `link_of` says what a chain is by it.
pub fn link_at(cells: &[u16], at: usize, most: usize) -> usize
    ensures { (result ≡ link_of most (get_or cells.now at 0)) × (result ≤ most) }
{
    let x = usize::from(cells.get(at).copied().unwrap_or(0));
    if x <= most { x } else { 0 }
}

// One of the first n annotations has this row, state and memory, whose slot is given.
pub(crate) fn is_known(
    work: &[u16],
    slot: usize,
    n: usize,
    row: Row,
    state: State,
    memory: &[u16],
    tags: usize,
    room: usize,
) -> bool
    requires bounds { (tags ≤ 16) × (length memory.now ≡ 16) × (slot < room) × (n ≤ room) × (room * 32 ≤ length work.now) }
    requires slot_is { slot ≡ slot_of room (annotation row.0 state.0 (memory_of tags memory.now)) }
    requires indexed { Indexed tags room work.now n }
    ensures { result ≡ any (eq_annotation (annotation row.0 state.0 (memory_of tags memory.now))) (annotations_in tags work.now n) }
{
    let mut i = link_at(work, slot * ANNOTATION_CELLS + FIRST, n);
    while 0 < i {
        let j = i - 1;
        if is_same(work, j, row, state, memory, tags) {
            return true;
        }
        i = link_at(work, j * ANNOTATION_CELLS + NEXT, j);
    }
    false
}

// Annotation n becomes the newest of a slot.
pub(crate) fn link(work: &mut [u16], slot: usize, n: usize)
    requires { (n < 65535) × (slot * 32 + 32 ≤ length work.old) × (n * 32 + 32 ≤ length work.old) }
    ensures { Linked work.old slot n work.new }
{
    let first = slot * ANNOTATION_CELLS + FIRST;
    let before = link_at(work, first, n);
    work[n * ANNOTATION_CELLS + NEXT] = before as u16;
    work[first] = (n + 1) as u16;
}
