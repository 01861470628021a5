// An index: each slot's chain goes from its newest annotation to its oldest. The newest stand in a lent array that starts with zeros, so that no cell of the work space is read before it is written.
ghost use Rattle.std.specs.Prelude.{◌≡◌, ◌+◌, ◌*◌, ◌≤◌, ◌<◌, length, get_or};
ghost use Rattle.model.specs.Limits.{max_steps};
ghost use Rattle.model.specs.Lists.{any};
ghost use Rattle.model.specs.Annotation.{annotation, eq_annotation};
ghost use Rattle.membership.specs.Cells.{memory_of, annotations_in};
ghost use Rattle.judging.specs.Cells.{Short};
ghost use Rattle.membership.specs.Index.{slot_of};
ghost use Rattle.judging.specs.Index.{Indexed, Linked};

use crate::entries::is_same;
use automaton::State;
use base::limits::MAX_STEPS;
use document::rows::Row;
use membership::cells::{ANNOTATION_CELLS, NEXT};
use membership::link_at;

// As many slots as the largest room has.
pub(crate) const SLOTS: usize = MAX_STEPS as usize;

// One of the first n annotations has this row, state and memory, whose slot is given.
pub(crate) fn is_known(
    work: &[u16],
    slots: &[u16; SLOTS],
    slot: usize,
    n: usize,
    row: Row,
    state: State,
    memory: &[u16; 16],
    tags: usize,
    room: usize,
) -> bool
    requires bounds { (tags ≤ 16) × (slot < room) × (n ≤ room) × (room ≤ max_steps) × (room * 32 ≤ length work.now) }
    requires slot_is { slot ≡ slot_of room (annotation row.0 state.0 (memory_of tags memory.now)) }
    requires indexed { Indexed tags room work.now slots.now n × Short tags memory.now }
    ensures { result ≡ any (eq_annotation (annotation row.0 state.0 (memory_of tags memory.now))) (annotations_in tags work.now n) }
{
    let mut i = link_at(slots, slot, n);
    while 0 < i {
        let j = i - 1;
        if is_same(work, j, row, state, memory, tags) {
            return true;
        }
        i = link_at(work, j * ANNOTATION_CELLS + NEXT, j);
    }
    false
}

// Annotation n becomes the newest of a slot.
pub(crate) fn link(work: &mut [u16], slots: &mut [u16; SLOTS], slot: usize, n: usize)
    requires { (n < 65535) × (slot < max_steps) × (n * 32 + 32 ≤ length work.old) }
    ensures { Linked work.old slots.old slot n work.new slots.new }
{
    let before = link_at(slots, slot, n);
    work[n * ANNOTATION_CELLS + NEXT] = before as u16;
    slots[slot] = (n + 1) as u16;
}
