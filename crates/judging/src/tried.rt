// Joined memories that were tried already, for a rule on a row: a second search from one would find nothing new. A slot keeps the last one that fell to it.
ghost use Rattle.std.specs.Prelude.{◌≡◌, IfSome, true, ◌+◌, ◌*◌, ◌≤◌, ◌<◌};
ghost use Rattle.membership.specs.Cells.{memory_of};
ghost use Rattle.judging.specs.Tried.{stamp_of, Stands, Kept};

use crate::memory::same;
use document::rows::Row;

// So many slots.
pub(crate) const TRIED: usize = 1024;

// A slot: the row and 1, or 0; the rule and the places left; the memory.
#[derive(Clone, Copy)]
pub struct Slot {
    pub row: u16,
    pub stamp: u16,
    pub memory: [u16; 16],
}

// A hash stays below this, and the slot is its remainder by a prime.
const HASHES: usize = 281474976710656;

const SPREAD: usize = 1021;

// A memory is looked for where two children are chosen and more than so many annotations are to be tried.
const MANY: usize = 4;

// A number below the slots' for a memory at place p.
fn hash(p: usize, memory: &[u16; 16]) -> usize
    requires { p < 4 }
    ensures { result < 1024 }
{
    let mut h = p;
    for x in memory {
        h = (h * 5 + usize::from(*x)) % HASHES;
    }
    h % SPREAD
}

// The slot of a memory at place p, or none where it is not worth while.
pub(crate) fn slot_for(p: usize, low: usize, high: usize, memory: &[u16; 16]) -> Option<usize>
    requires { p < 4 }
    ensures { IfSome result (λ s. s < 1024) }
{
    if p < 2 || high <= MANY || high - MANY <= low {
        return None;
    }
    Some(hash(p, memory))
}

// The number for a rule with so many places left.
fn stamp(rule: u16, left: usize) -> u16
    requires { (rule < 1024) × (left ≤ 4) }
    ensures { result ≡ rule * 8 + left }
{
    rule * 8 + left as u16
}

// The memory stands in the slot, for the row, the rule and the places left.
pub(crate) fn is_tried(
    tried: &[Slot; TRIED],
    slot: Option<usize>,
    row: Row,
    rule: u16,
    left: usize,
    memory: &[u16; 16],
    tags: usize,
) -> bool
    requires in_bounds { IfSome slot (λ s. s < 1024) }
    requires row_bound { (row.0 < 1024) × (rule < 1024) × (left ≤ 4) × (tags ≤ 16) }
    ensures { result ≡ true → Stands (stamp_of row.0 rule left) tags (memory_of tags memory.now) tried.now }
{
    let Some(slot) = slot else {
        return false;
    };
    if tried[slot].row != row.0 + 1 {
        return false;
    }
    if tried[slot].stamp != stamp(rule, left) {
        return false;
    }
    same(memory, &tried[slot].memory)
}

// The memory is put in the slot, for the row, the rule and the places left.
pub(crate) fn keep(
    tried: &mut [Slot; TRIED],
    slot: Option<usize>,
    row: Row,
    rule: u16,
    left: usize,
    memory: &[u16; 16],
)
    requires { IfSome slot (λ s. s < 1024) × (row.0 < 1024) × (rule < 1024) × (left ≤ 4) }
    ensures { Kept tried.old (stamp_of row.0 rule left) memory.now tried.new }
{
    if let Some(slot) = slot {
        let memory = *memory;
        tried[slot] = Slot {
            row: row.0 + 1,
            stamp: stamp(rule, left),
            memory,
        };
    }
}
