// Memories: a place for each tag, 0 where the tag has no row, else the row's number and 1. Nothing stands past the tags, so all 16 places are compared without a branch.
ghost use Rattle.std.specs.Prelude.{◌≡◌, ◌≤◌, length};
ghost use Rattle.model.specs.Annotation.{places_agree};
ghost use Rattle.membership.specs.Cells.{memory_of, without};
ghost use Rattle.judging.specs.Cells.{Short, AgreeIn, SameIn};

use membership::kept_place;

// A memory has 16 places, the first of them the tags'.
pub(crate) const MEMORY_PLACES: usize = 16;

fn places_agree(x: u16, y: u16) -> bool
    ensures { result ≡ places_agree x y }
{
    (x == 0) | (y == 0) | (x == y)
}

// No tag gets two rows.
pub(crate) fn agree(a: &[u16; 16], b: &[u16]) -> bool
    requires { length b.now ≡ 16 }
    ensures { AgreeIn a.now b.now result }
{
    let mut all = true;
    for k in 0..MEMORY_PLACES {
        all = all & places_agree(a[k], b[k]);
    }
    all
}

// The same memory.
pub(crate) fn same(a: &[u16; 16], b: &[u16]) -> bool
    requires { length b.now ≡ 16 }
    ensures { SameIn a.now b.now result }
{
    let mut all = true;
    for k in 0..MEMORY_PLACES {
        all = all & (a[k] == b[k]);
    }
    all
}

// What is left of a memory once a mask's tags are dropped.
pub(crate) fn kept(memory: &[u16; 16], mask: u16, tags: usize) -> [u16; 16]
    requires { (tags ≤ 16) × Short tags memory.now }
    ensures { (memory_of tags result ≡ without tags mask (memory_of tags memory.now)) × Short tags result }
{
    if mask == 0 {
        return *memory;
    }
    let mut out = [0u16; MEMORY_PLACES];
    let mut rest = mask;
    for k in 0..tags {
        out[k] = kept_place(rest, memory[k]);
        rest = rest / 2;
    }
    out
}
