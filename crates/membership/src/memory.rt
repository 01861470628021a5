// Memories: a place for each tag, 0 where the tag has no row, else the row's number and 1.
ghost use Rattle.std.specs.Prelude.{◌≡◌, cond, ◌%◌, ◌≤◌, eqb, length};
ghost use Rattle.model.specs.Lists.{eq_list};
ghost use Rattle.model.specs.Annotation.{places_agree, joined_place, agree?};
ghost use Rattle.membership.specs.Cells.{memory_of, JoinedIn, without};

// A memory has 16 places, the first of them the tags'.
const MEMORY_PLACES: usize = 16;

fn places_agree(x: u16, y: u16) -> bool
    ensures { result ≡ places_agree x y }
{
    x == 0 || y == 0 || x == y
}

fn joined_place(x: u16, y: u16) -> u16
    ensures { result ≡ joined_place x y }
{
    if x == 0 { y } else { x }
}

// No tag gets two rows.
pub(crate) fn agree(a: &[u16], b: &[u16], tags: usize) -> bool
    requires { (tags ≤ length a.now) × (tags ≤ length b.now) }
    ensures { result ≡ agree? (memory_of tags a.now) (memory_of tags b.now) }
{
    (0..tags).all(|k| places_agree(a[k], b[k]))
}

// The same memory.
pub(crate) fn same(a: &[u16], b: &[u16], tags: usize) -> bool
    requires { (tags ≤ length a.now) × (tags ≤ length b.now) }
    ensures { result ≡ eq_list (memory_of tags a.now) (memory_of tags b.now) }
{
    a[..tags] == b[..tags]
}

// What two memories that agree say together. All places are joined, those past the tags too, so that the loop has a fixed length.
pub fn join(a: &[u16], b: &[u16]) -> [u16; 16]
    requires { (length a.now ≡ 16) × (length b.now ≡ 16) }
    ensures { JoinedIn a.now b.now result }
{
    let mut out = [0u16; MEMORY_PLACES];
    for k in 0..MEMORY_PLACES {
        out[k] = joined_place(a[k], b[k]);
    }
    out
}

// A place, nothing where the lowest bit of a mask is set.
pub fn kept_place(mask: u16, x: u16) -> u16
    ensures { result ≡ cond (eqb (mask % 2) 1) 0 x }
{
    if mask % 2 == 1 { 0 } else { x }
}

// What is left of a memory once a mask's tags are dropped.
pub(crate) fn kept(memory: &[u16], mask: u16, tags: usize) -> [u16; 16]
    requires { (tags ≤ 16) × (length memory.now ≡ 16) }
    ensures { memory_of tags result ≡ without tags mask (memory_of tags memory.now) }
{
    let mut out = [0u16; MEMORY_PLACES];
    let mut rest = mask;
    for k in 0..tags {
        out[k] = kept_place(rest, memory[k]);
        rest = rest / 2;
    }
    out
}
