// The search: for one rule on one row, every choice of one annotation for each child, in the window of the child's row.
ghost use Rattle.std.specs.Prelude.{◌≡◌, ◌+◌, ◌≤◌, ◌<◌, length};
ghost use Rattle.model.specs.Annotation.{annotation};
ghost use Rattle.membership.specs.Cells.{memory_of, annotations_in};
ghost use Rattle.membership.specs.Entries.{entries_in, add_entry, add_entries, Grown};
ghost use Rattle.membership.specs.Search.{with_child, finished, leaving, found, Ready};

use crate::entries::{choosable, joined_with, put};
use crate::index::{is_known, link, slot_of};
use crate::memory::{agree, join, kept};
use automaton::State;
use base::limits::PLACES;
use document::rows::Row;

// What a rule asks on a row: for each child its state and the window of its row among the first `base` annotations.
#[derive(Clone, Copy)]
pub struct Want {
    pub row: Row,
    pub target: State,
    pub rule: u16,
    pub forget: u16,
    pub tags: usize,
    pub arity: usize,
    pub base: usize,
    pub room: usize,
    pub low: [usize; PLACES],
    pub high: [usize; PLACES],
    pub states: [State; PLACES],
}

// The annotation is appended, if it is new: how many there are, or none where there is no room for it.
fn add(
    work: &mut [u16],
    want: &Want,
    n: usize,
    memory: &[u16],
    children: [u16; PLACES],
) -> Option<usize>
    requires { Ready want.now work.old n × (length memory.now ≡ 16) }
    ensures { Grown n want.now.room want.now.tags (add_entry (entries_in want.now.tags work.old n) (record { annotation = annotation want.now.row.0 want.now.target.0 (memory_of want.now.tags memory.now); rule = want.now.rule; children = children })) work.new result }
{
    if want.room == 0 {
        return None;
    }
    let slot = slot_of(want.row, want.target, memory, want.tags, want.room);
    if is_known(
        work,
        slot,
        n,
        want.row,
        want.target,
        memory,
        want.tags,
        want.room,
    ) {
        return Some(n);
    }
    if n < want.room {
        put(
            work,
            n,
            want.row,
            want.target,
            memory,
            want.rule,
            children,
            want.tags,
        );
        link(work, slot, n);
        return Some(n + 1);
    }
    None
}

// The last step: the target's tags are added to what is left of the joined memory, provided no tag gets two rows.
fn finish(
    work: &mut [u16],
    own: &[u16],
    want: &Want,
    n: usize,
    memory: &[u16],
    children: [u16; PLACES],
) -> Option<usize>
    requires { Ready want.now work.old n × (length own.now ≡ 16) × (length memory.now ≡ 16) }
    ensures { Grown n want.now.room want.now.tags (add_entries (entries_in want.now.tags work.old n) (finished want.now (memory_of want.now.tags own.now) (memory_of want.now.tags memory.now) children)) work.new result }
{
    if agree(memory, own, want.tags) {
        let all = join(memory, own);
        return add(work, want, n, &all, children);
    }
    Some(n)
}

// What the rule leaves: its tags are dropped from the joined memory, then the last step. A rule that forgets nothing copies no memory.
fn leave(
    work: &mut [u16],
    own: &[u16],
    want: &Want,
    n: usize,
    memory: &[u16],
    children: [u16; PLACES],
) -> Option<usize>
    requires { Ready want.now work.old n × (length own.now ≡ 16) × (length memory.now ≡ 16) }
    ensures { Grown n want.now.room want.now.tags (add_entries (entries_in want.now.tags work.old n) (leaving want.now (memory_of want.now.tags own.now) (memory_of want.now.tags memory.now) children)) work.new result }
{
    if want.forget == 0 {
        return finish(work, own, want, n, memory, children);
    }
    let left = kept(memory, want.forget, want.tags);
    finish(work, own, want, n, &left, children)
}

// The child annotations with number j at place p.
fn with_child(children: [u16; PLACES], p: usize, j: usize) -> [u16; PLACES]
    requires { (p < 4) × (j < 65536) }
    ensures { result ≡ with_child children p j }
{
    let mut out = children;
    out[p] = j as u16;
    out
}

// All choices at the last `left` places are tried, from the memory joined so far.
pub(crate) fn search(
    work: &mut [u16],
    own: &[u16],
    want: &Want,
    left: usize,
    n: usize,
    memory: &[u16],
    children: [u16; PLACES],
) -> Option<usize>
    requires { Ready want.now work.old n × (length own.now ≡ 16) × (length memory.now ≡ 16) × (left ≤ want.now.arity) }
    ensures { Grown n want.now.room want.now.tags (add_entries (entries_in want.now.tags work.old n) (found (annotations_in want.now.tags work.old want.now.base) want.now (memory_of want.now.tags own.now) left (memory_of want.now.tags memory.now) children)) work.new result }
{
    if left == 0 {
        return leave(work, own, want, n, memory, children);
    }
    let p = want.arity - left;
    let state = want.states[p];
    let mut m = n;
    for j in want.low[p]..want.high[p] {
        if choosable(work, j, state, memory, want.tags) {
            let joined = joined_with(work, j, memory);
            let with = with_child(children, p, j);
            m = search(work, own, want, left - 1, m, &joined, with)?;
        }
    }
    Some(m)
}
