// The search: for one rule on one row, every choice of one annotation for each child, in the window of the child's row.
ghost use Rattle.std.specs.Prelude.{◌-◌, ◌≤◌, IfSome};
ghost use Rattle.model.specs.Annotation.{annotation};
ghost use Rattle.membership.specs.Cells.{memory_of, annotations_in};
ghost use Rattle.judging.specs.Cells.{Short};
ghost use Rattle.membership.specs.Entries.{entries_in, add_entry, add_entries};
ghost use Rattle.judging.specs.Entries.{Grown};
ghost use Rattle.judging.specs.Search.{tags_in, arity_in, base_in, room_in, row_asked, rule_asked, target_asked, finished, leaving, found, class_of, Ready, Windows, Alike};
ghost use Rattle.judging.specs.Tried.{Tried};

use crate::chains::{Chains, class_of, first_in, next_in};
use crate::entries::{choosable, joined_with, put};
use crate::index::{SLOTS, is_known, link};
use crate::memory::{agree, kept};
use crate::tried::{Slot, TRIED, is_tried, keep, slot_for};
use automaton::State;
use base::limits::PLACES;
use document::rows::Row;
use membership::{Plan, join, narrow, slot_of};

// What a rule asks on a row: for each child its state.
#[derive(Clone, Copy)]
pub struct Want {
    pub row: Row,
    pub rule: u16,
    pub target: State,
    pub forget: u16,
    pub states: [State; PLACES],
}

// The annotation is appended, if it is new: how many there are, or none where there is no room for it.
fn add(
    work: &mut [u16],
    plan: &Plan,
    asked: &Want,
    n: usize,
    memory: &[u16; 16],
    children: &[u16; PLACES],
    slots: &mut [u16; SLOTS],
) -> Option<usize>
    requires { Ready plan.now work.old slots.old n × Short (tags_in plan.now) memory.now }
    ensures { Grown n (room_in plan.now) (tags_in plan.now) (add_entry (entries_in (tags_in plan.now) work.old n) (record { annotation = annotation (row_asked asked.now) (target_asked asked.now) (memory_of (tags_in plan.now) memory.now); rule = rule_asked asked.now; children = children.now })) work.new slots.new result }
{
    let room = plan.room;
    if room == 0 {
        return None;
    }
    let tags = plan.tags;
    let row = asked.row;
    let target = asked.target;
    let slot = slot_of(row, target, memory, tags, room);
    if is_known(work, slots, slot, n, row, target, memory, tags, room) {
        return Some(n);
    }
    if n < room {
        put(work, n, row, target, memory, asked.rule, children, tags);
        link(work, slots, slot, n);
        return Some(n + 1);
    }
    None
}

// The last step: the target's tags are added to what is left of the joined memory, provided no tag gets two rows.
fn finish(
    work: &mut [u16],
    own: &[u16; 16],
    plan: &Plan,
    asked: &Want,
    n: usize,
    memory: &[u16; 16],
    children: &[u16; PLACES],
    slots: &mut [u16; SLOTS],
) -> Option<usize>
    requires { Ready plan.now work.old slots.old n × Short (tags_in plan.now) own.now × Short (tags_in plan.now) memory.now }
    ensures { Grown n (room_in plan.now) (tags_in plan.now) (add_entries (entries_in (tags_in plan.now) work.old n) (finished asked.now (memory_of (tags_in plan.now) own.now) (memory_of (tags_in plan.now) memory.now) children.now)) work.new slots.new result }
{
    if agree(memory, own) {
        let all = join(memory, own);
        return add(work, plan, asked, n, &all, children, slots);
    }
    Some(n)
}

// What the rule leaves: its tags are dropped from the joined memory, then the last step. A rule that forgets nothing copies no memory.
fn leave(
    work: &mut [u16],
    own: &[u16; 16],
    plan: &Plan,
    asked: &Want,
    n: usize,
    memory: &[u16; 16],
    children: &[u16; PLACES],
    slots: &mut [u16; SLOTS],
) -> Option<usize>
    requires { Ready plan.now work.old slots.old n × Short (tags_in plan.now) own.now × Short (tags_in plan.now) memory.now }
    ensures { Grown n (room_in plan.now) (tags_in plan.now) (add_entries (entries_in (tags_in plan.now) work.old n) (leaving plan.now asked.now (memory_of (tags_in plan.now) own.now) (memory_of (tags_in plan.now) memory.now) children.now)) work.new slots.new result }
{
    if asked.forget == 0 {
        return finish(work, own, plan, asked, n, memory, children, slots);
    }
    let left = kept(memory, asked.forget, plan.tags);
    finish(work, own, plan, asked, n, &left, children, slots)
}

// All choices at the last `left` places are tried, from the memory joined so far.
pub(crate) fn search(
    work: &mut [u16],
    own: &[u16; 16],
    plan: &Plan,
    asked: &Want,
    left: usize,
    n: usize,
    memory: &[u16; 16],
    children: &mut [u16; PLACES],
    tried: &mut [Slot; TRIED],
    slots: &mut [u16; SLOTS],
    chains: &Chains,
) -> Option<usize>
    requires { Ready plan.now work.old slots.old n × (left ≤ arity_in plan.now) × Tried plan.now asked.now own.now work.old n tried.old × Short (tags_in plan.now) own.now × Short (tags_in plan.now) memory.now × Windows (class_of (annotations_in (tags_in plan.now) work.old (base_in plan.now))) plan.now (arity_in plan.now) chains.now.heads chains.now.links }
    ensures { Grown n (room_in plan.now) (tags_in plan.now) (add_entries (entries_in (tags_in plan.now) work.old n) (found (annotations_in (tags_in plan.now) work.old (base_in plan.now)) plan.now asked.now (memory_of (tags_in plan.now) own.now) left (memory_of (tags_in plan.now) memory.now) children.old)) work.new slots.new result × Alike (arity_in plan.now - left) (arity_in plan.now) children.old children.new × IfSome result (λ m. Tried plan.now asked.now own.now work.new m tried.new) }
{
    if left == 0 {
        return leave(work, own, plan, asked, n, memory, children, slots);
    }
    let p = plan.arity - left;
    let tags = plan.tags;
    let low = plan.low[p];
    let end = plan.high[p];
    let row = asked.row;
    let rule = asked.rule;
    let slot = slot_for(p, low, end, memory);
    if is_tried(tried, slot, row, rule, left, memory, tags) {
        return Some(n);
    }
    let state = asked.states[p];
    let rest = left - 1;
    let mut m = n;
    let c = class_of(state);
    let mut j = first_in(work, chains, p, c, low, end);
    while j < end {
        let x = j;
        j = next_in(work, chains, c, x, low, end);
        if choosable(work, x, state, memory, tags) {
            let more = joined_with(work, x, memory);
            children[p] = narrow(x);
            m = search(
                work, own, plan, asked, rest, m, &more, children, tried, slots, chains,
            )?;
        }
    }
    keep(tried, slot, row, rule, left, memory);
    Some(m)
}
