// Marking in rounds, from lists of the rules by child state: a round tries the rules that name a state of the round before.
ghost use Rattle.std.specs.Prelude.{◌≡◌, map, ◌<◌, length, get_or, replicate};
ghost use Rattle.model.specs.Limits.{max_states};
ghost use Rattle.model.specs.Written.{rule_at};
ghost use Rattle.automaton.specs.Stored.{decode};
ghost use Rattle.emptiness.specs.Places.{places_of, named?, Linked};
ghost use Rattle.emptiness.specs.Marking.{marked?, ready?, this?, early?, Tried, Tries, Propagated, lower_than?, LowestAdded, Marks};

use crate::SoundSet;
use crate::places::{Lists, STATES};
use automaton::{State, arity, is_final, rule, rule_target};
use base::limits::{MAX_CHILDREN, MAX_STATES, PLACES};

// The state that the sample is the tree of; the round that marks it; and each state's mark, 0 or 1 more than its rule.
// The marks are numbers: Options would take twice the fixed memory.
#[derive(Clone, Copy)]
pub struct Marking {
    pub state: State,
    pub round: u16,
    pub marks: [u16; STATES],
}

// The marks after a round, and the states that it marks: the first `count` of those added.
#[derive(Clone, Copy)]
struct Round {
    marks: [u16; STATES],
    added: [u16; STATES],
    count: u16,
}

// A number of a list, 0 past its end.
fn number_at(list: &[u16], i: u16) -> u16
    ensures { result ≡ get_or list.now i 0 }
{
    list.get(usize::from(i)).copied().unwrap_or(0)
}

// A state of a list of them.
fn state_at(states: &[u16], x: u16) -> State
    ensures { result.0 ≡ get_or states.now x 0 }
{
    State(number_at(states, x))
}

// The mark of a state, or 0.
pub(crate) fn mark_of(marks: &[u16], q: State) -> u16
    ensures { result ≡ get_or marks.now q.0 0 }
{
    number_at(marks, q.0)
}

fn is_marked(marks: &[u16], q: State) -> bool
    ensures { result ≡ marked? marks.now q.0 }
{
    mark_of(marks, q) != 0
}

// The child in place k is marked.
fn child_marked(marks: &[u16], places: [State; PLACES], k: u16) -> bool
    ensures { result ≡ marked? marks.now (get_or (map (λ q. q.0) places) k 0) }
{
    let q = places.get(usize::from(k)).copied().unwrap_or(State(0));
    is_marked(marks, q)
}

// All child states of rule i are marked.
fn ready(set: SoundSet, marks: &[u16], i: u16) -> bool
    requires { i < length (decode set.bytes.now).rules }
    ensures { result ≡ ready? marks.now (rule_at (decode set.entry.bytes.now) i) }
{
    let r = rule(set.bytes, i);
    (0..arity(set.bytes, r.symbol)).all(|k| child_marked(marks, r.places, k))
}

// Whether a state is lower than another, or there is no other.
fn is_lower(q: State, other: Option<State>) -> bool
    ensures { result ≡ lower_than? q.0 other }
{
    match other {
        Some(best) => q.0 < best.0,
        None => true,
    }
}

impl Round {
    // Rule i marks its target, where that was not marked before the round, no lower rule marks it, and all the rule's child states were marked.
    fn try_rule(&mut self, set: SoundSet, marks: &[u16], i: u16)
        requires { i < length (decode set.bytes.now).rules }
        ensures { Tries (decode set.entry.bytes.now) marks.now (this? i) self.old.marks self.old.added self.old.count self.new.marks self.new.added self.new.count }
    {
        let q = rule_target(set.bytes, i);
        if is_marked(marks, q) {
            return;
        }
        let old = mark_of(&self.marks, q);
        let mark = i + 1;
        let lower = (old == 0) | (mark < old);
        if !lower {
            return;
        }
        if !ready(set, marks, i) {
            return;
        }
        self.marks[usize::from(q.0)] = mark;
        if old != 0 {
            return;
        }
        let end = usize::from(self.count);
        if end >= STATES {
            return;
        }
        self.added[end] = q.0;
        self.count += 1;
    }

    // Tries the rules that name state q, to which its mark may propagate.
    fn propagate(&mut self, set: SoundSet, marks: &[u16], lists: &Lists, q: State)
        requires { Linked (decode set.bytes.now) (places_of (decode set.bytes.now)) lists.now.last lists.now.before }
        ensures { q.0 < max_states → Tries (decode set.entry.bytes.now) marks.now (named? (decode set.entry.bytes.now) q.0 0) self.old.marks self.old.added self.old.count self.new.marks self.new.added self.new.count }
    {
        if q.0 >= MAX_STATES {
            return;
        }
        let mut at = number_at(&lists.last, q.0);
        while at != 0 {
            let p = at - 1;
            self.try_rule(set, marks, p / MAX_CHILDREN);
            at = number_at(&lists.before, p);
        }
    }

    // The first round tries every rule.
    fn first(set: SoundSet) -> Round
        ensures { Tried (decode set.entry.bytes.now) (replicate max_states 0) (early? (length (decode set.entry.bytes.now).rules)) result.marks result.added result.count }
    {
        let marks = [0u16; STATES];
        let mut round = Round {
            marks,
            added: [0u16; STATES],
            count: 0,
        };
        for i in 0..set.rules {
            round.try_rule(set, &marks, i);
        }
        round
    }

    // The round after this one tries the rules that name one of the states that this one marks.
    fn next(&self, set: SoundSet, lists: &Lists) -> Round
        requires { Linked (decode set.bytes.now) (places_of (decode set.bytes.now)) lists.now.last lists.now.before }
        ensures { Propagated (decode set.entry.bytes.now) self.now.marks self.now.added self.now.count result.marks result.added result.count }
    {
        let mut round = Round {
            marks: self.marks,
            added: [0u16; STATES],
            count: 0,
        };
        for x in 0..self.count {
            round.propagate(set, &self.marks, lists, state_at(&self.added, x));
        }
        round
    }

    // The lowest final state that the round marks, where one is final.
    fn lowest_final(&self, set: SoundSet) -> Option<State>
        ensures { LowestAdded (decode set.entry.bytes.now) self.now.added self.now.count result }
    {
        let mut best = None;
        for x in 0..self.count {
            let q = state_at(&self.added, x);
            if is_final(set.bytes, q) & is_lower(q, best) {
                best = Some(q);
            }
        }
        best
    }
}

// Rounds, until one marks a final state or adds nothing, which finds none.
pub(crate) fn mark(set: SoundSet) -> Option<Marking>
    ensures { Marks (decode set.entry.bytes.now) result }
{
    let lists = Lists::of(set);
    let mut round = Round::first(set);
    for n in 0..set.states {
        if let Some(state) = round.lowest_final(set) {
            return Some(Marking {
                state,
                round: n + 1,
                marks: round.marks,
            });
        }
        if round.count == 0 {
            return None;
        }
        round = round.next(set, &lists);
    }
    None
}
