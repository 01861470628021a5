// The rules' child places, numbered rule by rule, four to a rule; for each state a list of the places that name it, the last first.
ghost use Rattle.std.specs.Prelude.{◌≡◌, ◌+◌, ◌*◌, ◌<◌, length};
ghost use Rattle.model.specs.Limits.{max_rules, max_children};
ghost use Rattle.automaton.specs.Stored.{decode};
ghost use Rattle.emptiness.specs.Places.{child_at, places_of, Linked};

use crate::SoundSet;
use automaton::{State, rule_child};
use base::limits::{MAX_CHILDREN, MAX_RULES, MAX_STATES, PLACES};

// Cells for every state, and for every child place of the rules.
pub const STATES: usize = MAX_STATES as usize;

pub const RULE_PLACES: usize = MAX_RULES as usize * PLACES;

// The state at place p, or UNUSED.
fn child_at(set: &[u8], p: u16) -> State
    ensures { result.0 ≡ child_at (decode set.now) p }
{
    rule_child(set, p / MAX_CHILDREN, p % MAX_CHILDREN)
}

// The lists of all states: the last place that names a state, and for each place the one before it in its list; 1 more than its number, or 0 for none.
// Numbers, not Options: those would take twice the fixed memory.
#[derive(Clone, Copy)]
pub(crate) struct Lists {
    pub(crate) last: [u16; STATES],
    pub(crate) before: [u16; RULE_PLACES],
}

impl Lists {
    // Puts place p at the front of its state's list.
    fn link(&mut self, set: &[u8], p: u16)
        requires { p < max_rules * max_children }
        ensures { Linked (decode set.now) p self.old.last self.old.before → Linked (decode set.now) (p + 1) self.new.last self.new.before }
    {
        let q = child_at(set, p);
        let end = usize::from(q.0);
        if end >= STATES {
            return;
        }
        self.before[usize::from(p)] = self.last[end];
        self.last[end] = p + 1;
    }

    // The lists over all places of a set.
    pub(crate) fn of(set: SoundSet) -> Lists
        ensures { Linked (decode set.entry.bytes.now) (places_of (decode set.entry.bytes.now)) result.last result.before }
    {
        let mut lists = Lists {
            last: [0u16; STATES],
            before: [0u16; RULE_PLACES],
        };
        for p in 0..set.rules * MAX_CHILDREN {
            lists.link(set.bytes, p);
        }
        lists
    }
}
