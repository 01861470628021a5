// The states of a union, and of a product.
ghost use Rattle.std.specs.Prelude.{◌+◌, ◌≤◌, length};
ghost use Rattle.model.specs.Boolean.{union, product};
ghost use Rattle.automaton.specs.Stored.{decode};
ghost use Rattle.automaton.specs.Encode.{encode_states};
ghost use Rattle.automaton.specs.Laid.{Laid};
ghost use Rattle.boolean.specs.Ready.{Ready};

use super::Sets;
use automaton::copy::{moved_up, put_states};
use automaton::write::put_state;
use automaton::{Form, State};

// The first's states, then the second's, their tags behind the first's.
pub(crate) fn put_both_states(out: &mut [u8], at: usize, form: Form, sets: Sets) -> usize
    requires { Ready sets.first.now sets.second.now (union (decode sets.first.now) (decode sets.second.now)) × (at + length (encode_states form (union (decode sets.first.now) (decode sets.second.now)).states) ≤ length out.old) }
    ensures { Laid out.old out.new at result (encode_states form (union (decode sets.entry.first.now) (decode sets.entry.second.now)).states) }
{
    let firsts = put_states(out, at, form, sets.first, 0);
    put_states(
        out,
        firsts,
        form,
        sets.second,
        automaton::header(sets.first).tags,
    )
}

// The pairs of states.
pub(crate) fn put_pair_states(out: &mut [u8], at: usize, form: Form, sets: Sets) -> usize
    requires { Ready sets.first.now sets.second.now (product (decode sets.first.now) (decode sets.second.now)) × (at + length (encode_states form (product (decode sets.first.now) (decode sets.second.now)).states) ≤ length out.old) }
    ensures { Laid out.old out.new at result (encode_states form (product (decode sets.entry.first.now) (decode sets.entry.second.now)).states) }
{
    let a = automaton::header(sets.first);
    let b = automaton::header(sets.second);
    let n = a.states * b.states;
    let mut end = at;
    for i in 0..n {
        let p = State(i / b.states);
        let q = State(i % b.states);
        let accepting = automaton::is_final(sets.first, p) & automaton::is_final(sets.second, q);
        let mask = automaton::tags_of(sets.first, p)
            + moved_up(automaton::tags_of(sets.second, q), a.tags);
        end = put_state(out, end, form, accepting, mask);
    }
    end
}
