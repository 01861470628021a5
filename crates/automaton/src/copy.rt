// The parts of a set, written again: its symbols, its states and its rules, each whole where it fits; else nothing is written and the place itself is the
// answer.
ghost use Rattle.std.specs.Prelude.{◌≡◌, map, ◌*◌, ◌%◌, ◌^◌};
ghost use Rattle.model.specs.Lists.{concat_map};
ghost use Rattle.model.specs.Boolean.{shift_state};
ghost use Rattle.automaton.specs.Stored.{decode};
ghost use Rattle.automaton.specs.Encode.{encode_symbol, encode_rule, encode_states, Put};

use super::layout::{rules_length, states_length};
use super::write::{fits, put_rule, put_state, put_symbol};
use super::{Form, State, arity, header, is_final, rule, tags_of};

pub fn put_symbols(out: &mut [u8], at: usize, set: &[u8]) -> usize
    ensures { Put out.old at (concat_map encode_symbol (decode set.now).arities) out.new result }
{
    let n = header(set).symbols;
    if !fits(out.len(), at, usize::from(n)) {
        return at;
    }
    let mut end = at;
    for f in 0..n {
        end = put_symbol(out, end, arity(set, f));
    }
    end
}

// A mask moved up by t tags; what goes past 16 bits is lost.
pub fn moved_up(mask: u16, t: u16) -> u16
    ensures { result ≡ mask * 2 ^ t % 65536 }
{
    if t < 16 {
        ((u64::from(mask) << t) % 65536) as u16
    } else {
        0
    }
}

// The states in a form, their tags moved up by t.
pub fn put_states(out: &mut [u8], at: usize, form: Form, set: &[u8], t: u16) -> usize
    ensures { Put out.old at (encode_states form (map (shift_state t) (decode set.now).states)) out.new result }
{
    let n = header(set).states;
    if !fits(out.len(), at, states_length(form, n)) {
        return at;
    }
    let mut end = at;
    for q in 0..n {
        let accepting = is_final(set, State(q));
        let mask = moved_up(tags_of(set, State(q)), t);
        end = put_state(out, end, form, accepting, mask);
    }
    end
}

// The rules in a form; what it has no place for is left out.
pub fn put_rules(out: &mut [u8], at: usize, form: Form, set: &[u8]) -> usize
    ensures { Put out.old at (concat_map (encode_rule form) (decode set.now).rules) out.new result }
{
    let n = header(set).rules;
    if !fits(out.len(), at, rules_length(form, n)) {
        return at;
    }
    let mut end = at;
    for i in 0..n {
        end = put_rule(out, end, form, rule(set, i));
    }
    end
}
