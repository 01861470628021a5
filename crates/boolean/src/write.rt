// Writing the result: header and symbols, states, rules.
ghost use Rattle.std.specs.Prelude.{◌+◌, ◌≤◌, ◌<◌, length};
ghost use Rattle.model.specs.Lists.{concat_map};
ghost use Rattle.automaton.specs.Stored.{decode};
ghost use Rattle.automaton.specs.Encode.{encode, encoded_length};
ghost use Rattle.automaton.specs.Laid.{Laid};
ghost use Rattle.boolean.specs.Key.{encode_key};
ghost use Rattle.boolean.specs.Ready.{Ready, Sized, front};

use super::combination::{Combination, MOST_KEYS};
use super::keys::unpack;
use super::{Sets, Size};
use automaton::Form;
use automaton::copy::put_symbols;
use automaton::write::{put_header, put_rule};

// The rules of keys, with the symbols of a set.
fn put_rules(out: &mut [u8], at: usize, form: Form, set: &[u8], keys: &[u64]) -> usize
    requires { at + length (concat_map (encode_key form (decode set.now).arities) keys.now) ≤ length out.old }
    ensures { Laid out.old out.new at result (concat_map (encode_key form (decode set.now).arities) keys.now) }
{
    let mut end = at;
    for x in keys {
        end = put_rule(out, end, form, unpack(*x, set));
    }
    end
}

// The header and the symbols of a result, which are those of the first set.
fn put_front(out: &mut [u8], form: Form, set: &[u8], size: Size) -> usize
    requires { (size.states < 65536) × (size.tags < 65536) × (size.rules < 65536) × (length (front form (decode set.now) size.states size.tags size.rules) ≤ length out.old) }
    ensures { Laid out.old out.new 0 result (front form (decode set.now) size.states size.tags size.rules) }
{
    let symbols = automaton::header(set).symbols;
    let at = put_header(
        out,
        form,
        symbols,
        size.states as u16,
        size.tags as u16,
        size.rules as u16,
    );
    put_symbols(out, at, set)
}

// A result: header and symbols, states, rules.
pub(crate) fn put_result<C: Combination>(
    sets: Sets,
    form: Form,
    size: Size,
    out: &mut [u8],
) -> usize
    requires { Ready sets.first.now sets.second.now (C.made (decode sets.first.now) (decode sets.second.now)) × Sized size (C.made (decode sets.first.now) (decode sets.second.now)) × (encoded_length form (C.made (decode sets.first.now) (decode sets.second.now)) ≤ length out.old) }
    ensures { Laid out.old out.new 0 result (encode form (C.made (decode sets.entry.first.now) (decode sets.entry.second.now))) }
{
    let at = put_front(out, form, sets.first, size);
    let states = C::put_states(out, at, form, sets);
    let mut keys = [0u64; MOST_KEYS];
    let n = C::keys(sets, &mut keys);
    put_rules(out, states, form, sets.first, &keys[..n])
}
