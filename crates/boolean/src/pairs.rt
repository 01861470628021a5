// The pairs of rules with the same symbol: how many there are, and their keys.
ghost use Rattle.std.specs.Prelude.{◌≡◌, map, ◌+◌, ◌≤◌, ◌<◌, length};
ghost use Rattle.model.specs.Limits.{max_rules};
ghost use Rattle.model.specs.Written.{rule_at};
ghost use Rattle.model.specs.Boolean.{pair_rules, product};
ghost use Rattle.automaton.specs.Stored.{decode};
ghost use Rattle.automaton.specs.Check.{check_of};
ghost use Rattle.boolean.specs.Key.{packed};
ghost use Rattle.automaton.specs.Laid.{Laid};
ghost use Rattle.boolean.specs.Ready.{Ready, Window, row};

use super::Sets;
use super::keys::paired_key;
use std::ops::Range;

// The rules of one symbol.
fn window(set: &[u8], symbol: u16) -> Range<u16>
    requires { (check_of set.now ≡ 0) × (symbol < 65535) }
    ensures { Window (decode set.now) symbol result.start result.end }
{
    automaton::rules_from(set, symbol)..automaton::rules_from(set, symbol + 1)
}

// How many pairs there are.
pub(crate) fn count(sets: Sets) -> usize
    ensures { result ≡ length (product (decode sets.entry.first.now) (decode sets.entry.second.now)).rules }
{
    let n = automaton::header(sets.first).rules;
    let mut total = 0;
    for i in 0..n {
        let w = window(sets.second, automaton::rule_symbol(sets.first, i));
        total += usize::from(w.end - w.start);
    }
    total
}

// The keys of rule i of the first set paired with the second's rules, put at a place.
fn row_keys(sets: Sets, i: u16, keys: &mut [u64], at: usize) -> usize
    requires { (i < length (decode sets.first.now).rules) × (at + length (row (decode sets.first.now).tags (decode sets.second.now) (rule_at (decode sets.first.now) i)) ≤ length keys.old) }
    ensures { Laid keys.old keys.new at result (map packed (row (decode sets.entry.first.now).tags (decode sets.entry.second.now) (rule_at (decode sets.entry.first.now) i))) }
{
    let r = automaton::rule(sets.first, i);
    let tags = automaton::header(sets.first).tags;
    let states = automaton::header(sets.second).states;
    let w = window(sets.second, r.symbol);
    let n = w.end - w.start;
    for k in 0..n {
        let s = automaton::rule(sets.second, w.start + k);
        keys[at + usize::from(k)] = paired_key(r, s, states, tags);
    }
    at + usize::from(n)
}

// The keys of all pairs, at the front of a space; answers how many.
pub(crate) fn pair_keys(sets: Sets, keys: &mut [u64]) -> usize
    requires { Ready sets.first.now sets.second.now (product (decode sets.first.now) (decode sets.second.now)) × (max_rules ≤ length keys.old) }
    ensures { Laid keys.old keys.new 0 result (map packed (pair_rules (length (decode sets.entry.second.now).states) (decode sets.entry.first.now).tags (decode sets.entry.first.now).rules (decode sets.entry.second.now).rules)) }
{
    let n = automaton::header(sets.first).rules;
    let mut at = 0;
    for i in 0..n {
        at = row_keys(sets, i, keys, at);
    }
    at
}
