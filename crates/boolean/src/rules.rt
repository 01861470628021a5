// The keys of a result's rules, in order.
ghost use Rattle.std.specs.Prelude.{◌≡◌, ◌≤◌, length};
ghost use Rattle.model.specs.Limits.{max_rules};
ghost use Rattle.model.specs.Boolean.{union, product};
ghost use Rattle.automaton.specs.Stored.{decode};
ghost use Rattle.boolean.specs.Ready.{Ready, Keyed};

use super::Sets;
use super::keys::shifted_keys;
use super::merge::merge;
use super::pairs::pair_keys;

// The keys of a union's rules, at the front of a space: those of the first's rules merged with those of the second's, shifted. Answers how many.
pub(crate) fn union_keys(sets: Sets, runs: &mut [u64], keys: &mut [u64]) -> usize
    requires { Ready sets.first.now sets.second.now (union (decode sets.first.now) (decode sets.second.now)) × (max_rules ≤ length runs.old) × (max_rules ≤ length keys.old) }
    ensures { Keyed (union (decode sets.entry.first.now) (decode sets.entry.second.now)) keys.new result }
{
    let a = automaton::header(sets.first);
    let n = usize::from(a.rules);
    let m = n + usize::from(automaton::header(sets.second).rules);
    shifted_keys(sets.first, 0, 0, &mut runs[..n]);
    shifted_keys(sets.second, a.states, a.tags, &mut runs[n..m]);
    merge(&runs[..m], n, &mut keys[..m]);
    m
}

// The keys of a product's rules, at the front of a space: those of the pairs of rules, sorted. Answers how many.
pub(crate) fn product_keys(sets: Sets, keys: &mut [u64]) -> usize
    requires { Ready sets.first.now sets.second.now (product (decode sets.first.now) (decode sets.second.now)) × (max_rules ≤ length keys.old) }
    ensures { Keyed (product (decode sets.entry.first.now) (decode sets.entry.second.now)) keys.new result }
{
    let n = pair_keys(sets, keys);
    keys[..n].sort_unstable();
    n
}
