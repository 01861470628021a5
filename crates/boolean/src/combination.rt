// What differs between the union and the product of two sets: how large it is, its states and its rules.
ghost use Rattle.std.specs.Prelude.{◌≡◌, List, ℕ, ◌+◌, ◌≤◌, length};
ghost use Rattle.model.specs.Automaton.{Automaton};
ghost use Rattle.model.specs.Boolean.{union, product};
ghost use Rattle.model.specs.Limits.{max_rules};
ghost use Rattle.model.specs.Sound.{Sound};
ghost use Rattle.automaton.specs.Stored.{decode};
ghost use Rattle.automaton.specs.Encode.{encode_states};
ghost use Rattle.automaton.specs.Laid.{Laid};
ghost use Rattle.boolean.specs.Ready.{Ready, Sized, Keyed};
ghost use Rattle.boolean.specs.Sounds.{ready_union, ready_product, union_symbols, product_symbols};

use super::rules::{product_keys, union_keys};
use super::states::{put_both_states, put_pair_states};
use super::{Sets, Size, pairs};
use automaton::Form;
use base::limits::MAX_RULES;

// Keys that a result has at most.
pub(crate) const MOST_KEYS: usize = MAX_RULES as usize;

pub(crate) trait Combination {
    ghost made: { Automaton → Automaton → Automaton };

    fn size(sets: Sets) -> Size
        ensures { Sized result (made (decode sets.entry.first.now) (decode sets.entry.second.now)) };

    fn put_states(out: &mut [u8], at: usize, form: Form, sets: Sets) -> usize
        requires { Ready sets.first.now sets.second.now (made (decode sets.first.now) (decode sets.second.now)) × (at + length (encode_states form (made (decode sets.first.now) (decode sets.second.now)).states) ≤ length out.old) }
        ensures { Laid out.old out.new at result (encode_states form (made (decode sets.entry.first.now) (decode sets.entry.second.now)).states) };

    // The keys of the rules, at the front of a space; answers how many.
    fn keys(sets: Sets, keys: &mut [u64]) -> usize
        requires { Ready sets.first.now sets.second.now (made (decode sets.first.now) (decode sets.second.now)) × (max_rules ≤ length keys.old) }
        ensures { Keyed (made (decode sets.entry.first.now) (decode sets.entry.second.now)) keys.new result };

    ghost sound: { (first second : List ℕ) → Ready first second (made (decode first) (decode second)) → Sound (made (decode first) (decode second)) };

    ghost symbols: { (A B : Automaton) → (made A B).arities ≡ A.arities };
}

// What either set accepts.
pub(crate) struct Union;

impl Combination for Union {
    ghost made = { union };

    ghost sound = { ready_union };

    ghost symbols = { union_symbols };

    fn size(sets: Sets) -> Size {
        let a = automaton::header(sets.first);
        let b = automaton::header(sets.second);
        Size {
            states: usize::from(a.states) + usize::from(b.states),
            tags: usize::from(a.tags) + usize::from(b.tags),
            rules: usize::from(a.rules) + usize::from(b.rules),
        }
    }

    fn put_states(out: &mut [u8], at: usize, form: Form, sets: Sets) -> usize {
        put_both_states(out, at, form, sets)
    }

    fn keys(sets: Sets, keys: &mut [u64]) -> usize {
        let mut runs = [0u64; MOST_KEYS];
        union_keys(sets, &mut runs, keys)
    }
}

// What both sets accept.
pub(crate) struct Product;

impl Combination for Product {
    ghost made = { product };

    ghost sound = { ready_product };

    ghost symbols = { product_symbols };

    // The numbers of two sets' states may be multiplied: each is small.
    fn size(sets: Sets) -> Size {
        let a = automaton::header(sets.first);
        let b = automaton::header(sets.second);
        Size {
            states: usize::from(a.states) * usize::from(b.states),
            tags: usize::from(a.tags) + usize::from(b.tags),
            rules: pairs::count(sets),
        }
    }

    fn put_states(out: &mut [u8], at: usize, form: Form, sets: Sets) -> usize {
        put_pair_states(out, at, form, sets)
    }

    fn keys(sets: Sets, keys: &mut [u64]) -> usize {
        product_keys(sets, keys)
    }
}
