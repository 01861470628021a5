// The states and the rules of a set, by index: the form and the header's offset of them are read once, for whoever reads several.
ghost use Rattle.std.specs.Prelude.{◌≡◌};
ghost use Rattle.automaton.specs.Stored.{states_at, rules_at, form_of, final_byte, tags_of, rule_word, place_word, forget_of};

use super::layout::{rule_place, state_place};
use super::raw::{byte_at, form_at, rules_at, states_at, tags_at};
use super::reader::number_at;
use super::{Form, State};

// The bytes of a rule before its child places: its symbol and its target.
const PLACES_AT: usize = 4;

// Which of a rule's numbers is the mask of the tags that it forgets.
const FORGET: u16 = 6;

#[derive(Clone, Copy)]
pub(crate) struct States<'a> {
    set: &'a [u8],
    form: Form,
    first: u16,
    ghost in_form: { form ≡ form_of set.now },
    ghost at_first: { first ≡ states_at set.now },
}

impl<'a> States<'a> {
    pub(crate) fn of(set: &'a [u8]) -> States<'a>
        ensures { result.set ≡ set.entry }
    {
        States {
            set,
            form: form_at(set),
            first: states_at(set),
        }
    }

    // The first byte of state q.
    pub(crate) fn final_byte(self, q: State) -> u16
        ensures { result ≡ final_byte self.entry.set.now q.0 }
    {
        byte_at(self.set, state_place(self.form, self.first, q))
    }

    // The tags of state q.
    pub(crate) fn tags(self, q: State) -> u16
        ensures { result ≡ tags_of self.entry.set.now q.0 }
    {
        tags_at(
            self.set,
            self.form,
            state_place(self.form, self.first, q) + 1,
        )
    }
}

#[derive(Clone, Copy)]
pub(crate) struct Rules<'a> {
    set: &'a [u8],
    form: Form,
    first: u16,
    ghost in_form: { form ≡ form_of set.now },
    ghost at_first: { first ≡ rules_at set.now },
}

impl<'a> Rules<'a> {
    pub(crate) fn of(set: &'a [u8]) -> Rules<'a>
        ensures { result.set ≡ set.entry }
    {
        Rules {
            set,
            form: form_at(set),
            first: rules_at(set),
        }
    }

    // Number k of rule i.
    pub(crate) fn word(self, i: u16, k: u16) -> u16
        ensures { result ≡ rule_word self.entry.set.now i k }
    {
        number_at(self.set, rule_place(self.form, self.first, i), k)
    }

    // What stands in child place k of rule i.
    pub(crate) fn place(self, i: u16, k: u16) -> u16
        ensures { result ≡ place_word self.entry.set.now i k }
    {
        number_at(
            self.set,
            rule_place(self.form, self.first, i) + PLACES_AT,
            k,
        )
    }

    // The tags that rule i forgets: none in a form that has no place for them.
    pub(crate) fn forget(self, i: u16) -> u16
        ensures { result ≡ forget_of self.entry.set.now i }
    {
        match self.form {
            Form::Narrow => 0,
            Form::Wide => 0,
            Form::Isolating => self.word(i, FORGET),
        }
    }
}
