// The stored forms: their widths and places, each stated once.
ghost use Rattle.std.specs.Prelude.{◌≡◌, ◌+◌, ◌*◌, ◌<◌};
ghost use Rattle.automaton.specs.Form.{state_width, tag_bits, rule_numbers, rule_width, isolating?, states_offset, rules_offset, total_length};

use super::{Form, State};

// The bytes of the header, in every form.
pub(crate) const HEADER_WIDTH: usize = 16;

// The bytes of a state.
pub(crate) fn state_width(form: Form) -> usize
    ensures { (result ≡ state_width form) × (result < 4) }
{
    match form {
        Form::Narrow => 2,
        Form::Wide => 3,
        Form::Isolating => 3,
    }
}

// The numbers of a rule: one more where rules forget tags.
pub(crate) fn rule_numbers(form: Form) -> usize
    ensures { (result ≡ rule_numbers form) × (result < 8) }
{
    match form {
        Form::Narrow => 6,
        Form::Wide => 6,
        Form::Isolating => 7,
    }
}

// The bytes of a rule.
fn rule_width(form: Form) -> usize
    ensures { (result ≡ rule_width form) × (result < 15) }
{
    2 * rule_numbers(form)
}

// How many tags a state has bits for.
pub fn tag_bits(form: Form) -> u16
    ensures { result ≡ tag_bits form }
{
    match form {
        Form::Narrow => 8,
        Form::Wide => 16,
        Form::Isolating => 16,
    }
}

// Whether rules in a form have a place for the tags that they forget.
pub fn isolating(form: Form) -> bool
    ensures { result ≡ isolating? form }
{
    match form {
        Form::Narrow => false,
        Form::Wide => false,
        Form::Isolating => true,
    }
}

// The bytes of n states.
pub(crate) fn states_length(form: Form, n: u16) -> usize
    ensures { (result ≡ state_width form * n) × (result < 196608) }
{
    state_width(form) * usize::from(n)
}

// The bytes of n rules.
pub(crate) fn rules_length(form: Form, n: u16) -> usize
    ensures { (result ≡ rule_width form * n) × (result < 917504) }
{
    rule_width(form) * usize::from(n)
}

// The byte at which state q starts, where the states start at byte `first`.
pub(crate) fn state_place(form: Form, first: u16, q: State) -> usize
    ensures { (result ≡ first + state_width form * q.0) × (result < 262144) }
{
    usize::from(first) + states_length(form, q.0)
}

// The byte at which rule i starts, where the rules start at byte `first`.
pub(crate) fn rule_place(form: Form, first: u16, i: u16) -> usize
    ensures { (result ≡ first + rule_width form * i) × (result < 983040) }
{
    usize::from(first) + rules_length(form, i)
}

pub(crate) fn states_offset(symbols: u16) -> usize
    ensures { (result ≡ states_offset symbols) × (result < 65552) }
{
    HEADER_WIDTH + usize::from(symbols)
}

pub(crate) fn rules_offset(form: Form, symbols: u16, states: u16) -> usize
    ensures { (result ≡ rules_offset form symbols states) × (result < 262160) }
{
    states_offset(symbols) + states_length(form, states)
}

// The bytes of a whole stored automaton.
pub fn total_length(form: Form, symbols: u16, states: u16, rules: u16) -> usize
    ensures { result ≡ total_length form symbols states rules }
{
    rules_offset(form, symbols, states) + rules_length(form, rules)
}
