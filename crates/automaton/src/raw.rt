// What stands in the header and among the symbols, read through a reader of the set.
ghost use Rattle.std.specs.Prelude.{◌≡◌, ◌<◌, get_or};
ghost use Rattle.automaton.specs.Stored.{word, symbols_at, states_at, rules_at, form_of, symbol_byte, tags_at};

use super::Form;
use super::layout::{rules_length, states_length};
use super::reader::number_at;

// The header's number at byte `at`.
pub(crate) fn header_word(s: &[u8], at: usize) -> u16
    ensures { result ≡ word s.now at }
{
    number_at(s, at, 0)
}

// Where the symbols, the states and the rules start.
pub(crate) fn symbols_at(s: &[u8]) -> u16
    ensures { result ≡ symbols_at s.now }
{
    header_word(s, 8)
}

pub(crate) fn states_at(s: &[u8]) -> u16
    ensures { result ≡ states_at s.now }
{
    header_word(s, 10)
}

pub(crate) fn rules_at(s: &[u8]) -> u16
    ensures { result ≡ rules_at s.now }
{
    header_word(s, 12)
}

// The form that the header tells: in a wide one the rules stand as far behind the states as wide states are long, and the total tells how long rules are.
pub(crate) fn form_at(s: &[u8]) -> Form
    ensures { result ≡ form_of s.now }
{
    let end = usize::from(states_at(s)) + states_length(Form::Wide, header_word(s, 2));
    let first = usize::from(rules_at(s));
    if first != end {
        return Form::Narrow;
    }
    let total = first + rules_length(Form::Wide, header_word(s, 6));
    if usize::from(header_word(s, 14)) == total {
        Form::Wide
    } else {
        Form::Isolating
    }
}

// The byte at `at`: the low half of the number there.
pub(crate) fn byte_at(s: &[u8], at: usize) -> u16
    ensures { (result ≡ get_or s.now at 0) × (result < 256) }
{
    number_at(s, at, 0) % 256
}

// The byte of symbol i, where the symbols start at byte `first`.
pub(crate) fn symbol_byte(s: &[u8], first: u16, i: u16) -> u16
    requires { first ≡ symbols_at s.now }
    ensures { (result ≡ symbol_byte s.now i) × (result < 256) }
{
    byte_at(s, usize::from(first) + usize::from(i))
}

// The tags at byte `at`: a byte in the narrow form, a number in the others.
pub(crate) fn tags_at(s: &[u8], form: Form, at: usize) -> u16
    ensures { result ≡ tags_at form s.now at }
{
    match form {
        Form::Narrow => byte_at(s, at),
        Form::Wide => header_word(s, at),
        Form::Isolating => header_word(s, at),
    }
}
