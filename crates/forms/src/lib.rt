// A stored set moved from one form to another: the automaton that it stands for is the same.
#![tactic(auto)]

ghost use Rattle.std.specs.Prelude.{◌≡◌, ◌||◌, ◌++◌, ◌≤◌, length, drop};
ghost use Rattle.model.specs.Automaton.{forgets_nothing?};
ghost use Rattle.base.specs.Refusals.{refused_by};
ghost use Rattle.automaton.specs.declared.Form.TheVariants.{Narrow, Wide, Isolating};
ghost use Rattle.automaton.specs.Form.{isolating?};
ghost use Rattle.automaton.specs.Stored.{decode};
ghost use Rattle.automaton.specs.Encode.{encode, encoded_length};
ghost use Rattle.automaton.specs.Answer.{written_answer};
ghost use Rattle.forms.specs.Move.{move_check_of, moved_of, moved_space};

use automaton::Form;
use automaton::copy::{put_rules, put_states, put_symbols};
use automaton::layout::{isolating, tag_bits, total_length};
use automaton::write::put_header;
use base::refusal::Refusal;

// The length of a set in a form.
fn length_in(form: Form, set: &[u8]) -> usize
    ensures { result ≡ encoded_length form (decode set.now) }
{
    let h = automaton::header(set);
    total_length(form, h.symbols, h.states, h.rules)
}

// Whether a form has a place for what the rules of a set forget: rules without masks forget nothing, and are not looked at.
fn keeps_masks(form: Form, set: &[u8]) -> bool
    ensures { result ≡ isolating? form || forgets_nothing? (decode set.now) }
{
    isolating(form) | !isolating(automaton::form_of(set)) || automaton::forgets_nothing(set)
}

// Why a set to be moved is refused, in a space of so many bytes.
fn refusal(from: Form, to: Form, set: &[u8], space: usize) -> Result<(), Refusal>
    ensures { refused_by result ≡ move_check_of from to set.now space }
{
    automaton::check(set)?;
    if set.len() != length_in(from, set) {
        return Err(Refusal::SetForm);
    }
    if tag_bits(to) < automaton::header(set).tags {
        return Err(Refusal::SetTags);
    }
    if !keeps_masks(to, set) {
        return Err(Refusal::RuleForgets);
    }
    if space < length_in(to, set) {
        return Err(Refusal::ResultSpace);
    }
    Ok(())
}

// A set written in a form: header, symbols, states, rules.
fn put_set(out: &mut [u8], form: Form, set: &[u8]) -> usize
    requires { encoded_length form (decode set.now) ≤ length out.old }
    ensures { (result ≡ encoded_length form (decode set.now)) × (out.new ≡ encode form (decode set.now) ++ drop result out.old) }
{
    let h = automaton::header(set);
    let symbols = put_header(out, form, h.symbols, h.states, h.tags, h.rules);
    let states = put_symbols(out, symbols, set);
    let rules = put_states(out, states, form, set, 0);
    put_rules(out, rules, form, set)
}

fn moved(from: Form, to: Form, set: &[u8], out: &mut [u8]) -> Result<usize, Refusal>
    ensures answer { written_answer result ≡ moved_of from to set.now out.old }
    ensures space { out.new ≡ moved_space from to set.now out.old }
{
    refusal(from, to, set, out.len())?;
    Ok(put_set(out, to, set))
}

// An old set with two bytes for the tags of a state.
pub fn widen_states(set: &[u8], out: &mut [u8]) -> Result<usize, Refusal>
    ensures answer { written_answer result ≡ moved_of Narrow Wide set.now out.old }
    ensures space { out.new ≡ moved_space Narrow Wide set.now out.old }
{
    moved(Form::Narrow, Form::Wide, set, out)
}

// A wide set of at most 8 tags, its rules of 12 bytes, with one byte for the tags of a state.
pub fn narrow_states(set: &[u8], out: &mut [u8]) -> Result<usize, Refusal>
    ensures answer { written_answer result ≡ moved_of Wide Narrow set.now out.old }
    ensures space { out.new ≡ moved_space Wide Narrow set.now out.old }
{
    moved(Form::Wide, Form::Narrow, set, out)
}

// A wide set with rules of 14 bytes instead of 12, which forget nothing.
pub fn widen_rules(set: &[u8], out: &mut [u8]) -> Result<usize, Refusal>
    ensures answer { written_answer result ≡ moved_of Wide Isolating set.now out.old }
    ensures space { out.new ≡ moved_space Wide Isolating set.now out.old }
{
    moved(Form::Wide, Form::Isolating, set, out)
}

// A set whose rules of 14 bytes forget nothing, with rules of 12 bytes.
pub fn narrow_rules(set: &[u8], out: &mut [u8]) -> Result<usize, Refusal>
    ensures answer { written_answer result ≡ moved_of Isolating Wide set.now out.old }
    ensures space { out.new ≡ moved_space Isolating Wide set.now out.old }
{
    moved(Form::Isolating, Form::Wide, set, out)
}
