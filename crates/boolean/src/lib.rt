// Union and product of two stored automata, written in the wide form, or in the one with rules that forget tags if either has such rules.
#![tactic(auto)]

ghost use Rattle.std.specs.Prelude.{◌≡◌, eqb, leb};
ghost use Rattle.model.specs.Automaton.{arity_of};
ghost use Rattle.model.specs.Boolean.{union, product};
ghost use Rattle.model.specs.Refusal.{demand, and_after};
ghost use Rattle.base.specs.Refusals.{refused_by};
ghost use Rattle.automaton.specs.Form.{total_length};
ghost use Rattle.automaton.specs.Stored.{decode};
ghost use Rattle.automaton.specs.Check.{check_of};
ghost use Rattle.automaton.specs.Answer.{written_answer};
ghost use Rattle.boolean.specs.Combine.{result_form, same_symbols, within_limits};
ghost use Rattle.boolean.specs.Answer.{combined_of, combined_space};

mod combination;
mod keys;
mod merge;
mod pairs;
mod rules;
mod states;
mod write;

use automaton::Form;
use automaton::layout::{isolating, total_length};
use base::limits::{MAX_RULES, MAX_STATES, MAX_TAGS};
use base::refusal::Refusal;
use combination::{Combination, Product, Union};

// How large a result is; the numbers of two sets' states and rules may be multiplied.
#[derive(Clone, Copy)]
struct Size {
    states: usize,
    tags: usize,
    rules: usize,
}

// Two sound sets with the same symbols.
#[derive(Clone, Copy)]
pub(crate) struct Sets<'a> {
    pub(crate) first: &'a [u8],
    pub(crate) second: &'a [u8],
    ghost first_sound: { check_of first.now ≡ 0 },
    ghost second_sound: { check_of second.now ≡ 0 },
    ghost same: { (decode first.now).arities ≡ (decode second.now).arities },
}

// Whether symbol f has as many children in both sets.
fn same_arity(first: &[u8], second: &[u8], f: u16) -> bool
    ensures { result ≡ eqb (arity_of (decode first.now) f) (arity_of (decode second.now) f) }
{
    automaton::arity(first, f) == automaton::arity(second, f)
}

fn same_symbols(first: &[u8], second: &[u8]) -> bool
    ensures { result ≡ same_symbols (decode first.now) (decode second.now) }
{
    let n = automaton::header(first).symbols;
    n == automaton::header(second).symbols && (0..n).all(|f| same_arity(first, second, f))
}

// Why the two sets are refused, before their result is looked at.
fn inputs(first: &[u8], second: &[u8]) -> Result<(), Refusal>
    ensures { refused_by result ≡ and_after (check_of first.now) (and_after (check_of second.now) (demand (same_symbols (decode first.now) (decode second.now)) 51 0)) }
{
    automaton::check(first)?;
    automaton::check(second)?;
    if same_symbols(first, second) {
        Ok(())
    } else {
        Err(Refusal::SetsDiffer)
    }
}

fn within_limits(size: Size) -> bool
    ensures { result ≡ within_limits size.states size.tags size.rules }
{
    (size.states <= usize::from(MAX_STATES))
        & (size.tags <= usize::from(MAX_TAGS))
        & (size.rules <= usize::from(MAX_RULES))
}

// Why a result of so many symbols and this size is refused, in a form and a space of so many bytes.
fn result(form: Form, symbols: u16, size: Size, space: usize) -> Result<(), Refusal>
    ensures { refused_by result ≡ demand (within_limits size.states size.tags size.rules) 52 (demand (leb (total_length form symbols size.states size.rules) space) 53 0) }
{
    if !within_limits(size) {
        return Err(Refusal::ResultLimits);
    }
    if total_length(form, symbols, size.states as u16, size.rules as u16) <= space {
        Ok(())
    } else {
        Err(Refusal::ResultSpace)
    }
}

// The form that a result is written in.
fn result_form(first: &[u8], second: &[u8]) -> Form
    ensures { result ≡ result_form first.now second.now }
{
    if isolating(automaton::form_of(first)) | isolating(automaton::form_of(second)) {
        Form::Isolating
    } else {
        Form::Wide
    }
}

fn combine<C: Combination>(first: &[u8], second: &[u8], out: &mut [u8]) -> Result<usize, Refusal>
    ensures answer { written_answer result ≡ combined_of C.made first.now second.now out.old }
    ensures space { out.new ≡ combined_space C.made first.now second.now out.old }
{
    inputs(first, second)?;
    let sets = Sets { first, second };
    let size = C::size(sets);
    let form = result_form(first, second);
    result(form, automaton::header(first).symbols, size, out.len())?;
    Ok(write::put_result::<C>(sets, form, size, out))
}

// The union: what either set accepts.
pub fn union(first: &[u8], second: &[u8], out: &mut [u8]) -> Result<usize, Refusal>
    ensures answer { written_answer result ≡ combined_of union first.now second.now out.old }
    ensures space { out.new ≡ combined_space union first.now second.now out.old }
{
    combine::<Union>(first, second, out)
}

// The product: what both sets accept.
pub fn product(first: &[u8], second: &[u8], out: &mut [u8]) -> Result<usize, Refusal>
    ensures answer { written_answer result ≡ combined_of product first.now second.now out.old }
    ensures space { out.new ≡ combined_space product first.now second.now out.old }
{
    combine::<Product>(first, second, out)
}
