// The stored forms of an automaton: their check, what they say by index, and their writing (`write`).
#![tactic(auto)]

ghost use Rattle.std.specs.Prelude.{◌≡◌, map, eqb, length};
ghost use Rattle.model.specs.Automaton.{state_at, arity_of, final?, forgets_nothing?};
ghost use Rattle.model.specs.Limits.{max_children};
ghost use Rattle.model.specs.Lists.{tab};
ghost use Rattle.model.specs.Order.{place};
ghost use Rattle.model.specs.Refusal.{unless};
ghost use Rattle.model.specs.Written.{rule_at};
ghost use Rattle.automaton.specs.Stored.{form_of, place_of, decode};
ghost use Rattle.automaton.specs.Check.{check_of};
ghost use Rattle.automaton.specs.Window.{rules_from};
ghost use Rattle.automaton.specs.Answer.{check_answer, Counts, IsRule};

pub mod copy;
pub mod layout;
mod raw;
pub mod reader;
mod slice;
mod tests;
mod views;
pub mod write;

use base::limits::{MAX_CHILDREN, UNUSED};
use base::refusal::Refusal;
use layout::HEADER_WIDTH;
use raw::{form_at, header_word, symbol_byte, symbols_at};
use views::{Rules, States};

// A stored form: one byte for a state's tags, or two; and two with rules that may forget tags.
#[derive(Clone, Copy)]
pub enum Form {
    Narrow,
    Wide,
    Isolating,
}

// A state's number.
#[derive(Clone, Copy)]
pub struct State(pub u16);

// What the header says.
#[derive(Clone, Copy)]
pub struct StoredHeader {
    pub symbols: u16,
    pub states: u16,
    pub tags: u16,
    pub rules: u16,
    pub total: u16,
}

// A rule with its child places and the tags that it forgets, bit k for tag k; an unused place is State(UNUSED).
#[derive(Clone, Copy)]
pub struct StoredRule {
    pub symbol: u16,
    pub target: State,
    pub places: [State; 4],
    pub forget: u16,
}

// Whether bytes are a sound set.
pub fn check(set: &[u8]) -> Result<(), Refusal>
    ensures { check_answer result ≡ unless (check_of set.now) tt }
{
    if set.len() < HEADER_WIDTH {
        return Err(Refusal::SetTooShort);
    }
    if !tests::counts(set) {
        return Err(Refusal::SetCounts);
    }
    if !tests::offsets(set) {
        return Err(Refusal::SetLengths);
    }
    if !tests::symbols(set) {
        return Err(Refusal::SetChildren);
    }
    if !tests::states(set) {
        return Err(Refusal::SetState);
    }
    if !tests::rules(set) {
        return Err(Refusal::SetRule);
    }
    if !tests::ascending(set) {
        return Err(Refusal::SetOrder);
    }
    if !tests::forgetting(set) {
        return Err(Refusal::SetForgets);
    }
    Ok(())
}

// The form that the bytes are in.
pub fn form_of(set: &[u8]) -> Form
    ensures { result ≡ form_of set.now }
{
    form_at(set)
}

pub fn header(set: &[u8]) -> StoredHeader
    ensures { Counts result set.now }
{
    StoredHeader {
        symbols: header_word(set, 0),
        states: header_word(set, 2),
        tags: header_word(set, 4),
        rules: header_word(set, 6),
        total: header_word(set, 14),
    }
}

// The number of rules.
fn rules(set: &[u8]) -> u16
    ensures { result ≡ length (decode set.now).rules }
{
    header_word(set, 6)
}

pub fn arity(set: &[u8], symbol: u16) -> u16
    ensures { result ≡ arity_of (decode set.now) symbol }
{
    if symbol < header_word(set, 0) {
        symbol_byte(set, symbols_at(set), symbol)
    } else {
        0
    }
}

pub fn is_final(set: &[u8], q: State) -> bool
    ensures { result ≡ final? (decode set.now) q.0 }
{
    if q.0 < header_word(set, 2) {
        States::of(set).final_byte(q) == 1
    } else {
        false
    }
}

// The tags of a state, bit k for tag k.
pub fn tags_of(set: &[u8], q: State) -> u16
    ensures { result ≡ (state_at (decode set.now) q.0).mask }
{
    if q.0 < header_word(set, 2) {
        States::of(set).tags(q)
    } else {
        0
    }
}

pub fn rule_symbol(set: &[u8], i: u16) -> u16
    ensures { result ≡ (rule_at (decode set.now) i).symbol }
{
    if i < rules(set) {
        Rules::of(set).word(i, 0)
    } else {
        0
    }
}

pub fn rule_target(set: &[u8], i: u16) -> State
    ensures { result.0 ≡ (rule_at (decode set.now) i).target }
{
    if i < rules(set) {
        State(Rules::of(set).word(i, 1))
    } else {
        State(0)
    }
}

// The tags that a rule forgets, bit k for tag k.
pub fn rule_forget(set: &[u8], i: u16) -> u16
    ensures { result ≡ (rule_at (decode set.now) i).forget }
{
    if i < rules(set) {
        Rules::of(set).forget(i)
    } else {
        0
    }
}

// The state in child place k of rule i, whose symbol has n children; UNUSED where there is no such child.
fn place_of(stored: Rules, i: u16, n: u16, k: u16) -> State
    ensures { result.0 ≡ place_of stored.entry.set.now i n k }
{
    if k < n {
        State(stored.place(i, k))
    } else {
        State(UNUSED)
    }
}

// The state in child place k of rule i; UNUSED where the rule's symbol has no such child, whatever stands in the bytes, and where there is no such rule.
pub fn rule_child(set: &[u8], i: u16, k: u16) -> State
    ensures { result.0 ≡ place (rule_at (decode set.now) i) k }
{
    if i < rules(set) {
        let stored = Rules::of(set);
        let n = arity(set, stored.word(i, 0));
        place_of(stored, i, n, k)
    } else {
        State(UNUSED)
    }
}

// The child places of rule i, whose symbol has n children.
fn places_of(stored: Rules, i: u16, n: u16) -> [State; 4]
    ensures { map (λ q. q.0) result ≡ tab max_children (place_of stored.entry.set.now i n) }
{
    [0, 1, 2, 3].map(|k| place_of(stored, i, n, k))
}

pub fn rule(set: &[u8], i: u16) -> StoredRule
    ensures { IsRule result (rule_at (decode set.now) i) }
{
    if i < rules(set) {
        let stored = Rules::of(set);
        let symbol = stored.word(i, 0);
        let places = places_of(stored, i, arity(set, symbol));
        StoredRule {
            symbol,
            target: State(stored.word(i, 1)),
            places,
            forget: stored.forget(i),
        }
    } else {
        StoredRule {
            symbol: 0,
            target: State(0),
            places: [State(UNUSED); 4],
            forget: 0,
        }
    }
}

// Rule i names no tag to forget.
fn keeps_all(set: &[u8], i: u16) -> bool
    ensures { result ≡ eqb (rule_at (decode set.now) i).forget 0 }
{
    rule_forget(set, i) == 0
}

// No rule names a tag to forget.
pub fn forgets_nothing(set: &[u8]) -> bool
    ensures { result ≡ forgets_nothing? (decode set.now) }
{
    (0..rules(set)).all(|i| keeps_all(set, i))
}

// Where bisection for the first rule whose symbol is the given one or higher ends; in a sound set that is the rule's number, or the number of rules.
pub fn rules_from(set: &[u8], symbol: u16) -> u16
    ensures { result ≡ rules_from (decode set.now) symbol }
{
    let stored = Rules::of(set);
    let mut low = 0;
    let mut high = rules(set);
    while low < high {
        let middle = low + (high - low) / 2;
        if stored.word(middle, 0) < symbol {
            low = middle + 1;
        } else {
            high = middle;
        }
    }
    low
}
