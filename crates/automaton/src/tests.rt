// The check's tests 2 to 7 and 9, each over the whole input.
ghost use Rattle.std.specs.Prelude.{◌≡◌, ◌+◌, ◌-◌, ◌^◌, ◌≤◌, ◌<◌, eqb};
ghost use Rattle.model.specs.Limits.{max_children, max_tags};
ghost use Rattle.model.specs.Lists.{all_below};
ghost use Rattle.automaton.specs.Stored.{word, symbol_count, state_count, tag_count, rule_count, symbols_at, symbol_byte, rule_word};
ghost use Rattle.automaton.specs.Check.{counts_ok, offsets_ok, symbol_ok, state_ok, place_ok, rule_ok, key_word, ascends_at, forget_ok};
ghost use Rattle.automaton.specs.Frame.{Framed};

use super::State;
use super::layout::{HEADER_WIDTH, rules_offset, states_offset, tag_bits, total_length};
use super::raw::{form_at, header_word, symbol_byte, symbols_at};
use super::views::{Rules, States};
use base::limits::{MAX_CHILDREN, MAX_RULES, MAX_STATES, MAX_SYMBOLS, MAX_TAGS, UNUSED};

pub(crate) fn counts(set: &[u8]) -> bool
    ensures { result ≡ counts_ok set.now }
{
    let s = header_word(set, 0);
    let q = header_word(set, 2);
    (1 <= s)
        & (s <= MAX_SYMBOLS)
        & (1 <= q)
        & (q <= MAX_STATES)
        & (header_word(set, 4) <= MAX_TAGS)
        & (header_word(set, 6) <= MAX_RULES)
}

// Whether the header's number at byte `at` is x.
fn holds(set: &[u8], at: usize, x: usize) -> bool
    ensures { result ≡ eqb (word set.now at) x }
{
    usize::from(header_word(set, at)) == x
}

pub(crate) fn offsets(set: &[u8]) -> bool
    ensures { result ≡ offsets_ok set.now }
{
    let s = header_word(set, 0);
    let q = header_word(set, 2);
    let form = form_at(set);
    let end = total_length(form, s, q, header_word(set, 6));
    holds(set, 8, HEADER_WIDTH)
        & holds(set, 10, states_offset(s))
        & holds(set, 12, rules_offset(form, s, q))
        & holds(set, 14, end)
        & (set.len() == end)
        & (header_word(set, 4) <= tag_bits(form))
}

// Symbol i, where the symbols start at byte `first`.
fn symbol(set: &[u8], first: u16, i: u16) -> bool
    requires { first ≡ symbols_at set.now }
    ensures { result ≡ symbol_ok set.now i }
{
    symbol_byte(set, first, i) <= MAX_CHILDREN
}

pub(crate) fn symbols(set: &[u8]) -> bool
    ensures { result ≡ all_below (symbol_count set.now) (symbol_ok set.now) }
{
    let first = symbols_at(set);
    (0..header_word(set, 0)).all(|i| symbol(set, first, i))
}

// The masks of t tags are below this.
fn power(t: u16) -> usize
    requires { t ≤ max_tags }
    ensures { result ≡ 2 ^ t }
{
    1 << t
}

// State q, where a mask is below `bound`.
fn state(states: States, q: State, bound: usize) -> bool
    requires { bound ≡ 2 ^ tag_count states.set.now }
    ensures { result ≡ state_ok states.entry.set.now q.0 }
{
    (states.final_byte(q) <= 1) & (usize::from(states.tags(q)) < bound)
}

pub(crate) fn states(set: &[u8]) -> bool
    requires { tag_count set.now ≤ max_tags }
    ensures { result ≡ all_below (state_count set.now) (state_ok set.now) }
{
    let states = States::of(set);
    let bound = power(header_word(set, 4));
    (0..header_word(set, 2)).all(|i| state(states, State(i), bound))
}

// What the header says that the test of a rule needs.
#[derive(Clone, Copy)]
struct Frame<'a> {
    set: &'a [u8],
    symbols: u16,
    states: u16,
    // Where the symbols start.
    arities: u16,
    rules: Rules<'a>,
    ghost framed: { Framed set.now symbols states arities × (rules.set ≡ set) },
}

fn read_frame<'a>(set: &'a [u8]) -> Frame<'a>
    ensures { result.set ≡ set.entry }
{
    Frame {
        set,
        symbols: header_word(set, 0),
        states: header_word(set, 2),
        arities: symbols_at(set),
        rules: Rules::of(set),
    }
}

// Child place k of rule i, whose symbol has n children.
fn place(f: Frame, i: u16, n: u16, k: u16) -> bool
    requires { n ≡ symbol_byte f.set.now (rule_word f.set.now i 0) }
    ensures { result ≡ place_ok f.entry.set.now i k }
{
    let x = f.rules.place(i, k);
    if k < n { x < f.states } else { x == UNUSED }
}

fn places(f: Frame, i: u16, n: u16) -> bool
    requires { n ≡ symbol_byte f.set.now (rule_word f.set.now i 0) }
    ensures { result ≡ all_below max_children (place_ok f.entry.set.now i) }
{
    (0..MAX_CHILDREN).all(|k| place(f, i, n, k))
}

fn rule(f: Frame, i: u16) -> bool
    ensures { result ≡ rule_ok f.entry.set.now i }
{
    let symbol = f.rules.word(i, 0);
    let target = f.rules.word(i, 1);
    let n = symbol_byte(f.set, f.arities, symbol);
    (symbol < f.symbols) & (target < f.states) & places(f, i, n)
}

pub(crate) fn rules(set: &[u8]) -> bool
    ensures { result ≡ all_below (rule_count set.now) (rule_ok set.now) }
{
    let f = read_frame(set);
    (0..header_word(set, 6)).all(|i| rule(f, i))
}

// How many numbers rules are sorted by: symbol, child places, target.
const KEY_NUMBERS: u16 = MAX_CHILDREN + 2;

// Number k of what rules are sorted by.
fn key(rules: Rules, i: u16, k: u16) -> u16
    ensures { result ≡ key_word rules.entry.set.now i k }
{
    if k == 0 {
        return rules.word(i, 0);
    }
    if k <= MAX_CHILDREN {
        return rules.place(i, k - 1);
    }
    rules.word(i, 1)
}

// Whether rule i stands before the next.
fn ascends(rules: Rules, i: u16) -> bool
    requires { i < 65535 }
    ensures { result ≡ ascends_at rules.entry.set.now i }
{
    for k in 0..KEY_NUMBERS {
        let x = key(rules, i, k);
        let y = key(rules, i + 1, k);
        if x < y {
            return true;
        }
        if y < x {
            return false;
        }
    }
    false
}

pub(crate) fn ascending(set: &[u8]) -> bool
    ensures { result ≡ all_below (rule_count set.now - 1) (ascends_at set.now) }
{
    let rules = Rules::of(set);
    let steps = header_word(set, 6).saturating_sub(1);
    (0..steps).all(|i| ascends(rules, i))
}

// The tags that rule i forgets, where a mask is below `bound`.
fn forgets(rules: Rules, i: u16, bound: usize) -> bool
    requires { bound ≡ 2 ^ tag_count rules.set.now }
    ensures { result ≡ forget_ok rules.entry.set.now i }
{
    usize::from(rules.forget(i)) < bound
}

pub(crate) fn forgetting(set: &[u8]) -> bool
    requires { tag_count set.now ≤ max_tags }
    ensures { result ≡ all_below (rule_count set.now) (forget_ok set.now) }
{
    let rules = Rules::of(set);
    let bound = power(header_word(set, 4));
    (0..header_word(set, 6)).all(|i| forgets(rules, i, bound))
}
