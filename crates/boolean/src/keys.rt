// Rules as keys: numbers that ascend as the rules do, and off which the rules are read again.
ghost use Rattle.std.specs.Prelude.{◌≡◌, map, ◌+◌, ◌*◌, ◌^◌, ◌≤◌, ◌<◌, length, get_or};
ghost use Rattle.model.specs.Limits.{max_children};
ghost use Rattle.model.specs.Lists.{tab};
ghost use Rattle.model.specs.Boolean.{shift_rule};
ghost use Rattle.automaton.specs.Stored.{decode};
ghost use Rattle.automaton.specs.Check.{check_of};
ghost use Rattle.automaton.specs.Answer.{IsRule};
ghost use Rattle.boolean.specs.Key.{digit_width, pushed, masked, key_of, packed, digit_at, place_at, unpacked, shifted_place, paired_place};

use automaton::copy::moved_up;
use automaton::{State, StoredRule};
use base::limits::{MAX_CHILDREN, MAX_STATES, PLACES, UNUSED};

// The bits of a digit: enough for every state.
const DIGIT_WIDTH: u64 = 8;

const DIGITS: u64 = 256;

// The bits of the tags that a rule forgets, which stand behind the digits.
const MASK_WIDTH: u64 = 16;

const MASKS: u64 = 65536;

// The digits x with one more.
fn push(x: u64, p: u64) -> u64
    requires { x < 2 ^ (digit_width * 7) }
    ensures { result ≡ pushed x p }
{
    x * DIGITS + p % DIGITS
}

// The digits x, and behind them the tags to forget.
fn with_mask(x: u64, mask: u64) -> u64
    requires { x < 2 ^ (digit_width * 6) }
    ensures { result ≡ masked x mask }
{
    x * MASKS + mask % MASKS
}

// The key of a symbol, child places, a target and the tags to forget.
fn key(symbol: u16, places: [u64; PLACES], target: u64, forget: u64) -> u64
    ensures { result ≡ key_of symbol (λ k. get_or places k 0) target forget }
{
    let mut x = push(0, u64::from(symbol));
    for p in &places {
        x = push(x, *p);
    }
    with_mask(push(x, target), forget)
}

// A place with its state shifted by n.
fn shifted_place(p: State, n: u16) -> u64
    ensures { result ≡ shifted_place n p.0 }
{
    if p.0 < MAX_STATES {
        u64::from(n) + u64::from(p.0)
    } else {
        u64::from(UNUSED)
    }
}

// The key of a rule with its states shifted by n and its tags by t.
fn shifted_key(r: StoredRule, n: u16, t: u16) -> u64
    ensures { result ≡ key_of r.symbol (λ k. shifted_place n (get_or (map (λ q. q.0) r.places) k 0)) (n + r.target.0) (r.forget * 2 ^ t) }
{
    let p = r.places;
    key(
        r.symbol,
        [
            shifted_place(p[0], n),
            shifted_place(p[1], n),
            shifted_place(p[2], n),
            shifted_place(p[3], n),
        ],
        u64::from(n) + u64::from(r.target.0),
        u64::from(moved_up(r.forget, t)),
    )
}

// The place of a pair of states, n being the number of the second's states.
fn paired_place(p: State, q: State, n: u16) -> u64
    ensures { result ≡ paired_place n p.0 q.0 }
{
    if p.0 < MAX_STATES {
        u64::from(p.0) * u64::from(n) + u64::from(q.0)
    } else {
        u64::from(UNUSED)
    }
}

// The key of the rule that pairs two rules, n being the number of the second's states and t that of the first's tags.
pub(crate) fn paired_key(r: StoredRule, s: StoredRule, n: u16, t: u16) -> u64
    ensures { result ≡ key_of r.symbol (λ k. paired_place n (get_or (map (λ q. q.0) r.places) k 0) (get_or (map (λ q. q.0) s.places) k 0)) (r.target.0 * n + s.target.0) (r.forget + s.forget * 2 ^ t) }
{
    let p = r.places;
    let q = s.places;
    key(
        r.symbol,
        [
            paired_place(p[0], q[0], n),
            paired_place(p[1], q[1], n),
            paired_place(p[2], q[2], n),
            paired_place(p[3], q[3], n),
        ],
        u64::from(r.target.0) * u64::from(n) + u64::from(s.target.0),
        u64::from(r.forget) + u64::from(moved_up(s.forget, t)),
    )
}

// The keys of a set's rules with their states shifted by n and their tags by t, which fill a space.
pub(crate) fn shifted_keys(set: &[u8], n: u16, t: u16, keys: &mut [u64])
    requires { (check_of set.now ≡ 0) × (length keys.old ≡ length (decode set.now).rules) }
    ensures { keys.new ≡ map packed (map (shift_rule n t) (decode set.now).rules) }
{
    let count = automaton::header(set).rules;
    for i in 0..count {
        keys[usize::from(i)] = shifted_key(automaton::rule(set, i), n, t);
    }
}

// Digit k of a key, counted from its end.
fn digit_at(x: u64, k: u16) -> u16
    requires { k ≤ 5 }
    ensures { result ≡ digit_at x k }
{
    ((x >> (MASK_WIDTH + DIGIT_WIDTH * u64::from(k))) % DIGITS) as u16
}

// Child place k of a key whose symbol has n children.
fn place_of(x: u64, n: u16, k: u16) -> State
    ensures { result.0 ≡ place_at x n k }
{
    if k < n {
        State(digit_at(x, MAX_CHILDREN.saturating_sub(k)))
    } else {
        State(UNUSED)
    }
}

// The child places of a key whose symbol has n children.
fn places_of(x: u64, n: u16) -> [State; PLACES]
    ensures { map (λ q. q.0) result ≡ tab max_children (place_at x n) }
{
    [0, 1, 2, 3].map(|k| place_of(x, n, k))
}

// The rule of a key, with the symbols of a set.
pub(crate) fn unpack(x: u64, set: &[u8]) -> StoredRule
    ensures { IsRule result (unpacked (decode set.now).arities x) }
{
    let symbol = digit_at(x, MAX_CHILDREN + 1);
    let places = places_of(x, automaton::arity(set, symbol));
    StoredRule {
        symbol,
        target: State(digit_at(x, 0)),
        places,
        forget: (x % MASKS) as u16,
    }
}
