// Writing a stored form from front to back: each function puts a part at a place and answers the place after it; where the part does not fit whole, nothing
// is written and the place itself is the answer.
ghost use Rattle.std.specs.Prelude.{◌≡◌, cond, ◌++◌, map, ◌+◌, ◌*◌, ◌/◌, ◌%◌, ◌≤◌, ◌<◌, leb, length, take, drop};
ghost use Rattle.model.specs.Lists.{concat_map};
ghost use Rattle.automaton.specs.Encode.{encode_word, encode_header, encode_symbol, encode_state, encode_places, Put};

use super::layout::{HEADER_WIDTH, rules_offset, state_width, states_offset, total_length};
use super::{Form, StoredRule};
use base::space::put;

// Whether n bytes fit at a place of a space of so many bytes.
pub(crate) fn fits(space: usize, at: usize, n: usize) -> bool
    ensures { result ≡ leb (at + n) space }
{
    if n <= space { at <= space - n } else { false }
}

// A number's lowest 16 bits.
fn cut(x: usize) -> u16
    ensures { result ≡ x % 65536 }
{
    (x % 65536) as u16
}

// The numbers, low byte first, put at a place where they fit.
fn paste_words(out: &mut [u8], at: usize, words: &[u16])
    requires { at + 2 * length words.now ≤ length out.old }
    ensures { out.new ≡ take at out.old ++ concat_map encode_word words.now ++ drop (at + 2 * length words.now) out.old }
{
    for (i, x) in words.iter().enumerate() {
        let [low, high] = x.to_le_bytes();
        out[at + 2 * i] = low;
        out[at + 2 * i + 1] = high;
    }
}

fn put_words(out: &mut [u8], at: usize, words: &[u16]) -> usize
    requires { length words.now < 65536 }
    ensures { Put out.old at (concat_map encode_word words.now) out.new result }
{
    let n = 2 * words.len();
    if fits(out.len(), at, n) {
        paste_words(out, at, words);
        return at + n;
    }
    at
}

pub fn put_header(
    out: &mut [u8],
    form: Form,
    symbols: u16,
    states: u16,
    tags: u16,
    rules: u16,
) -> usize
    ensures { Put out.old 0 (encode_header form symbols states tags rules) out.new result }
{
    let states_at = cut(states_offset(symbols));
    let rules_at = cut(rules_offset(form, symbols, states));
    let total = cut(total_length(form, symbols, states, rules));
    let words = [
        symbols,
        states,
        tags,
        rules,
        HEADER_WIDTH as u16,
        states_at,
        rules_at,
        total,
    ];
    put_words(out, 0, &words)
}

pub fn put_symbol(out: &mut [u8], at: usize, arity: u16) -> usize
    ensures { Put out.old at (encode_symbol arity) out.new result }
{
    if at < out.len() {
        out[at] = (arity % 256) as u8;
        return at + 1;
    }
    at
}

pub fn put_state(out: &mut [u8], at: usize, form: Form, accepting: bool, mask: u16) -> usize
    ensures { Put out.old at (encode_state form accepting mask) out.new result }
{
    let n = state_width(form);
    if fits(out.len(), at, n) {
        let [low, high] = mask.to_le_bytes();
        let bytes = [u8::from(accepting), low, high];
        put(out, at, &bytes[..n]);
        return at + n;
    }
    at
}

pub fn put_rule(out: &mut [u8], at: usize, form: Form, r: StoredRule) -> usize
    ensures { Put out.old at (encode_places form r.symbol r.target.0 (map (λ q. q.0) r.places) r.forget) out.new result }
{
    let places = r.places;
    let words = [
        r.symbol,
        r.target.0,
        places[0].0,
        places[1].0,
        places[2].0,
        places[3].0,
        r.forget,
    ];
    match form {
        Form::Narrow => put_words(out, at, &words[..6]),
        Form::Wide => put_words(out, at, &words[..6]),
        Form::Isolating => put_words(out, at, &words),
    }
}
