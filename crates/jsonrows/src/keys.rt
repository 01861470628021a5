// The key list of a site: its lines by their places, found again by an index over them.
ghost use Rattle.std.specs.Prelude.{◌≡◌, true, List, ℕ, ◌<◌, length, replicate};
ghost use Rattle.base.specs.Text.{got};
ghost use Rattle.model.specs.Lists.{eq_list};
ghost use Rattle.document.specs.Index.{slot_count, probe};
ghost use Rattle.names.specs.Lines.{lines};
ghost use Rattle.names.specs.Places.{Starts, Ended};
ghost use Rattle.jsontext.specs.Strings.{string_at};
ghost use Rattle.jsontext.specs.Decoded.{text_slot};
ghost use Rattle.jsonrows.specs.Keys.{key?, keys_fit?, find_text};
ghost use Rattle.jsonrows.specs.KeyTable.{key_at, no_line, Stands, Entered, Told, KeyTable, free_in, free_of, key_of};

use crate::tables::Source;
use document::index::SLOTS;
use jsontext::decoded::is_text;
use jsontext::slots::slot_of;
use jsontext::tokens::{Token, has_token, token_of};
use jsontext::written::written;
use names::lines::line_end;

// The most keys.
const MAX_KEYS: u16 = 56;

// The most bytes of a key.
const MAX_KEY: usize = 64;

// Room for the lines.
pub(crate) const LINES: usize = 64;

// Where a line starts and ends, and its token, if it has one.
#[derive(Clone, Copy)]
pub(crate) struct Line {
    pub(crate) start: usize,
    pub(crate) end: usize,
    pub(crate) token: Option<Token>,
}

// What stands where there is no line: no key ends at 0.
pub(crate) const NO_LINE: Line = Line {
    start: 0,
    end: 0,
    token: None,
};

// Line `k`, which stands between its places.
pub(crate) fn key_line<'a>(list: &'a [u8], places: &[Line; LINES], k: u16) -> &'a [u8]
    requires few { k < 56 }
    requires placed { Stands list.now places.now k }
    ensures { result.now ≡ key_at list.now k }
{
    let i = usize::from(k);
    &list[places[i].start..places[i].end]
}

// Whether a line has 1 to 64 bytes.
fn is_key(line: &[u8]) -> bool
    ensures { result ≡ key? line.now }
{
    (line.len() >= 1) & (line.len() <= MAX_KEY)
}

// The empty slot where a line belongs, looked for from its slot on; none where an equal line is entered.
// A probe asks its test of any number; this one may be asked of a line that is entered only, so it is a loop of its own.
fn line_slot(
    list: &[u8],
    places: &[Line; LINES],
    key_slots: &[u16; SLOTS],
    line: &[u8],
    slot: u16,
) -> Option<usize>
    requires { (n : ℕ) × Entered list.now places.now key_slots.now n }
    ensures { free_of result ≡ free_in (probe key_slots.now (λ k. eq_list line.now (key_at list.now k)) slot) }
{
    for d in 0..SLOTS {
        let i = (usize::from(slot) + d) % SLOTS;
        let held = key_slots[i];
        if held == 0 {
            return Some(i);
        }
        if line == key_line(list, places, held - 1) {
            return None;
        }
    }
    None
}

// Line `n`, from place `a` to place `e`, is entered behind the others, unless it is no key or equals one of them.
fn enter(
    list: &[u8],
    places: &mut [Line; LINES],
    key_slots: &mut [u16; SLOTS],
    n: u16,
    a: usize,
    e: usize,
) -> bool
    requires few { n < 56 }
    requires entered { Entered list.now places.old key_slots.old n }
    requires line { Starts list.now n a × Ended list.now a e × (a < length list.now) }
    ensures { Told list.now places.new key_slots.new n result }
{
    let line = &list[a..e];
    if !is_key(line) {
        return false;
    }
    match line_slot(list, &*places, &*key_slots, line, slot_of(line)) {
        None => false,
        Some(i) => {
            places[usize::from(n)] = Line {
                start: a,
                end: e,
                token: token_of(line),
            };
            key_slots[i] = n + 1;
            true
        },
    }
}

// Whether the lines are at most 56 keys, no two of them equal; their places and the index over them are then filled.
pub(crate) fn fill_keys(
    list: &[u8],
    places: &mut [Line; LINES],
    key_slots: &mut [u16; SLOTS],
) -> bool
    requires zero { places.old ≡ replicate 64 no_line }
    requires empty { key_slots.old ≡ replicate slot_count 0 }
    ensures value { result ≡ keys_fit? list.now }
    ensures filled { result ≡ true → KeyTable list.now places.new key_slots.new }
{
    let mut a = 0;
    let mut n = 0;
    while a < list.len() {
        if n == MAX_KEYS {
            return false;
        }
        let e = line_end(list, a);
        if enter(list, places, key_slots, n, a, e) {
            a = (e + 1).min(list.len());
            n += 1;
        } else {
            return false;
        }
    }
    true
}

// The place after the key at a place, where it is line `k` written just as it is, compared byte by byte; none where it is not, or where there is no such line.
fn line_here(source: &Source, k: u16, at: usize) -> Option<usize>
    requires few { k < 56 }
    ensures { (next : ℕ) → result ≡ Some next → (k < length (lines source.now.list.now)) × (string_at source.now.text.now at ≡ got (key_at source.now.list.now k) next) }
{
    let line = source.places[usize::from(k)];
    if line.end == 0 {
        return None;
    }
    let n = line.end - line.start;
    if written(source.text, at, &source.list[line.start..], n) {
        return Some(at + n + 2);
    }
    None
}

// The place after the key at a place, where it is line `k` written just as it is; none where it is not, where there is no such line, or where it stands too near the end of the text. Most keys follow the one that they followed before, so that nothing is to be looked for, and most are so short that one or two words tell.
pub(crate) fn key_here(source: &Source, k: u16, at: usize) -> Option<usize>
    ensures { (next : ℕ) → result ≡ Some next → (k < 56) × (k < length (lines source.now.list.now)) × (string_at source.now.text.now at ≡ got (key_at source.now.list.now k) next) }
{
    if k >= MAX_KEYS {
        return None;
    }
    let Some(token) = source.places[usize::from(k)].token else {
        return line_here(source, k, at);
    };
    if has_token(source.text, at, token) {
        return Some(at + token.length);
    }
    None
}

// The line that the string at a place is after decoding, looked for from its slot on.
// Its test, too, may be asked of a line only.
pub(crate) fn find_key(source: &Source, slot: u16, at: usize) -> Option<u16>
    ensures found { (key : List ℕ) (next : ℕ) → string_at source.now.text.now at ≡ got key next → slot ≡ text_slot key → key_of result ≡ find_text key (lines source.now.list.now) }
    ensures few { (k : ℕ) → result ≡ Some k → k < 56 }
{
    for d in 0..SLOTS {
        let held = source.key_slots[(usize::from(slot) + d) % SLOTS];
        if held == 0 {
            return None;
        }
        let k = held - 1;
        let line = key_line(source.list, source.places, k);
        if is_text(source.text, source.classes, at, line) {
            return Some(k);
        }
    }
    None
}
