// The keys of an object: which of them stood before, and a key's symbol or text.
ghost use Rattle.std.specs.Prelude.{◌≡◌, Bool, false, List, ℕ, ◌+◌, ◌-◌, ◌<◌, ◌≤◌, ◌^◌, eqb, length, get_or, drop};
ghost use Rattle.model.specs.Lists.{any};
ghost use Rattle.names.specs.Lines.{lines};
ghost use Rattle.std.proofs.Math.Option.{none};
ghost use Rattle.base.specs.Text.{got};
ghost use Rattle.jsontext.specs.Strings.{string_at};
ghost use Rattle.jsonrows.specs.Keys.{find_text};
ghost use Rattle.jsonrows.specs.Texts.{WholeString};
ghost use Rattle.jsonrows.specs.State.{built_of, Held};
ghost use Rattle.jsonrows.specs.Seen.{entries, listed_part, listed_entry, listed_flags, number_of, Seen, Flagged, key_of, key_at, KeySays};

use crate::keys::{find_key, key_here};
use crate::rows::OTHER;
use crate::tables::{Counts, LEVELS, Source, Tables};
use crate::texts::{look_up, text_leaf};
use base::refusal::{Refusal, TextRefusal};
use base::text::Fault;
use document::index::Probed;
use document::rows::Row;
use jsontext::strings::read;

// The symbol of the first key on the list.
const FIRST_KEY: u16 = 8;

// The entry of the first key on the list; a text's entry is its number.
const FIRST_LISTED: u16 = 2048;

// A flag for each line, with room for 64.
pub(crate) const FLAGS: usize = 64;

// A key that was read: its symbol, the row of its text where it is not listed, the place after it, and the counts then.
#[derive(Clone, Copy)]
pub(crate) struct KeyPart {
    pub(crate) symbol: u16,
    pub(crate) row: Row,
    pub(crate) next: usize,
    pub(crate) counts: Counts,
}

// Whether an entry stands from place lo up to place hi.
fn has_entry(pending: &[u16], lo: usize, hi: usize, entry: u16) -> bool
    requires { (lo ≤ hi) × (hi ≤ length pending.now) }
    ensures { result ≡ any (eqb entry) (entries pending.now lo hi) }
{
    pending[lo..hi].contains(&entry)
}

// A listed key, line k, that ends before `next`: 72 where its flag says that it stood before.
fn listed_key(
    pending: &mut [u16; LEVELS],
    listed: &mut [bool; FLAGS],
    counts: Counts,
    level: usize,
    k: u16,
    at: usize,
    next: usize,
) -> Result<KeyPart, TextRefusal>
    requires few { k < 56 }
    requires bounds { level < 256 }
    ensures told { result ≡ listed_part (get_or listed.old k false) k at next counts.used counts.texts }
    ensures entered { pending.new ≡ listed_entry (get_or listed.old k false) pending.old level k }
    ensures flagged { listed.new ≡ listed_flags (get_or listed.old k false) listed.old k }
{
    let i = usize::from(k);
    if listed[i] {
        return Err(TextRefusal {
            refusal: Refusal::KeyRepeated,
            place: at,
        });
    }
    listed[i] = true;
    pending[level] = FIRST_LISTED + k;
    Ok(KeyPart {
        symbol: FIRST_KEY + k,
        row: Row(0),
        next,
        counts,
    })
}

// The number of a text by what the probe for it found; the next one for a text that is new.
fn number_of(probed: Probed, texts: u16) -> u16
    ensures { result ≡ number_of probed texts }
{
    match probed {
        Probed::Found(k) => k.0,
        Probed::Free(_) | Probed::Crowded => texts,
    }
}

// A key that is not listed, a whole string at a place: 64 where its text would stand past the last level, 72 where it stood before, else the text's leaf.
fn other_key(
    source: &Source,
    tables: &mut Tables,
    pending: &mut [u16; LEVELS],
    counts: Counts,
    level: usize,
    top: usize,
    slot: u16,
    at: usize,
    next: usize,
) -> Result<KeyPart, TextRefusal>
    requires holds { Held source.now.text.now tables.old counts source.now.limit }
    requires bounds { (level < top) × (top ≤ 256) }
    requires whole { WholeString source.now.text.now at slot next }
    ensures says { (keys seen : List (List ℕ)) (key : List ℕ) (flags : List Bool) → string_at source.now.text.now at ≡ got key next → find_text key keys ≡ none → Flagged keys flags seen → Seen keys source.now.text.now tables.old.starts pending.old counts.texts (level + 1) top seen → KeySays keys source.now.text.now tables.new.rows tables.new.slots tables.new.starts tables.new.found pending.new flags tables.old.starts counts.texts source.now.limit level top seen result (key_of (record { keys = keys; limit = source.now.limit }) level seen at key next (built_of source.now.text.now tables.old counts)) }
    ensures kept { drop (level + 1) pending.new ≡ drop (level + 1) pending.old }
{
    if level == 0 {
        return Err(TextRefusal {
            refusal: Refusal::TextLevel,
            place: at,
        });
    }
    let probed = look_up(source, &*tables, slot, at);
    let number = number_of(probed, counts.texts);
    if has_entry(&*pending, level + 1, top, number) {
        return Err(TextRefusal {
            refusal: Refusal::KeyRepeated,
            place: at,
        });
    }
    let part = text_leaf(source, tables, counts, at, next, probed)?;
    pending[level] = number;
    Ok(KeyPart {
        symbol: OTHER,
        row: part.row,
        next: part.next,
        counts: part.counts,
    })
}

// The key at a place, looked up: a listed one by its line, another by its text.
fn looked_up(
    source: &Source,
    tables: &mut Tables,
    pending: &mut [u16; LEVELS],
    listed: &mut [bool; FLAGS],
    counts: Counts,
    level: usize,
    top: usize,
    at: usize,
) -> Result<KeyPart, TextRefusal>
    requires holds { Held source.now.text.now tables.old counts source.now.limit }
    requires bounds { (level < top) × (top ≤ 256) }
    ensures says { (seen : List (List ℕ)) → Flagged (lines source.now.list.now) listed.old seen → Seen (lines source.now.list.now) source.now.text.now tables.old.starts pending.old counts.texts (level + 1) top seen → KeySays (lines source.now.list.now) source.now.text.now tables.new.rows tables.new.slots tables.new.starts tables.new.found pending.new listed.new tables.old.starts counts.texts source.now.limit level top seen result (key_at (record { keys = lines source.now.list.now; limit = source.now.limit }) source.now.text.now level seen at (built_of source.now.text.now tables.old counts)) }
    ensures kept { drop (level + 1) pending.new ≡ drop (level + 1) pending.old }
{
    match read(source.text, source.classes, at) {
        Err(Fault(place)) => Err(TextRefusal {
            refusal: Refusal::JsonFault,
            place,
        }),
        Ok((slot, next)) => match find_key(source, slot, at) {
            Some(k) => listed_key(pending, listed, counts, level, k, at, next),
            None => other_key(source, tables, pending, counts, level, top, slot, at, next),
        },
    }
}

// The line of a symbol, of a symbol that is no key's the first.
fn line_of(symbol: u16) -> u16
    ensures { result ≡ symbol - 8 }
{
    symbol.saturating_sub(FIRST_KEY)
}

// The key at a place. Where it is written as the line of the symbol that is guessed, nothing is looked up.
pub(crate) fn key_at(
    source: &Source,
    tables: &mut Tables,
    pending: &mut [u16; LEVELS],
    listed: &mut [bool; FLAGS],
    counts: Counts,
    level: usize,
    top: usize,
    at: usize,
    guess: u16,
) -> Result<KeyPart, TextRefusal>
    requires holds { Held source.now.text.now tables.old counts source.now.limit }
    requires bounds { (level < top) × (top ≤ 256) }
    ensures says { (seen : List (List ℕ)) → Flagged (lines source.now.list.now) listed.old seen → Seen (lines source.now.list.now) source.now.text.now tables.old.starts pending.old counts.texts (level + 1) top seen → KeySays (lines source.now.list.now) source.now.text.now tables.new.rows tables.new.slots tables.new.starts tables.new.found pending.new listed.new tables.old.starts counts.texts source.now.limit level top seen result (key_at (record { keys = lines source.now.list.now; limit = source.now.limit }) source.now.text.now level seen at (built_of source.now.text.now tables.old counts)) }
    ensures kept { drop (level + 1) pending.new ≡ drop (level + 1) pending.old }
{
    let k = line_of(guess);
    if let Some(next) = key_here(source, k, at) {
        return listed_key(pending, listed, counts, level, k, at, next);
    }
    looked_up(source, tables, pending, listed, counts, level, top, at)
}
