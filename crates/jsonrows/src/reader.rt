// Values, members and elements of a JSON text, each over the level that falls.
ghost use Rattle.std.specs.Prelude.{◌≡◌, true, false, cond, ◌||◌, List, [], ℕ, ◌+◌, ◌<◌, ◌≤◌, eqb, length, drop};
ghost use Rattle.base.specs.Text.{byte_at};
ghost use Rattle.classes.specs.Classes.{digit?, class_table};
ghost use Rattle.names.specs.Lines.{lines};
ghost use Rattle.jsonrows.specs.Grammar.{opens?, value};
ghost use Rattle.jsonrows.specs.State.{built_of, Held, SaysOf};
ghost use Rattle.base.specs.Refusals.{number};
ghost use Rattle.jsonrows.specs.Seen.{Seen, Flagged};
ghost use Rattle.jsonrows.specs.Items.{plain_at, items_at};
ghost use Rattle.jsonrows.specs.Frames.{Same};
ghost use Rattle.jsonrows.specs.Heads.{HeadSays};

use crate::frames::close_items;
use crate::leaves::{number_leaf, string_leaf, word};
use crate::members::{FLAGS, KeyPart, key_at};
use crate::rows::{END, Part, close, mark};
use crate::tables::{Counts, Item, LEVELS, Open, SYMBOLS, Source, Tables};
use base::refusal::{Refusal, TextRefusal};
use base::text::byte_at;
use classes::is_digit;
use document::Scalar;
use document::rows::Row;
use jsontext::spaces::space_end;

// The symbols of an element, of null, and of a flag.
const ITEM: u16 = 3;

const NULL: u16 = 4;

const FLAG: u16 = 5;

// Whether a value can begin with a byte.
fn opens(classes: &[u8; 256], b: u8) -> bool
    requires lent { classes.now ≡ class_table }
    ensures { result ≡ opens? b }
{
    b"{[\"tfn-".contains(&b) | is_digit(classes, b)
}

// What is said of a value past the last level.
fn past_last(source: &Source, at: usize) -> TextRefusal
    ensures { (number result.refusal ≡ cond (opens? (byte_at source.now.text.now at)) 64 71) × (result.place ≡ at) }
{
    TextRefusal {
        refusal: if opens(source.classes, byte_at(source.text, at)) {
            Refusal::TextLevel
        } else {
            Refusal::JsonFault
        },
        place: at,
    }
}

// A value that is no object, no array and no number, by its first byte.
fn text_or_word(
    source: &Source,
    tables: &mut Tables,
    counts: Counts,
    at: usize,
) -> Result<Part, TextRefusal>
    requires holds { Held source.now.text.now tables.old counts source.now.limit }
    requires other { (eqb (byte_at source.now.text.now at) 45 || digit? (byte_at source.now.text.now at)) ≡ false }
    ensures { SaysOf source.now.text.now tables.old tables.new counts source.now.limit result (plain_at source.now.limit source.now.text.now at (built_of source.now.text.now tables.old counts)) }
{
    let b = byte_at(source.text, at);
    if b == b'"' {
        return string_leaf(source, tables, counts, at);
    }
    if b == b't' {
        return word(
            source,
            tables,
            counts,
            at,
            b"true",
            FLAG,
            Scalar::Flag(true),
        );
    }
    if b == b'f' {
        return word(
            source,
            tables,
            counts,
            at,
            b"false",
            FLAG,
            Scalar::Flag(false),
        );
    }
    if b == b'n' {
        return word(source, tables, counts, at, b"null", NULL, Scalar::Bare);
    }
    Err(TextRefusal {
        refusal: Refusal::JsonFault,
        place: at,
    })
}

// A value that is no object and no array: a number, which most are, or another.
fn plain_value(
    source: &Source,
    tables: &mut Tables,
    counts: Counts,
    at: usize,
) -> Result<Part, TextRefusal>
    requires holds { Held source.now.text.now tables.old counts source.now.limit }
    ensures { SaysOf source.now.text.now tables.old tables.new counts source.now.limit result (plain_at source.now.limit source.now.text.now at (built_of source.now.text.now tables.old counts)) }
{
    let b = byte_at(source.text, at);
    if (b == b'-') | is_digit(source.classes, b) {
        return number_leaf(source, tables, counts, at);
    }
    text_or_word(source, tables, counts, at)
}

// The same answer, taken apart and made again: from here on its fields need not lie in memory, as those of a plain value need not. Without it reading took a twentieth longer.
fn unpacked(part: Result<Part, TextRefusal>) -> Result<Part, TextRefusal>
    ensures { result ≡ part }
{
    match part {
        Err(why) => Err(TextRefusal {
            refusal: why.refusal,
            place: why.place,
        }),
        Ok(part) => Ok(Part {
            row: part.row,
            next: part.next,
            counts: part.counts,
        }),
    }
}

// The value at a place, of at most so many levels.
#[cycle(items_value)]
fn value(
    source: &Source,
    tables: &mut Tables,
    opened: &mut Open,
    counts: Counts,
    level: usize,
    at: usize,
) -> Result<Part, TextRefusal>
    requires holds { Held source.now.text.now tables.old counts source.now.limit }
    requires bounds { level ≤ 256 }
    ensures says { SaysOf source.now.text.now tables.old tables.new counts source.now.limit result (value level (record { keys = lines source.now.list.now; limit = source.now.limit }) source.now.text.now at (built_of source.now.text.now tables.old counts)) }
    ensures kept { drop level opened.new.pending ≡ drop level opened.old.pending }
    ensures above { Same level opened.old.frames opened.new.frames }
{
    if level == 0 {
        return Err(past_last(source, at));
    }
    let b = byte_at(source.text, at);
    if (b == b'{') | (b == b'[') {
        let i = space_end(source.text, source.classes, at + 1);
        let object = b == b'{';
        if byte_at(source.text, i) == mark(object) {
            return close(source, tables, counts, i, object);
        }
        return unpacked(items(source, tables, opened, counts, level - 1, i, object, false));
    }
    plain_value(source, tables, counts, at)
}

// The key of a member and its colon, which most often stands at once; nothing of an element.
fn head(
    source: &Source,
    tables: &mut Tables,
    pending: &mut [u16; LEVELS],
    listed: &mut [bool; FLAGS],
    counts: Counts,
    level: usize,
    top: usize,
    at: usize,
    object: bool,
    guess: u16,
) -> Result<KeyPart, TextRefusal>
    requires holds { Held source.now.text.now tables.old counts source.now.limit }
    requires below { object ≡ true → (level < top) × (top ≤ 256) }
    ensures says { (seen : List (List ℕ)) → (object ≡ true → Flagged (lines source.now.list.now) listed.old seen) → (object ≡ true → Seen (lines source.now.list.now) source.now.text.now tables.old.starts pending.old counts.texts (level + 1) top seen) → HeadSays object (record { keys = lines source.now.list.now; limit = source.now.limit }) source.now.text.now tables.new.rows tables.new.slots tables.new.starts tables.new.found pending.new listed.new tables.old.starts counts.texts level top seen at (built_of source.now.text.now tables.old counts) result }
    ensures kept { drop (level + 1) pending.new ≡ drop (level + 1) pending.old }
{
    if !object {
        return Ok(KeyPart {
            symbol: ITEM,
            row: Row(0),
            next: at,
            counts,
        });
    }
    let key = key_at(
        source, tables, pending, listed, counts, level, top, at, guess,
    )?;
    if byte_at(source.text, key.next) == b':' {
        return Ok(KeyPart {
            next: space_end(source.text, source.classes, key.next + 1),
            ..key
        });
    }
    let i = space_end(source.text, source.classes, key.next);
    if byte_at(source.text, i) != b':' {
        return Err(TextRefusal {
            refusal: Refusal::JsonFault,
            place: i,
        });
    }
    Ok(KeyPart {
        next: space_end(source.text, source.classes, i + 1),
        ..key
    })
}

// Items, one after the other, and when the last is read their rows from it back to the first; or one value alone.
#[cycle(items_value)]
pub(crate) fn items(
    source: &Source,
    tables: &mut Tables,
    opened: &mut Open,
    counts: Counts,
    level: usize,
    at: usize,
    object: bool,
    alone: bool,
) -> Result<Part, TextRefusal>
    requires holds { Held source.now.text.now tables.old counts source.now.limit }
    requires bounds { level ≤ 256 }
    requires below { alone ≡ false → level < 256 }
    requires single { alone ≡ true → object ≡ false }
    ensures says { SaysOf source.now.text.now tables.old tables.new counts source.now.limit result (items_at alone object level (record { keys = lines source.now.list.now; limit = source.now.limit }) source.now.text.now [] at (built_of source.now.text.now tables.old counts)) }
    ensures kept { drop (level + 1) opened.new.pending ≡ drop (level + 1) opened.old.pending }
    ensures above { Same (level + 1) opened.old.frames opened.new.frames }
{
    let mut n = counts;
    let mut l = level;
    let mut i = at;
    let mut last = END;
    let mut listed = [false; FLAGS];
    loop {
        let guess = opened.after[usize::from(last) % SYMBOLS];
        let key = head(
            source,
            &mut *tables,
            &mut opened.pending,
            &mut listed,
            n,
            l,
            level + 1,
            i,
            object,
            guess,
        )?;
        opened.after[usize::from(last) % SYMBOLS] = key.symbol;
        let part = value(source, &mut *tables, &mut *opened, key.counts, l, key.next)?;
        if alone {
            return Ok(part);
        }
        opened.frames[l] = Item {
            symbol: key.symbol,
            key: key.row,
            value: part.row,
        };
        let e = space_end(source.text, source.classes, part.next);
        if byte_at(source.text, e) != b',' {
            return close_items(
                source,
                tables,
                &opened.frames,
                part.counts,
                e,
                object,
                l,
                level + 1,
            );
        }
        i = space_end(source.text, source.classes, e + 1);
        if l == 0 {
            return Err(TextRefusal {
                refusal: Refusal::TextLevel,
                place: i,
            });
        }
        last = key.symbol;
        l -= 1;
        n = part.counts;
    }
}
