// The run check's test 24: the memories that steps leave, one tag after the other, so that a cell for each step is enough.
ghost use Rattle.std.specs.Prelude.{◌≡◌, map, cond, suc, ◌<◌, ◌≤◌, length, get_or};
ghost use Rattle.model.specs.Limits.{max_tags, unused};
ghost use Rattle.model.specs.Lists.{all_below};
ghost use Rattle.model.specs.Automaton.{Automaton, bit?};
ghost use Rattle.model.specs.WrittenTest.{one_row?};
ghost use Rattle.model.specs.ByTag.{tag_clear?, one_row_by_tag?};
ghost use Rattle.automaton.specs.Stored.{decode};
ghost use Rattle.document.specs.Rows.{used};
ghost use Rattle.runs.specs.Steps.{places_in, decode_steps};
ghost use Rattle.runs.specs.Memories.{Placed, Fitted, Noted, both, AllJoined, Left};

use crate::steps;
use crate::steps::{row, rule, target};
use automaton::{header, rule_forget, tags_of};
use base::limits::{MAX_CHILDREN, MAX_STEPS, UNUSED};
use document::rows::{Row, Step};

// A cell for each step.
const STEPS: usize = MAX_STEPS as usize;

// A tag's place in a memory: 0 where the tag has no row, else the row's number and 1. It stays a number, since a cell for each step holds it in 16 bits.
#[derive(Clone, Copy)]
struct Place(u16);

// The tags that the state of a step carries, and those that its rule forgets: bit k for tag k.
#[derive(Clone, Copy)]
struct Tags {
    carried: u16,
    forgotten: u16,
}

const NO_TAGS: Tags = Tags {
    carried: 0,
    forgotten: 0,
};

// One of the tags, by its number.
#[derive(Clone, Copy)]
struct Tag {
    k: u16,
    ghost few: { k < max_tags },
}

fn has_tag(mask: u16, tag: Tag) -> bool
    ensures { result ≡ bit? mask tag.k }
{
    (mask >> tag.k) % 2 == 1
}

// Two places joined; none where they name two rows.
fn join(x: Place, y: Place) -> Option<Place>
    ensures { result ≡ both x.0 y.0 }
{
    if x.0 == 0 {
        return Some(y);
    }
    if y.0 == 0 || x.0 == y.0 {
        return Some(x);
    }
    None
}

// What the cell of a step holds; 0 past the last cell.
fn place_of(cells: &[u16], c: Step) -> Place
    ensures { result.0 ≡ get_or cells.now c.0 0 }
{
    Place(cells.get(usize::from(c.0)).copied().unwrap_or(0))
}

// The places of the child steps of step i, joined; none where two of them name two rows.
fn from_children(run: &[u16], cells: &[u16], i: Step) -> Option<Place>
    ensures { AllJoined (map (λ c. get_or cells.now c 0) (used (places_in run.now i.0))) result }
{
    let mut j = Place(0);
    for k in 0..MAX_CHILDREN {
        let c = steps::place(run, i, k);
        if c.0 == UNUSED {
            return Some(j);
        }
        let y = place_of(cells, c);
        j = join(j, y)?;
    }
    Some(j)
}

// The tag's place after the tags of the mask are dropped.
fn kept(x: Place, forget: u16, tag: Tag) -> Place
    ensures { result.0 ≡ cond (bit? forget tag.k) 0 x.0 }
{
    if has_tag(forget, tag) { Place(0) } else { x }
}

// The tag's place in a state with the mask, on the row.
fn own(mask: u16, on: Row, tag: Tag) -> Place
    requires { on.0 < unused }
    ensures { result.0 ≡ cond (bit? mask tag.k) (suc on.0) 0 }
{
    if has_tag(mask, tag) {
        Place(on.0 + 1)
    } else {
        Place(0)
    }
}

// The tag's place in the memory that a step on the row leaves: the children's places joined, the rule's tags dropped, then the state's added.
fn left(j: Option<Place>, tags: Tags, on: Row, tag: Tag) -> Option<Place>
    requires { on.0 < unused }
    ensures { Left j tags.forgotten tags.carried on.0 tag.k result }
{
    let x = j?;
    join(kept(x, tags.forgotten, tag), own(tags.carried, on, tag))
}

// Notes the tags that the state of each step carries, and those that its rule forgets.
fn note(set: &[u8], run: &[u16], n: u16, notes: &mut [Tags])
    requires { n ≤ length notes.old }
    ensures { Noted (decode set.now) (decode_steps run.now) n notes.new }
{
    for i in 0..n {
        notes[usize::from(i)] = Tags {
            carried: tags_of(set, target(set, run, Step(i))),
            forgotten: rule_forget(set, rule(run, Step(i))),
        };
    }
}

// 24 for the tag: cell i gets the tag's place in the memory of step i, from those of its child steps, which are lower.
fn tag_clear(run: &[u16], notes: &[Tags; STEPS], cells: &mut [u16], n: u16, tag: Tag) -> bool
    requires { Placed (decode_steps run.now) n × (n ≤ length cells.old) }
    ensures { (A : Automaton) → Noted A (decode_steps run.now) n notes.now → result ≡ all_below (length (decode_steps run.now)) (tag_clear? A (decode_steps run.now) tag.k) }
{
    for i in 0..n {
        let at = usize::from(i);
        let j = from_children(run, cells, Step(i));
        let Some(place) = left(j, notes[at], row(run, Step(i)), tag) else {
            return false;
        };
        cells[at] = place.0;
    }
    true
}

// 24, from what was noted of the steps once.
fn tags_clear(set: &[u8], run: &[u16], n: u16, tags: u16) -> bool
    requires { Placed (decode_steps run.now) n × (tags ≡ (decode set.now).tags) × (tags ≤ max_tags) }
    ensures { result ≡ one_row_by_tag? (decode set.now) (decode_steps run.now) }
{
    let mut notes = [NO_TAGS; STEPS];
    let mut cells = [0u16; STEPS];
    note(set, run, n, &mut notes);
    for k in 0..tags {
        if !tag_clear(run, &notes, &mut cells, n, Tag { k }) {
            return false;
        }
    }
    true
}

// 24: no step's memory gets a tag with two rows.
pub(crate) fn one_row(set: &[u8], run: &[u16], n: u16) -> bool
    requires { Fitted (decode set.now) (decode_steps run.now) n }
    ensures { result ≡ one_row? (decode set.now) (decode_steps run.now) }
{
    let h = header(set);
    let tags = h.tags;
    if tags == 0 {
        return true;
    }
    tags_clear(set, run, n, tags)
}
