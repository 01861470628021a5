// Emptiness of an automaton: dead, or live with the witness, which document 01 calls the sample.
#![tactic(auto)]

mod places; // places.rt: which rules name a state
mod marking; // marking.rt: which states have a tree, by rounds
mod tags; // tags.rt: tags that two states share
mod building; // building.rt: the witness's rows

ghost use Rattle.std.specs.Prelude.{◌≡◌, ◌*◌, ◌≤◌, length};
ghost use Rattle.model.specs.Witness.{witness as witness_of};
ghost use Rattle.base.specs.Refusals.{refused_by};
ghost use Rattle.automaton.specs.Stored.{decode};
ghost use Rattle.automaton.specs.Check.{check_of};
ghost use Rattle.document.specs.Rows.{row_cells};
ghost use Rattle.emptiness.specs.Answer.{sample_check_of, sampled, emptiness_answer, shape_of, space_of, emptiness_of, space_after};

use base::limits::UNUSED;
use base::refusal::Refusal;
use building::Builder;
use document::index::SLOTS;
use document::rows::ROW_CELLS;
use marking::mark;
use places::STATES;
use tags::all_apart;

// The lowest document that a set lets in: how many rows and levels it has.
#[derive(Clone, Copy, Debug, PartialEq, Eq)]
pub struct Sample {
    pub rows: u16,
    pub levels: u16,
}

// A set that passed its check, and how many states and rules it has.
#[derive(Clone, Copy)]
pub(crate) struct SoundSet<'a> {
    pub(crate) bytes: &'a [u8],
    pub(crate) states: u16,
    pub(crate) rules: u16,
    ghost sound: { check_of bytes.now ≡ 0 },
    ghost all_states: { states ≡ length (decode bytes.now).states },
    ghost all_rules: { rules ≡ length (decode bytes.now).rules },
}

// The space holds a row for each state, and no two states share a tag.
fn sample_check(set: SoundSet, space: usize) -> Result<(), Refusal>
    ensures { refused_by result ≡ sample_check_of (decode set.entry.bytes.now) space }
{
    if space / ROW_CELLS < usize::from(set.states) {
        return Err(Refusal::RowSpace);
    }
    if !all_apart(set) {
        return Err(Refusal::TagShared);
    }
    Ok(())
}

// The sample of a live set, its rows written to the front of the space.
fn find(set: SoundSet, rows: &mut [u16]) -> Option<Sample>
    requires { length (decode set.bytes.now).states * row_cells ≤ length rows.old }
    ensures answer { sampled result ≡ shape_of (witness_of (decode set.entry.bytes.now)) }
    ensures space { rows.new ≡ space_of 0 (witness_of (decode set.entry.bytes.now)) rows.old }
{
    let m = mark(set)?;
    let mut builder = Builder {
        slots: [0u16; SLOTS],
        memo: [UNUSED; STATES],
        count: 0,
    };
    builder.build(set.bytes, &m.marks, rows, set.states, m.round, m.state);
    Some(Sample {
        rows: builder.count,
        levels: m.round,
    })
}

// Whether a set lets in no document, or the lowest that it lets in, as rows at the front of the space.
pub fn witness(set: &[u8], rows: &mut [u16]) -> Result<Option<Sample>, Refusal>
    ensures answer { emptiness_answer result ≡ emptiness_of set.now (length rows.old) }
    ensures space { rows.new ≡ space_after set.now rows.old }
{
    automaton::check(set)?;
    let h = automaton::header(set);
    let sound = SoundSet {
        bytes: set,
        states: h.states,
        rules: h.rules,
    };
    sample_check(sound, rows.len())?;
    Ok(find(sound, rows))
}
