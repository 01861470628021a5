// Lent steps, by index: every function answers for every slice. A step past the last whole one has rule 0 and row 0.
ghost use Rattle.std.specs.Prelude.{◌≡◌, ◌*◌, length};
ghost use Rattle.model.specs.Space.{put_at};
ghost use Rattle.model.specs.Written.{step_at, rule_of};
ghost use Rattle.automaton.specs.Stored.{decode};
ghost use Rattle.runs.specs.Steps.{step_cells, cell_in, places_in, place_in, decode_steps};
ghost use Rattle.runs.specs.Fields.{step_numbers, field_cells};

use automaton::{State, rule_target};
use base::limits::{MAX_CHILDREN, PLACES, UNUSED};
use base::space::put;
use document::rows::{Row, Step};

// A step by value; an unused place holds UNUSED.
#[derive(Clone, Copy)]
pub struct StepFields {
    pub rule: u16,
    pub row: Row,
    pub places: [Step; PLACES],
}

pub const STEP_CELLS: usize = 6;

// As many steps as fit whole.
pub fn count(run: &[u16]) -> usize
    ensures { result ≡ length (decode_steps run.now) }
{
    run.len() / STEP_CELLS
}

// Cell k of step i.
fn cell(run: &[u16], i: Step, k: u16) -> u16
    ensures { result ≡ cell_in run.now i.0 k }
{
    let at = usize::from(i.0) * STEP_CELLS + usize::from(k);
    run.get(at).copied().unwrap_or(0)
}

pub fn rule(run: &[u16], i: Step) -> u16
    ensures { result ≡ (step_at (decode_steps run.now) i.0).rule }
{
    if usize::from(i.0) < count(run) {
        return cell(run, i, 0);
    }
    0
}

pub fn row(run: &[u16], i: Step) -> Row
    ensures { result.0 ≡ (step_at (decode_steps run.now) i.0).row }
{
    if usize::from(i.0) < count(run) {
        return Row(cell(run, i, 1));
    }
    Row(0)
}

// Place k of step i: a child step's number, or UNUSED. It is no Option, since the clause says the number that the cell holds.
pub fn place(run: &[u16], i: Step, k: u16) -> Step
    ensures { result.0 ≡ place_in run.now i.0 k }
{
    if k < MAX_CHILDREN {
        return Step(cell(run, i, 2 + k));
    }
    Step(UNUSED)
}

// The four places of step i.
pub fn places(run: &[u16], i: Step) -> [Step; PLACES]
    ensures { step_numbers result ≡ places_in run.now i.0 }
{
    [
        Step(cell(run, i, 2)),
        Step(cell(run, i, 3)),
        Step(cell(run, i, 4)),
        Step(cell(run, i, 5)),
    ]
}

// The state that step i leads to.
pub fn target(set: &[u8], run: &[u16], i: Step) -> State
    ensures { result.0 ≡ (rule_of (decode set.now) (decode_steps run.now) i.0).target }
{
    rule_target(set, rule(run, i))
}

// Makes it step i of the space; where its cells do not fit whole, nothing is written.
pub fn put_step(out: &mut [u16], i: Step, f: StepFields)
    ensures { out.new ≡ put_at out.old (i.0 * step_cells) (field_cells f) }
{
    let row = f.row;
    let places = f.places;
    let cells = [
        f.rule,
        row.0,
        places[0].0,
        places[1].0,
        places[2].0,
        places[3].0,
    ];
    put(out, usize::from(i.0) * STEP_CELLS, &cells);
}
