// The run of the first accepting annotation, written at the front of the run space.
ghost use Rattle.std.specs.Prelude.{◌≡◌, ◌+◌, ◌*◌, ◌≤◌, ◌<◌, length};
ghost use Rattle.model.specs.Limits.{max_steps};
ghost use Rattle.model.specs.Space.{put_at};
ghost use Rattle.model.specs.Table.{SoundTable};
ghost use Rattle.model.specs.Annotation.{annotations};
ghost use Rattle.automaton.specs.Stored.{decode};
ghost use Rattle.automaton.specs.Check.{check_of};
ghost use Rattle.document.specs.Rows.{decode_rows};
ghost use Rattle.runs.specs.Steps.{step_cells};
ghost use Rattle.membership.specs.Cells.{annotations_in};
ghost use Rattle.membership.specs.Sources.{SourcedIn};
ghost use Rattle.membership.specs.Trace.{Reached, with_number, step_of};
ghost use Rattle.membership.specs.Handed.{StepsWritten, RunWritten};

use crate::cells::{ANNOTATION_CELLS, NUMBER, ROW, RULE};
use crate::trace::{cell, first_accepting, is_reached, last_row, places_of, source, trace};
use document::rows::{Row, Step};
use runs::steps::{StepFields, put_step};

// Annotation j is step s of the run.
fn write_step(work: &mut [u16], run: &mut [u16], j: usize, s: Step)
    requires { j * 32 + 32 ≤ length work.old }
    ensures { (work.new ≡ with_number work.old j s.0) × (run.new ≡ put_at run.old (s.0 * step_cells) (step_of work.old j)) }
{
    let rule = cell(work, source(j), RULE);
    let row = Row(cell(work, j, ROW));
    let places = places_of(work, j);
    put_step(
        run,
        s,
        StepFields {
            rule: rule,
            row: row,
            places: places,
        },
    );
    work[j * ANNOTATION_CELLS + NUMBER] = s.0;
}

// The annotations that are reached become steps, in ascending order.
fn write_steps(work: &mut [u16], run: &mut [u16], root: usize) -> u16
    requires bounds { (root < max_steps) × (root * 32 + 32 ≤ length work.old) × (root * 6 + 6 ≤ length run.old) }
    requires reached { Reached work.old root }
    ensures { StepsWritten work.old root run.old run.new result }
{
    let mut s = 0;
    for j in 0..root + 1 {
        if is_reached(work, j) {
            write_step(work, run, j, Step(s));
            s += 1;
        }
    }
    s
}

// The run of the first accepting annotation of n, where there is one: the number of its steps.
pub fn write_run(
    set: &[u8],
    rows: &[u16],
    work: &mut [u16],
    n: usize,
    run: &mut [u16],
) -> Option<u16>
    requires sound { (check_of set.now ≡ 0) × SoundTable (decode set.now) (decode_rows rows.now) }
    requires few { (n ≤ max_steps) × (n * 32 ≤ length work.old) × (n * 6 ≤ length run.old) }
    requires known { (annotations_in (decode set.now).tags work.old n ≡ annotations (decode set.now) (decode_rows rows.now)) × SourcedIn (decode set.now) (decode_rows rows.now) (decode set.now).tags work.old n }
    ensures { RunWritten (decode set.now) (decode_rows rows.now) n run.old run.new result }
{
    let last = last_row(rows);
    let root = first_accepting(set, work, n, last)?;
    trace(work, root);
    Some(write_steps(work, run, root))
}
