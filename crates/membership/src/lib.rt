// The judge: annotations in a lent work space, a run of those reached from an accepting one, and the decision.
#![tactic(auto)]

pub mod cells; // cells.rt: which cells of the work space an annotation has
mod memory; // memory.rt: memories, place by place
mod entries; // entries.rt: annotations with their sources in the work space
mod index; // index.rt: finding an equal annotation
mod search; // search.rt: every choice of annotations for a rule's children
mod table; // table.rt: the annotations of a whole table
mod trace; // trace.rt: the annotations reached from an accepting one
mod write; // write.rt: their run

ghost use Rattle.std.specs.Prelude.{◌≡◌, length, replicate};
ghost use Rattle.document.specs.Check.{document_check_of};
ghost use Rattle.membership.specs.Judge.{Judging};

pub use crate::cells::ANNOTATION_CELLS;
pub use crate::entries::narrow;
pub use crate::index::{link_at, slot_of};
pub use crate::memory::{join, kept_place};
use crate::table::annotate;
pub use crate::table::{Plan, bounds, cell_at, first_rules, own_place, room_of, start_at};
pub use crate::write::write_run;
use base::refusal::Refusal;

// The whole space becomes zeros.
pub fn clear(work: &mut [u16])
    ensures { work.new ≡ replicate (length work.old) 0 }
{
    work.fill(0);
}

// The judging of a sound set and table.
fn decide(
    set: &[u8],
    rows: &[u16],
    work: &mut [u16],
    run: &mut [u16],
) -> Result<Option<u16>, Refusal>
    requires { document_check_of set.now rows.now ≡ 0 }
    ensures { Judging set.now rows.now work.old run.old result work.new run.new }
{
    let room = room_of(work.len());
    if runs::steps::count(run) < room {
        return Err(Refusal::RunSpace);
    }
    let Some(n) = annotate(set, rows, work) else {
        clear(work);
        return Err(Refusal::NoRoom);
    };
    let steps = write_run(set, rows, work, n, run);
    clear(work);
    Ok(steps)
}

// Whether the set lets the document in: yes with the number of steps of the run handed back, which the run check passes, or no. Once 32 is passed the work space is zeros afterwards, else it is untouched.
pub fn judge(
    set: &[u8],
    rows: &[u16],
    work: &mut [u16],
    run: &mut [u16],
) -> Result<Option<u16>, Refusal>
    ensures { Judging set.now rows.now work.old run.old result work.new run.new }
{
    document::check(set, rows)?;
    decide(set, rows, work, run)
}
