// The judge of crate `membership`, with a search for the annotations that follows no choice twice. What that crate has too stays where its contract differs: here nothing stands past a memory's tags, on which the comparisons without a branch rest.
#![tactic(auto)]

mod memory; // memory.rt: memories, place by place
mod entries; // entries.rt: annotations with their sources in the work space
mod index; // index.rt: finding an equal annotation
mod chains; // chains.rt: the annotations of a window by their states
mod tried; // tried.rt: joined memories that were tried already
mod search; // search.rt: every choice of annotations for a rule's children
mod table; // table.rt: the annotations of a whole table

ghost use Rattle.std.specs.Prelude.{◌≡◌};
ghost use Rattle.document.specs.Check.{document_check_of};
ghost use Rattle.membership.specs.Judge.{Judging};

use crate::table::annotate;
use base::refusal::Refusal;
pub use membership::{ANNOTATION_CELLS, clear};
use membership::{room_of, write_run};

// The judging of a sound set and table. It stays beside that of `membership`: all but the search is called there, and the search as a parameter would bring its contract in as F.pre and F.post.
fn decide(
    set: &[u8],
    rows: &[u16],
    work: &mut [u16],
    run: &mut [u16],
) -> Result<Option<u16>, Refusal>
    requires { document_check_of set.now rows.now ≡ 0 }
    ensures { Judging set.now rows.now work.old run.old result work.new run.new }
{
    let room = room_of(work.len());
    if runs::steps::count(run) < room {
        return Err(Refusal::RunSpace);
    }
    let Some(n) = annotate(set, rows, work) else {
        clear(work);
        return Err(Refusal::NoRoom);
    };
    let steps = write_run(set, rows, work, n, run);
    clear(work);
    Ok(steps)
}

// Whether the set lets the document in: yes with the number of steps of the run handed back, which the run check passes, or no. Once 32 is passed the work space is zeros afterwards, else it is untouched.
pub fn judge(
    set: &[u8],
    rows: &[u16],
    work: &mut [u16],
    run: &mut [u16],
) -> Result<Option<u16>, Refusal>
    ensures { Judging set.now rows.now work.old run.old result work.new run.new }
{
    document::check(set, rows)?;
    decide(set, rows, work, run)
}
