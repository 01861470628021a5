// The written run: its steps, lent as cells, and its check.
#![tactic(auto)]

ghost use Rattle.std.specs.Prelude.{◌≡◌};
ghost use Rattle.model.specs.Refusal.{unless};
ghost use Rattle.base.specs.Refusals.{refused_by};
ghost use Rattle.automaton.specs.Stored.{decode};
ghost use Rattle.automaton.specs.Answer.{check_answer};
ghost use Rattle.document.specs.Rows.{decode_rows};
ghost use Rattle.document.specs.Check.{document_check_of};
ghost use Rattle.runs.specs.Check.{run_check_of, check_run_of};

pub mod steps; // steps.rt: lent steps, by index
mod memories; // memories.rt: the test 24, tag by tag
mod tests; // tests.rt: each test over the whole run

use base::refusal::Refusal;
use tests::CountedRun;

// The tests of the run, in their order, where the set and the table are sound.
fn tried(set: &[u8], rows: &[u16], run: &[u16]) -> Result<(), Refusal>
    requires { document_check_of set.now rows.now ≡ 0 }
    ensures { refused_by result ≡ run_check_of (decode set.now) (decode_rows rows.now) run.now }
{
    let Some(counted) = CountedRun::counted(set, rows, run) else {
        return Err(Refusal::RunLength);
    };
    counted.tried()
}

// Whether the run shows that the set lets the document in; else what refuses the set, the table or the run, in this order.
pub fn check(set: &[u8], rows: &[u16], run: &[u16]) -> Result<(), Refusal>
    ensures { check_answer result ≡ unless (check_run_of set.now rows.now run.now) tt }
{
    document::check(set, rows)?;
    tried(set, rows, run)
}
