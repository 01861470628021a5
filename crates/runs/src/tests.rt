// The run check's tests 21 to 26, each over the whole run.
ghost use Rattle.std.specs.Prelude.{◌≡◌, true, ◌-◌, length, is_some, IfSome};
ghost use Rattle.model.specs.Limits.{max_children};
ghost use Rattle.model.specs.Lists.{all_below};
ghost use Rattle.model.specs.WrittenTest.{known?, place_fits?, step_fits?, ends?, used?};
ghost use Rattle.base.specs.Refusals.{refused_by};
ghost use Rattle.automaton.specs.Stored.{decode};
ghost use Rattle.document.specs.Rows.{decode_rows};
ghost use Rattle.document.specs.Check.{document_check_of};
ghost use Rattle.runs.specs.Steps.{place_in, decode_steps};
ghost use Rattle.runs.specs.Check.{counted?, run_check_of};

use crate::memories::one_row;
use crate::steps::{STEP_CELLS, count, place, places, row, rule, target};
use automaton::{header, is_final, rule_child, rule_symbol};
use base::limits::{MAX_CHILDREN, MAX_STEPS, UNUSED};
use base::refusal::Refusal;
use document::marks::{all_marked, mark};
use document::rows;
use document::rows::Step;

// A sound set and a sound table, and a run that passed 21, with its number of steps.
#[derive(Clone, Copy)]
pub(crate) struct CountedRun<'a> {
    set: &'a [u8],
    rows: &'a [u16],
    run: &'a [u16],
    n: u16,
    ghost sound: { document_check_of set.now rows.now ≡ 0 },
    ghost counted: { counted? run.now ≡ true },
    ghost steps: { n ≡ length (decode_steps run.now) },
}

// One of its steps, whose rule and row are known.
#[derive(Clone, Copy)]
struct KnownStep<'a> {
    of: CountedRun<'a>,
    i: Step,
    ghost known: { known? (decode of.set.now) (decode_rows of.rows.now) (decode_steps of.run.now) i.0 ≡ true },
}

// 22 at step i.
fn step_known(set: &[u8], rows: &[u16], run: &[u16], i: Step) -> bool
    ensures { result ≡ known? (decode set.now) (decode_rows rows.now) (decode_steps run.now) i.0 }
{
    let h = header(set);
    let on = row(run, i);
    (rule(run, i) < h.rules) & (usize::from(on.0) < rows::count(rows))
}

impl<'a> KnownStep<'a> {
    // 23 at place k: a lower step for the child that the row has there, in the state that the rule asks.
    fn place_fits(&self, k: u16) -> bool
        ensures { result ≡ place_fits? (decode self.now.of.set.now) (decode_rows self.now.of.rows.now) (decode_steps self.now.of.run.now) self.now.i.0 k (place_in self.now.of.run.now self.now.i.0 k) }
    {
        let run = self.of.run;
        let i = self.i;
        let x = place(run, i, k);
        let child = rows::place(self.of.rows, row(run, i), k);
        if child.0 == UNUSED {
            return x.0 == UNUSED;
        }
        if i.0 <= x.0 {
            return false;
        }
        let on = row(run, x);
        let q = target(self.of.set, run, x);
        let asked = rule_child(self.of.set, rule(run, i), k);
        (on.0 == child.0) & (q.0 == asked.0)
    }

    fn places_fit(&self) -> bool
        ensures { result ≡ all_below max_children (λ k. place_fits? (decode self.now.of.set.now) (decode_rows self.now.of.rows.now) (decode_steps self.now.of.run.now) self.now.i.0 k (place_in self.now.of.run.now self.now.i.0 k)) }
    {
        (0..MAX_CHILDREN).all(|k| self.place_fits(k))
    }

    // 23 at the step.
    fn fits(&self) -> bool
        ensures { result ≡ step_fits? (decode self.now.of.set.now) (decode_rows self.now.of.rows.now) (decode_steps self.now.of.run.now) (place_in self.now.of.run.now) self.now.i.0 }
    {
        let on = row(self.of.run, self.i);
        if rule_symbol(self.of.set, rule(self.of.run, self.i)) == rows::symbol(self.of.rows, on) {
            return self.places_fit();
        }
        false
    }
}

impl<'a> CountedRun<'a> {
    // 21: 1 to 4,096 steps, none cut short.
    pub(crate) fn counted(set: &'a [u8], rows: &'a [u16], run: &'a [u16]) -> Option<CountedRun<'a>>
        requires { document_check_of set.now rows.now ≡ 0 }
        ensures told { is_some result ≡ counted? run.now }
        ensures same { IfSome result (λ c. (c.set.now ≡ set.now) × (c.rows.now ≡ rows.now) × (c.run.now ≡ run.now)) }
    {
        let n = count(run);
        if (1 <= n) & ((n <= usize::from(MAX_STEPS)) & (run.len() % STEP_CELLS == 0)) {
            return Some(CountedRun {
                set,
                rows,
                run,
                n: n as u16,
            });
        }
        None
    }

    fn all_known(&self) -> bool
        ensures { result ≡ all_below (length (decode_steps self.now.run.now)) (known? (decode self.now.set.now) (decode_rows self.now.rows.now) (decode_steps self.now.run.now)) }
    {
        (0..self.n).all(|i| step_known(self.set, self.rows, self.run, Step(i)))
    }

    fn all_fit(&self) -> bool
        requires { all_below self.now.n (known? (decode self.now.set.now) (decode_rows self.now.rows.now) (decode_steps self.now.run.now)) ≡ true }
        ensures { result ≡ all_below (length (decode_steps self.now.run.now)) (step_fits? (decode self.now.set.now) (decode_rows self.now.rows.now) (decode_steps self.now.run.now) (place_in self.now.run.now)) }
    {
        for i in 0..self.n {
            let step = KnownStep {
                of: *self,
                i: Step(i),
            };
            if !step.fits() {
                return false;
            }
        }
        true
    }

    // 25: the last step is on the last row, in a final state.
    fn ends(&self) -> bool
        requires { all_below self.now.n (known? (decode self.now.set.now) (decode_rows self.now.rows.now) (decode_steps self.now.run.now)) ≡ true }
        ensures { result ≡ ends? (decode self.now.set.now) (decode_rows self.now.rows.now) (decode_steps self.now.run.now) }
    {
        let last = Step(self.n - 1);
        let on = row(self.run, last);
        (usize::from(on.0) == rows::count(self.rows) - 1)
            & is_final(self.set, target(self.set, self.run, last))
    }

    // 26: one pass marks what every step uses, then every step but the last must be marked.
    fn all_used(&self) -> bool
        ensures { result ≡ all_below (length (decode_steps self.now.run.now) - 1) (used? (decode_steps self.now.run.now)) }
    {
        let mut marks = [false; MAX_STEPS as usize];
        for j in 0..self.n {
            mark(&mut marks, Step(j), &places(self.run, Step(j)));
        }
        all_marked(&marks, self.n - 1)
    }

    // 22 to 26, each over the whole run before the next.
    pub(crate) fn tried(&self) -> Result<(), Refusal>
        ensures { refused_by result ≡ run_check_of (decode self.now.set.now) (decode_rows self.now.rows.now) self.now.run.now }
    {
        if !self.all_known() {
            return Err(Refusal::StepUnknown);
        }
        if !self.all_fit() {
            return Err(Refusal::StepMisfit);
        }
        if !one_row(self.set, self.run, self.n) {
            return Err(Refusal::RunTag);
        }
        if !self.ends() {
            return Err(Refusal::RunEnd);
        }
        if !self.all_used() {
            return Err(Refusal::StepUnused);
        }
        Ok(())
    }
}
