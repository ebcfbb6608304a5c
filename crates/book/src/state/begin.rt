// A new book, and a job that begins.
ghost use Rattle.std.specs.Prelude.{◌≡◌, ℕ, List, [], None};
ghost use Rattle.terms.specs.declared.calls.Call.TheVariants.{Begin};
ghost use Rattle.protocol.specs.Begin.{begin_refusals};
ghost use Rattle.protocol.specs.Model.{new, job_at};
ghost use Rattle.protocol.specs.Step.{new_refusals};
ghost use Rattle.book.specs.Tests.{Tested};
ghost use Rattle.book.specs.View.{view, Follows};

use super::super::place::Place;
use super::Book;
use protocol::{Execution, Holding, Job, Refusal};
use tables::Table;
use terms::JobRule;

impl Book {
    // A book without jobs. The robustness says how many jobs an execution may ever have taken to abort, the limit how many executions a job may have.
    pub fn new(robustness: u64, limit: u64) -> Result<Book, Refusal>
        ensures { Tested (new_refusals robustness limit) (λ book. (values : List ℕ) → view values book ≡ new robustness limit values) result }
    {
        if robustness > 120 {
            return Err(Refusal::RobustnessTooLarge);
        }
        if limit == 0 || limit > 16 {
            return Err(Refusal::LimitOutOfRange);
        }
        Ok(Book {
            robustness: robustness as u8,
            limit: limit as usize,
            jobs: [None; 16],
            holdings: Table::new(Holding::EMPTY),
            executions: Table::executions(),
            versions: Table::versions(),
        })
    }

    // The kind, where a job of it may begin there.
    fn may_begin<R: JobRule>(&self, rule: &R, place: Place, kind: u64) -> Result<u8, Refusal>
        ensures { Tested (begin_refusals (R.JobRule.means rule.now) (view [] self.now) place.number kind) (λ k. (job_at (view [] self.now) place.number ≡ None) × (k ≡ kind)) result }
    {
        if self.job(u64::from(place.number)).is_some() {
            return Err(Refusal::PlaceTaken);
        }
        match u8::try_from(kind) {
            Ok(kind) if rule.knows(kind) => Ok(kind),
            _ => Err(Refusal::UnknownKind),
        }
    }

    // A job starts at a place, with one execution that takes nothing.
    pub fn begin<R: JobRule>(
        &mut self,
        rule: &R,
        place: u64,
        kind: u64,
        argument: u64,
    ) -> Result<(), Refusal>
        ensures { (values : List ℕ) → Follows (R.JobRule.means rule.now) (view values self.old) (Begin place kind argument) result (view values self.new) }
    {
        let here = Place::try_from(place)?;
        let kind = self.may_begin(rule, here, kind)?;
        let first = Execution {
            job: here.number,
            work: rule.start(kind, argument),
            ..Execution::EMPTY
        };
        self.executions.push(first).unwrap();
        self.jobs[here.number as usize] = Some(Job { kind, argument });
        Ok(())
    }
}
