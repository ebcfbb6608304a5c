// A job ends.
ghost use Rattle.std.specs.Prelude.{◌≡◌, ℕ, List, []};
ghost use Rattle.std.specs.Result.{result_err};
ghost use Rattle.terms.specs.declared.calls.Call.TheVariants.{Abort, Commit};
ghost use Rattle.terms.specs.Rule.{Rule};
ghost use Rattle.protocol.specs.Ending.{commit_refusals};
ghost use Rattle.protocol.specs.Lists.{first};
ghost use Rattle.protocol.specs.Settling.{settle};
ghost use Rattle.book.specs.View.{view, Follows};

use super::super::place::Place;
use super::super::writing::Made;
use super::Book;
use holders::{has_open, waits_of};
use protocol::{Ending, Refusal};
use terms::Store;

impl Book {
    // The job leaves, and is settled.
    fn end(&mut self, place: Place, ending: Ending)
        ensures { (values written : List ℕ) → view written self.new ≡ settle ending place.number written (view values self.old) }
    {
        self.jobs[place.number as usize] = None;
        self.holdings.remove_job(place.number);
        self.executions.settle(place.number, ending);
        self.versions.settle(place.number, ending);
    }

    // A job is given up, and the store is untouched.
    pub fn abort(&mut self, place: u64) -> Result<(), Refusal>
        ensures { (rule : Rule) (values : List ℕ) → Follows rule (view values self.old) (Abort place) result (view values self.new) }
    {
        let here = Place::try_from(place)?;
        self.running(here)?;
        self.end(here, Ending::Aborted);
        Ok(())
    }

    // Whether a job may commit.
    fn may_commit(&self, place: Place) -> Result<(), Refusal>
        ensures { result_err result ≡ first (commit_refusals (view [] self.now) place.number) }
    {
        self.live_job(place)?;
        let holdings = self.holdings.in_use();
        if has_open(holdings, place.number) {
            return Err(Refusal::HasOpen);
        }
        if !waits_of(holdings, place.number).is_empty() {
            return Err(Refusal::Waits);
        }
        Ok(())
    }

    // What a job made is written to the store, and the job is settled.
    pub fn commit<S: Store>(&mut self, store: &mut S, place: u64) -> Result<(), Refusal>
        ensures { (rule : Rule) → Follows rule (view (S.Store.values store.old) self.old) (Commit place) result (view (S.Store.values store.new) self.new) }
    {
        let here = Place::try_from(place)?;
        self.may_commit(here)?;
        let made = Made {
            place: here,
            versions: self.versions.in_use(),
        };
        made.write(store, self.holdings.in_use());
        self.end(here, Ending::Committed);
        Ok(())
    }
}
