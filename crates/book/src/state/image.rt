// A job's open holding is turned, and each of its executions makes a version.
ghost use Rattle.std.specs.Prelude.{[]};
ghost use Rattle.terms.specs.declared.calls.Call.TheVariants.{Image};
ghost use Rattle.protocol.specs.Image.{image_refusals};
ghost use Rattle.book.specs.Tests.{FindsJob};
ghost use Rattle.book.specs.View.{view, Follows};

use super::super::making::Making;
use super::super::place::Place;
use super::super::searching::count_of;
use super::Book;
use holders::{find_open, position};
use protocol::{Job, Refusal};
use terms::{JobRule, Store};

impl Book {
    // The job, where it may image the object. The room is tested here, before anything is made, so that a refused image asks the rule for nothing.
    fn may_image<S: Store>(&self, store: &S, place: Place, object: u64) -> Result<Job, Refusal>
        ensures { FindsJob (image_refusals (view (S.Store.values store.now) self.now) place.number object) (view [] self.now) place.number result }
    {
        let job = self.live_job(place)?;
        store.read(object).ok_or(Refusal::NoSuchObject)?;
        find_open(self.holdings.in_use(), place.number, object)?;
        let count = count_of(self.executions.in_use(), place);
        if count > 256 - self.versions.len() {
            return Err(Refusal::TooManyVersions);
        }
        Ok(job)
    }

    // Each execution of a job makes a version of an object that the job has open.
    pub fn image<S: Store, R: JobRule>(
        &mut self,
        store: &S,
        rule: &R,
        place: u64,
        object: u64,
    ) -> Result<(), Refusal>
        ensures { Follows (R.JobRule.means rule.now) (view (S.Store.values store.now) self.old) (Image place object) result (view (S.Store.values store.now) self.new) }
    {
        let here = Place::try_from(place)?;
        let job = self.may_image(store, here, object)?;
        let met = position(self.holdings.in_use(), here.number, object);
        let making = Making {
            rule,
            place: here,
            job,
            object,
            met,
        };
        let made = making.versions(self.executions.in_use());
        self.versions.extend(made.in_use()).unwrap();
        self.holdings.turn(here.number, object);
        Ok(())
    }
}
