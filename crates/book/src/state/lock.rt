// A job locks an object.
ghost use Rattle.std.specs.Prelude.{◌≡◌, ◌<◌, [], slice_index};
ghost use Rattle.terms.specs.declared.calls.Call.TheVariants.{Lock};
ghost use Rattle.protocol.specs.Holdings.{locked};
ghost use Rattle.protocol.specs.Lock.{no_job, no_live_job, lock_barred, lock_refusals};
ghost use Rattle.protocol.specs.Model.{holding_count};
ghost use Rattle.protocol.specs.Pairing.{kept_pairs};
ghost use Rattle.tables.specs.Items.{items};
ghost use Rattle.book.specs.Tests.{Tested, FindsJob};
ghost use Rattle.book.specs.View.{view, Follows};

use super::super::offering::Offering;
use super::super::place::Place;
use super::super::request::{Found, Request};
use super::Book;
use holders::{count_held, holds_object, is_open, would_ring};
use protocol::{Execution, Holding, HoldingState, Job, Refusal};
use tables::Table;
use terms::{JobRule, Mode, Store};

// What a job wants to lock, and how.
#[derive(Clone, Copy)]
struct Wanted {
    place: Place,
    object: u64,
    mode: Mode,
}

impl Wanted {
    // The holding with which the job locks the object.
    fn holding(self) -> Holding
        ensures { result ≡ locked self.place.number self.object self.mode }
    {
        Holding {
            job: self.place.number,
            object: self.object,
            state: HoldingState::from(self.mode),
        }
    }
}

impl Book {
    // The job that runs at a place.
    pub(super) fn running(&self, place: Place) -> Result<Job, Refusal>
        ensures { FindsJob (no_job (view [] self.now) place.number) (view [] self.now) place.number result }
    {
        self.job(u64::from(place.number)).ok_or(Refusal::NoJob)
    }

    // The job that runs at a place, and is not lost.
    pub(super) fn live_job(&self, place: Place) -> Result<Job, Refusal>
        ensures { FindsJob (no_live_job (view [] self.now) place.number) (view [] self.now) place.number result }
    {
        let job = self.running(place)?;
        if self.execution_count(u64::from(place.number)) == 0 {
            return Err(Refusal::LostJob);
        }
        Ok(job)
    }

    // The stored value and how many objects the job holds, where it may come to hold the object.
    fn admit<S: Store>(&self, store: &S, wanted: Wanted) -> Result<(u64, usize), Refusal>
        ensures { Tested (lock_barred (view (S.Store.values store.now) self.now) wanted.place.number wanted.object wanted.mode) (λ x. (x.0 ≡ slice_index (S.Store.values store.now) wanted.object) × (x.1 ≡ holding_count (view [] self.now) wanted.place.number) × (x.1 < 8)) result }
    {
        let Wanted { place, object, .. } = wanted;
        let stored = store.read(object).ok_or(Refusal::NoSuchObject)?;
        let holdings = self.holdings.in_use();
        if holds_object(holdings, place.number, object) {
            return Err(Refusal::AlreadyHeld);
        }
        let held = count_held(holdings, place.number);
        if held >= 8 {
            return Err(Refusal::TooManyHeld);
        }
        if is_open(holdings, object) {
            return Err(Refusal::OpenElsewhere);
        }
        if would_ring(holdings, &wanted.holding()) {
            return Err(Refusal::WouldWaitForItself);
        }
        Ok((stored, held))
    }

    // The executions that a job has once it has locked the object, or why it may not.
    fn weigh<S: Store, R: JobRule>(
        &self,
        store: &S,
        rule: &R,
        wanted: Wanted,
    ) -> Result<Table<Execution, 16>, Refusal>
        ensures { Tested (lock_refusals (R.JobRule.means rule.now) (view (S.Store.values store.now) self.now) wanted.place.number wanted.object wanted.mode) (λ t. items t ≡ kept_pairs (R.JobRule.means rule.now) (view (S.Store.values store.now) self.now) wanted.place.number wanted.object wanted.mode) result }
    {
        let Wanted {
            place,
            object,
            mode,
        } = wanted;
        let job = self.live_job(place)?;
        let (stored, held) = self.admit(store, wanted)?;
        let holdings = self.holdings.in_use();
        let offering = Offering { holdings, object };
        let offers = offering.offers(stored, self.versions.in_use());
        let request = Request {
            rule,
            place,
            job,
            object,
            mode,
            held,
            robustness: self.robustness,
        };
        let mut found = Found {
            pairs: Table::new(Execution::EMPTY),
            limit: self.limit,
        };
        request.pair_up(&mut found, self.executions.in_use(), offers.in_use())?;
        if found.pairs.in_use().is_empty() {
            return Err(Refusal::NoExecution);
        }
        Ok(found.pairs)
    }

    // A job comes to hold an object; its executions are those pairs of one with a value of the object that are kept.
    pub fn lock<S: Store, R: JobRule>(
        &mut self,
        store: &S,
        rule: &R,
        place: u64,
        object: u64,
        mode: Mode,
    ) -> Result<(), Refusal>
        ensures { Follows (R.JobRule.means rule.now) (view (S.Store.values store.now) self.old) (Lock place object mode) result (view (S.Store.values store.now) self.new) }
    {
        let here = Place::try_from(place)?;
        let wanted = Wanted {
            place: here,
            object,
            mode,
        };
        let found = self.weigh(store, rule, wanted)?;
        self.holdings.push(wanted.holding()).unwrap();
        self.executions.remove_job(here.number);
        self.executions.extend(found.in_use()).unwrap();
        Ok(())
    }
}
