// Questions change nothing, and what is not there answers none. No record names a place above 15, so at one no record is gone through.
ghost use Rattle.std.specs.Prelude.{◌≡◌, [], map, length, filter};
ghost use Rattle.protocol.specs.Holdings.{held_by};
ghost use Rattle.protocol.specs.Model.{job_at, holding_count, executions_of};
ghost use Rattle.protocol.specs.Pairing.{of_object};
ghost use Rattle.std.specs.List.{slice_get};
ghost use Rattle.book.specs.Questions.{made_version, object_versions};
ghost use Rattle.book.specs.View.{view};

use super::super::place::Place;
use super::super::searching::{count_of, nth_of};
use super::Book;
use protocol::{Assumption, Execution, Holding, Job, Version};
use std::iter;
use terms::Store;

// A value that an object has or would have. The stored value has no maker.
#[derive(Clone, Copy, PartialEq, Eq, Debug)]
pub struct ObjectVersion {
    pub maker: Option<u8>,
    pub value: u64,
    pub assumes: Assumption,
}

// A version by a running job.
impl From<&Version> for ObjectVersion {
    ghost from_gives = { λ version made. made ≡ made_version version.now };

    fn from(version: &Version) -> ObjectVersion {
        ObjectVersion {
            maker: Some(version.maker),
            value: version.value,
            assumes: version.assumes,
        }
    }
}

impl Book {
    // The job that runs at a place: its kind and its argument.
    pub fn job(&self, place: u64) -> Option<Job>
        ensures { result ≡ job_at (view [] self.now) place }
    {
        self.jobs.get(place as usize).copied().flatten()
    }

    // How many objects a job holds.
    pub fn holding_count(&self, place: u64) -> usize
        ensures { result ≡ holding_count (view [] self.now) place }
    {
        Place::try_from(place).map_or(0, |here| count_of(self.holdings.in_use(), here))
    }

    // The n-th holding of a job, in the order of locking, from 0.
    pub fn holding(&self, place: u64, n: u64) -> Option<Holding>
        ensures { result ≡ slice_get (filter (held_by place) (view [] self.now).holdings) n }
    {
        let here = Place::try_from(place).ok()?;
        nth_of(self.holdings.in_use(), here, n)
    }

    // How many executions a job has.
    pub fn execution_count(&self, place: u64) -> usize
        ensures { result ≡ length (executions_of place (view [] self.now)) }
    {
        Place::try_from(place).map_or(0, |here| count_of(self.executions.in_use(), here))
    }

    // The n-th execution of a job, from 0.
    pub fn execution(&self, place: u64, n: u64) -> Option<Execution>
        ensures { result ≡ slice_get (executions_of place (view [] self.now)) n }
    {
        let here = Place::try_from(place).ok()?;
        nth_of(self.executions.in_use(), here, n)
    }

    // The n-th version of an object, from 0, which is the stored value.
    pub fn version<S: Store>(&self, store: &S, object: u64, n: u64) -> Option<ObjectVersion>
        ensures { result ≡ slice_get (object_versions (view (S.Store.values store.now) self.now) object) n }
    {
        let stored = ObjectVersion {
            maker: None,
            value: store.read(object)?,
            assumes: Assumption::EMPTY,
        };
        let made = self
            .versions
            .in_use()
            .iter()
            .filter(|version| version.object == object)
            .map(ObjectVersion::from);
        iter::once(stored).chain(made).nth(n as usize)
    }
}
