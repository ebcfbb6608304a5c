// What an execution makes.
ghost use Rattle.std.specs.Prelude.{◌≡◌, ◌<◌, ◌≤◌, map, length, Some, filter};
ghost use Rattle.protocol.specs.Image.{version_by};
ghost use Rattle.protocol.specs.Model.{names};
ghost use Rattle.tables.specs.Items.{items};

use super::gathering::gather;
use super::place::Place;
use protocol::{Assumption, Execution, Job, PlaceSet, Version};
use tables::Table;
use terms::JobRule;

// An image that is asked for, with what is the same for all executions of its job.
// Four fields are a lock's request's too: a struct of these in both, with the rule's `give` and `take` as methods, was tried and is no plainer: 34 lines more, and each method has one caller.
#[derive(Drop)]
pub(crate) struct Making<'a, R> {
    pub rule: &'a R,
    pub place: Place,
    pub job: Job,
    pub object: u64,
    // where the object stands among those that the job holds
    pub met: usize,
    ghost held: { met < 8 },
}

impl<R: JobRule> Making<'_, R> {
    // The version by one execution of the job.
    fn version(&self, execution: &Execution) -> Version
        requires { execution.now.job ≡ self.now.place.number }
        ensures { result ≡ version_by (R.JobRule.means self.now.rule.now) (Some self.now.job) self.now.object self.now.met execution.now }
    {
        let value = self.rule.give(
            self.job.kind,
            self.job.argument,
            execution.work,
            self.object,
            execution.met[self.met],
        );
        let own = PlaceSet::only(execution.job);
        Version {
            object: self.object,
            maker: execution.job,
            value,
            assumes: Assumption {
                commits: execution.assumes.commits.joined(own),
                ..execution.assumes
            },
        }
    }

    // The versions by the job's executions, in order.
    pub(crate) fn versions(&self, executions: &[Execution]) -> Table<Version, 16>
        requires { length (filter (names self.now.place.number) executions.now) ≤ 16 }
        ensures { items result ≡ map (version_by (R.JobRule.means self.now.rule.now) (Some self.now.job) self.now.object self.now.met) (filter (names self.now.place.number) executions.now) }
    {
        let mut all = Table::new(Version::EMPTY);
        let made = executions
            .iter()
            .filter(|execution| execution.job == self.place.number)
            .map(|execution| self.version(execution));
        gather(&mut all, made);
        all
    }
}
