// An execution meets an offer.
ghost use Rattle.std.specs.Prelude.{◌≡◌, ◌+◌, true};
ghost use Rattle.protocol.specs.Assumptions.{commits_of, aborts_of, assume};
ghost use Rattle.protocol.specs.Pairing.{is_kept};
ghost use Rattle.protocol.specs.Places.{join, without, size};
ghost use Rattle.book.specs.Meeting.{meeting};

use super::request::Request;
use protocol::{Assumption, Execution, Offer, PlaceSet};
use terms::JobRule;

// What the two take of how running jobs will end.
fn joined(execution: &Execution, offer: &Offer) -> Assumption
    ensures { result ≡ assume (join (commits_of execution.now.assumes) (commits_of offer.now.assumes)) (join (aborts_of execution.now.assumes) (aborts_of offer.now.assumes)) }
{
    let old = execution.assumes;
    Assumption {
        commits: old.commits.joined(offer.assumes.commits),
        aborts: old.aborts.joined(offer.assumes.aborts),
    }
}

// The tally, once these jobs are taken to abort.
fn tally(execution: &Execution, aborts: PlaceSet) -> u32
    ensures { result ≡ execution.now.tally + size (without aborts.mask (aborts_of execution.now.assumes)) }
{
    u32::from(execution.tally) + aborts.without(execution.assumes.aborts).size()
}

impl<R: JobRule> Request<'_, R> {
    // Whether the pair of the two is kept.
    pub(crate) fn keeps(&self, execution: &Execution, offer: &Offer) -> bool
        ensures { result ≡ is_kept self.now.robustness (meeting (R.JobRule.means self.now.rule.now) self.now execution.now offer.now) }
    {
        let Assumption { commits, aborts } = joined(execution, offer);
        commits.is_disjoint(aborts) && tally(execution, aborts) <= u32::from(self.robustness)
    }

    // The pair of the two.
    pub(crate) fn meet(&self, execution: &Execution, offer: &Offer) -> Execution
        requires { is_kept self.now.robustness (meeting (R.JobRule.means self.now.rule.now) self.now execution.now offer.now) ≡ true }
        ensures { result ≡ meeting (R.JobRule.means self.now.rule.now) self.now execution.now offer.now }
    {
        let assumes = joined(execution, offer);
        let mut met = execution.met;
        met[self.held] = offer.value;
        let work = self.rule.take(
            self.job.kind,
            self.job.argument,
            execution.work,
            self.object,
            self.mode,
            offer.value,
        );
        Execution {
            assumes,
            work,
            tally: tally(execution, assumes.aborts) as u8,
            met,
            ..*execution
        }
    }
}
