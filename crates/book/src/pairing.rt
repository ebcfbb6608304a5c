// The executions of a job are paired with what an object offers.
ghost use Rattle.std.specs.Prelude.{List, [], ◌∷◌, filter};
ghost use Rattle.std.specs.Iterator.{IsFinite, DrainsIf};
ghost use Rattle.std.specs.Result.{IsOk};
ghost use Rattle.protocol.specs.declared.assumptions.Execution.{Execution};
ghost use Rattle.protocol.specs.Model.{names};
ghost use Rattle.protocol.specs.Pairing.{pairs};
ghost use Rattle.book.specs.Meeting.{meeting, Added};

use super::request::{Found, Request};
use protocol::{Execution, Offer, Refusal};
use terms::JobRule;

impl Found {
    // Adds a pair.
    fn add(&mut self, pair: Execution) -> Result<(), Refusal>
        ensures { Added self.old (pair ∷ []) self.new result }
    {
        if self.pairs.len() == self.limit {
            return Err(Refusal::TooManyExecutions);
        }
        self.pairs.push(pair).unwrap();
        Ok(())
    }

    // Adds the pairs that come, until they are too many.
    fn add_all<I: Iterator<Item = Execution> + Drop>(&mut self, them: I) -> Result<(), Refusal>
        requires can { I.can_next them }
        requires ends { IsFinite (I.remaining them) }
        ensures { (came : List Execution) × DrainsIf I.next_gives (IsOk result) them came × Added self.old came self.new result }
    {
        for pair in them {
            self.add(pair)?;
        }
        Ok(())
    }
}

impl<R: JobRule> Request<'_, R> {
    // Adds the pairs of the job's executions.
    pub(crate) fn pair_up(
        &self,
        found: &mut Found,
        executions: &[Execution],
        offers: &[Offer],
    ) -> Result<(), Refusal>
        ensures { Added found.old (pairs self.now.robustness (meeting (R.JobRule.means self.now.rule.now) self.now) offers.now (filter (names self.now.place.number) executions.now)) found.new result }
    {
        // a `for` with an `if`, and a chain for each of the job's executions: in one chain of all pairs, which was tried, each pair went through two adapters more, at 1.3 times the instructions
        // a test and then the making, since `filter_map` writes an empty execution for each offer that falls, and most fall
        for execution in executions {
            if execution.job == self.place.number {
                found.add_all(
                    offers
                        .iter()
                        .filter(|offer| self.keeps(execution, offer))
                        .map(|offer| self.meet(execution, offer)),
                )?;
            }
        }
        Ok(())
    }
}
