// A whole replay.
ghost use Rattle.std.specs.Prelude.{replicate};
ghost use Rattle.script.specs.Outputs.{answer_bytes};
ghost use Rattle.book.specs.View.{view};
ghost use Rattle.replays.specs.Output.{Writes, told, replay_of, rule_of, output};
ghost use Rattle.replays.specs.Merged.{merged};

use super::asked::Asked;
use super::lines::{write_jobs, write_objects};
use book::{Run, RunError, run};
use house::{ChargeRule, LoanRule};
use script::{OutputLine, ReadError, RuleName, Setup, StoreName, read_script};
use std::alloc::{AllocError, Global};
use stores::{ImageStore, TableStore};
use terms::{JobRule, Store};

// The answer to the first line: all of the output where the script or its book is refused, which is no error of a replay.
fn first_answer(heap: Global, answer: u8) -> Result<String, AllocError>
    ensures { Writes result (answer_bytes 1 answer) }
{
    OutputLine::Answer { number: 1, answer }.text(heap)
}

impl Asked<'_> {
    // What a run tells.
    fn tell<S: Store>(&self, heap: Global, store: &S, done: &Run) -> Result<String, AllocError>
        ensures { Writes result (told (merged self.now.readings.now done.now.answers.items) (view (S.Store.values store.now) done.now.book)) }
    {
        let mut out = first_answer(heap, 0)?;
        self.write_answers(&mut out, done.answers.as_slice())?;
        write_objects(&mut out, store)?;
        write_jobs(&mut out, &done.book)?;
        Ok(out)
    }

    // The replay over a store.
    fn over<S: Store, R: JobRule>(
        &self,
        heap: Global,
        store: &mut S,
        rule: &R,
    ) -> Result<String, AllocError>
        ensures { Writes result (replay_of (R.JobRule.means rule.now) (S.Store.values store.old) self.now.setup self.now.readings.now) }
    {
        let calls = self.calls(heap)?;
        let Setup {
            robustness,
            limit,
            ..
        } = self.setup;
        match run(heap, robustness, limit, store, rule, calls.as_slice()) {
            Ok(done) => self.tell(heap, store, &done),
            Err(RunError::Refused(refusal)) => first_answer(heap, refusal.into()),
            Err(RunError::OutOfMemory(error)) => Err(error),
        }
    }

    // The replay over the store that the setup names, with all of its objects at 0.
    fn by<R: JobRule>(&self, heap: Global, rule: &R) -> Result<String, AllocError>
        ensures { Writes result (replay_of (R.JobRule.means rule.now) (replicate self.now.setup.objects 0) self.now.setup self.now.readings.now) }
    {
        let objects = u32::from(self.setup.objects);
        match self.setup.store {
            StoreName::Table => self.over(heap, &mut TableStore::zeroed(heap, objects)?, rule),
            StoreName::Image => self.over(heap, &mut ImageStore::zeroed(heap, objects)?, rule),
        }
    }

    // The replay by the job rule that the setup names.
    fn replayed(&self, heap: Global) -> Result<String, AllocError>
        ensures { Writes result (replay_of (rule_of self.now.setup.rule) (replicate self.now.setup.objects 0) self.now.setup self.now.readings.now) }
    {
        match self.setup.rule {
            RuleName::Charge => self.by(heap, &ChargeRule),
            RuleName::Loan => self.by(heap, &LoanRule),
        }
    }
}

// The output for a script.
pub fn replayed(heap: Global, script: &[u8]) -> Result<String, AllocError>
    ensures { Writes result (output script.now) }
{
    match read_script(heap, script) {
        Ok(read) => {
            let asked = Asked {
                setup: read.setup,
                readings: read.readings.as_slice(),
            };
            asked.replayed(heap)
        }
        Err(ReadError::Refused(fault)) => first_answer(heap, u8::from(fault)),
        Err(ReadError::Memory(error)) => Err(error),
    }
}
