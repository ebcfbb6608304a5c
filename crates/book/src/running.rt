// A book from its making through a list of calls.
ghost use Rattle.std.specs.Prelude.{◌≡◌, MatchResult};
ghost use Rattle.book.specs.RunLaw.{RunLaw, RunFollows, NotRun};

use super::outcome::{Run, RunError};
use super::state::Book;
use std::alloc::Global;
use terms::{Call, JobRule, Store};

// Makes a book and carries out the calls in order. Memory for the answers is taken before the first, so without it nothing has changed.
// Six parameters, not a struct: users read the call and its two clauses as they stand.
pub fn run<S: Store, R: JobRule>(
    heap: Global,
    robustness: u64,
    limit: u64,
    store: &mut S,
    rule: &R,
    calls: &[Call],
) -> Result<Run, RunError>
    ensures law { MatchResult result (λ done. RunLaw (R.JobRule.means rule.now) robustness (S.Store.values store.old) calls.now (S.Store.values store.new) done) (λ e. NotRun robustness limit e × (store.new ≡ store.old)) }
    ensures model { MatchResult result (λ done. RunFollows (R.JobRule.means rule.now) robustness limit (S.Store.values store.old) calls.now (S.Store.values store.new) done) (λ e. NotRun robustness limit e × (store.new ≡ store.old)) }
{
    let mut book = Book::new(robustness, limit)?;
    let mut answers = Vec::with_capacity(heap, calls.len())?;
    book.carry_out(store, rule, calls, &mut answers);
    let ready = book.ready();
    Ok(Run {
        book,
        answers,
        ready,
    })
}
