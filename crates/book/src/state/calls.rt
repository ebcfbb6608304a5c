// Any call, and a list of calls.
ghost use Rattle.std.specs.Prelude.{◌≡◌, ◌+◌, ◌≤◌, ◌++◌, length, vec_len, vec_capacity};
ghost use Rattle.protocol.specs.Step.{run as model_run};
ghost use Rattle.book.specs.Told.{answers_of};
ghost use Rattle.book.specs.View.{view, Follows};

use super::Book;
use protocol::Refusal;
use terms::{Call, JobRule, Store};

impl Book {
    pub fn call<S: Store, R: JobRule>(
        &mut self,
        store: &mut S,
        rule: &R,
        call: Call,
    ) -> Result<(), Refusal>
        ensures { Follows (R.JobRule.means rule.now) (view (S.Store.values store.old) self.old) call result (view (S.Store.values store.new) self.new) }
    {
        match call {
            Call::Begin {
                place,
                kind,
                argument,
            } => self.begin(rule, place, kind, argument),
            Call::Lock {
                place,
                object,
                mode,
            } => self.lock(store, rule, place, object, mode),
            Call::Image { place, object } => self.image(store, rule, place, object),
            Call::Commit { place } => self.commit(store, place),
            Call::Abort { place } => self.abort(place),
        }
    }

    // All of the calls; each answer goes into room that is there before the first.
    pub(crate) fn carry_out<S: Store, R: JobRule>(
        &mut self,
        store: &mut S,
        rule: &R,
        calls: &[Call],
        answers: &mut Vec<Result<(), Refusal>>,
    )
        requires { vec_len answers.old + length calls.now ≤ vec_capacity answers.old }
        ensures left { view (S.Store.values store.new) self.new ≡ model_run (R.JobRule.means rule.now) (view (S.Store.values store.old) self.old) calls.now }
        ensures told { answers.new.items ≡ answers.old.items ++ answers_of (R.JobRule.means rule.now) (view (S.Store.values store.old) self.old) calls.now }
    {
        for call in calls {
            let answer = self.call(store, rule, *call);
            answers.push_reserved(answer);
        }
    }
}
