// What a run of calls leaves to its caller.
ghost use Rattle.std.specs.Prelude.{◌≡◌};
ghost use Rattle.book.specs.declared.outcome.RunError.TheVariants.{Refused, OutOfMemory};

use super::state::Book;
use protocol::Refusal;
use std::alloc::AllocError;

#[derive(Drop)]
pub struct Run {
    pub book: Book,
    // to each call, in order
    pub answers: Vec<Result<(), Refusal>>,
    // a running job that waits for none
    pub ready: Option<u8>,
}

// Why there was no run. Not one generic error with the readers' of scripts: each refusal's `From` would still be written out, and callers know the variants by their names here and there.
#[derive(Clone, Copy, PartialEq, Eq, Debug)]
pub enum RunError {
    Refused(Refusal),
    OutOfMemory(AllocError),
}

impl From<Refusal> for RunError {
    ghost from_gives = { λ refusal error. error ≡ Refused refusal };

    fn from(refusal: Refusal) -> RunError {
        RunError::Refused(refusal)
    }
}

impl From<AllocError> for RunError {
    ghost from_gives = { λ given error. error ≡ OutOfMemory given };

    fn from(error: AllocError) -> RunError {
        RunError::OutOfMemory(error)
    }
}
