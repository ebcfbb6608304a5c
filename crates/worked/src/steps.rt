// What is asked of a book, in short words. A job that does not matter is a charge of 1; kinds are numbers, as callers write them.
// Steps are data, so that a case is one list; as calls of methods each line would end in `?`.
use terms::{Call, Mode};

#[derive(Clone, Copy)]
pub(crate) enum Step {
    Ask(Call),
    // how many executions has the job at the place?
    Count(u64),
    // what does the store hold for the object?
    Show(u64),
    // five jobs from the place on lock and image the object in turn, and the last, with 16 executions, the next seven objects too; of 8 bits, so that the sums fit
    Crowd { place: u8, object: u8 },
}

pub(crate) fn begin_as(place: u64, kind: u64, argument: u64) -> Step {
    Step::Ask(Call::Begin {
        place,
        kind,
        argument,
    })
}

pub(crate) fn begin(place: u64) -> Step {
    begin_as(place, 1, 1)
}

fn lock(place: u64, object: u64, mode: Mode) -> Step {
    Step::Ask(Call::Lock {
        place,
        object,
        mode,
    })
}

pub(crate) fn read(place: u64, object: u64) -> Step {
    lock(place, object, Mode::Read)
}

pub(crate) fn write(place: u64, object: u64) -> Step {
    lock(place, object, Mode::Write)
}

pub(crate) fn image(place: u64, object: u64) -> Step {
    Step::Ask(Call::Image { place, object })
}

pub(crate) fn commit(place: u64) -> Step {
    Step::Ask(Call::Commit { place })
}

pub(crate) fn abort(place: u64) -> Step {
    Step::Ask(Call::Abort { place })
}
