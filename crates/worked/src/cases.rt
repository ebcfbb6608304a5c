// The worked cases. Each is a function, since some are played more than once, and a constant table may not call the short words.
use super::player::play;
use super::steps::{Step, abort, begin, begin_as, commit, image, read, write};
use std::io;

// Four jobs lock and image one object in turn.
fn four_in_turn(rt: &HostRuntime, robustness: u64) -> io::Result<()> {
    play(
        rt,
        "four in turn",
        robustness,
        16,
        &[
            begin(0),
            write(0, 0),
            image(0, 0),
            begin(1),
            write(1, 0),
            image(1, 0),
            begin(2),
            write(2, 0),
            image(2, 0),
            begin(3),
            write(3, 0),
            image(3, 0),
            Step::Count(3),
        ],
    )
}

// A fifth has 16 executions, and a sixth would have more.
fn sixth_in_turn(rt: &HostRuntime) -> io::Result<()> {
    play(
        rt,
        "sixth in turn",
        120,
        16,
        &[
            begin(0),
            write(0, 0),
            image(0, 0),
            begin(1),
            write(1, 0),
            image(1, 0),
            begin(2),
            write(2, 0),
            image(2, 0),
            begin(3),
            write(3, 0),
            image(3, 0),
            begin(4),
            write(4, 0),
            image(4, 0),
            Step::Count(4),
            begin(5),
            read(5, 0),
            write(5, 0),
        ],
    )
}

// A job that locks two objects of one maker is before or after it with both.
fn no_mixture(rt: &HostRuntime) -> io::Result<()> {
    play(
        rt,
        "no mixture",
        1,
        16,
        &[
            begin(0),
            write(0, 0),
            image(0, 0),
            write(0, 1),
            image(0, 1),
            begin(1),
            write(1, 0),
            write(1, 1),
            Step::Count(1),
            begin(2),
            read(2, 2),
            Step::Count(2),
        ],
    )
}

// An execution that took nothing of a job stays when that job commits.
fn chain_of_three(rt: &HostRuntime) -> io::Result<()> {
    play(
        rt,
        "chain of three",
        1,
        16,
        &[
            begin(0),
            write(0, 1),
            image(0, 1),
            begin(1),
            read(1, 1),
            write(1, 0),
            image(1, 0),
            begin(2),
            read(2, 0),
            Step::Count(2),
            commit(0),
            Step::Count(2),
            abort(1),
            Step::Count(2),
            commit(2),
        ],
    )
}

// Without robustness a job is lost when one that it relies on aborts.
fn lost_job(rt: &HostRuntime) -> io::Result<()> {
    play(
        rt,
        "lost job",
        0,
        16,
        &[
            begin(0),
            write(0, 0),
            image(0, 0),
            begin(1),
            read(1, 0),
            write(1, 1),
            image(1, 1),
            abort(0),
            Step::Count(1),
            begin(2),
            read(2, 1),
            write(2, 1),
        ],
    )
}

// A job may not come to wait for one that waits for it.
fn ring(rt: &HostRuntime) -> io::Result<()> {
    play(
        rt,
        "ring",
        1,
        16,
        &[
            begin(0),
            write(0, 0),
            image(0, 0),
            begin(1),
            write(1, 0),
            write(1, 1),
            image(1, 1),
            read(0, 1),
            write(0, 1),
        ],
    )
}

// A writer beside a reader has one execution, and waits until the reader ends.
fn reader_first(rt: &HostRuntime, end: Step) -> io::Result<()> {
    play(
        rt,
        "reader first",
        1,
        16,
        &[
            begin(0),
            read(0, 0),
            begin(1),
            write(1, 0),
            Step::Count(1),
            image(1, 0),
            commit(1),
            end,
            Step::Count(1),
            commit(1),
            Step::Show(0),
        ],
    )
}

// Packs of 200 and 80 at 25 minutes of talking in an hour last for 20 hours.
fn plan(rt: &HostRuntime) -> io::Result<()> {
    play(
        rt,
        "plan",
        1,
        16,
        &[
            begin_as(0, 1, 200),
            write(0, 0),
            image(0, 0),
            begin_as(1, 1, 80),
            write(1, 1),
            image(1, 1),
            begin_as(2, 3, 25),
            read(2, 0),
            read(2, 1),
            write(2, 2),
            image(2, 2),
            Step::Count(2),
            commit(0),
            commit(1),
            Step::Count(2),
            commit(2),
            Step::Show(0),
            Step::Show(1),
            Step::Show(2),
        ],
    )
}

pub(crate) fn play_cases(rt: &HostRuntime) -> io::Result<()> {
    four_in_turn(rt, 120)?;
    four_in_turn(rt, 0)?;
    four_in_turn(rt, 1)?;
    four_in_turn(rt, 2)?;
    sixth_in_turn(rt)?;
    no_mixture(rt)?;
    chain_of_three(rt)?;
    lost_job(rt)?;
    ring(rt)?;
    reader_first(rt, commit(0))?;
    reader_first(rt, abort(0))?;
    plan(rt)
}
