// Every refusal of a book and of its calls, and which of two comes first. A refused call changes nothing, so many are tried on one book.
use super::player::play;
use super::steps::{Step, abort, begin, begin_as, commit, image, read, write};
use std::io;

// 1 comes before 2.
fn no_book(rt: &HostRuntime) -> io::Result<()> {
    play(rt, "new", 121, 16, &[])?;
    play(rt, "new", u64::MAX, 0, &[])?;
    play(rt, "new", 121, 17, &[])?;
    play(rt, "new", 120, 0, &[])?;
    play(rt, "new", 0, 17, &[])
}

// 3 comes before 5 and before 6, 4 before 5, and 6 before 8. No job runs at a place above 15, so 3 and 4 never meet.
fn no_job(rt: &HostRuntime) -> io::Result<()> {
    play(
        rt,
        "no job",
        1,
        16,
        &[
            begin(15),
            begin(16),
            begin_as(16, 0, 1),
            begin(u64::MAX),
            begin(15),
            begin_as(15, 4, 1),
            begin_as(14, 0, 1),
            begin_as(14, 4, 1),
            begin_as(14, 257, 1),
            read(16, 0),
            write(16, 20),
            image(16, 0),
            commit(16),
            abort(16),
            read(0, 0),
            write(0, 20),
            image(0, 0),
            image(0, 20),
            commit(0),
            abort(0),
        ],
    )
}

// 7 comes before 8, before 15 and before 17. Only a running job is lost, so 6 and 7 never meet. A lost job can still abort.
fn lost(rt: &HostRuntime) -> io::Result<()> {
    play(
        rt,
        "lost",
        0,
        16,
        &[
            begin(0),
            write(0, 0),
            image(0, 0),
            begin(1),
            read(1, 0),
            write(1, 1),
            image(1, 1),
            write(1, 2),
            abort(0),
            Step::Count(1),
            read(1, 20),
            write(1, 3),
            image(1, 20),
            image(1, 2),
            image(1, 3),
            commit(1),
            begin(2),
            write(2, 1),
            read(2, 1),
            abort(1),
            write(2, 1),
        ],
    )
}

// 8 comes before 10 and before 15, 9 before 10 and before 11, 10 before 11, 17 before 18. No job holds an absent object, so 8 and 9 never meet.
fn held(rt: &HostRuntime) -> io::Result<()> {
    play(
        rt,
        "held",
        1,
        16,
        &[
            begin(0),
            read(0, 0),
            read(0, 1),
            read(0, 2),
            read(0, 3),
            read(0, 4),
            read(0, 5),
            read(0, 6),
            read(0, 7),
            read(0, 20),
            image(0, 20),
            read(0, 7),
            write(0, 7),
            image(0, 7),
            image(0, 9),
            write(0, 9),
            begin(1),
            write(1, 8),
            write(1, 0),
            read(0, 8),
            read(0, 0),
            begin(2),
            read(2, 8),
            write(2, 0),
            commit(1),
            image(1, 8),
            commit(1),
            image(1, 0),
            image(1, 0),
            commit(1),
            commit(0),
            commit(1),
            commit(1),
        ],
    )
}

// 11 comes before 12.
fn open_ring(rt: &HostRuntime) -> io::Result<()> {
    play(
        rt,
        "open ring",
        1,
        16,
        &[
            begin(0),
            write(0, 0),
            image(0, 0),
            begin(1),
            read(1, 0),
            write(1, 1),
            read(0, 1),
            write(0, 1),
            image(1, 1),
            read(0, 1),
            write(0, 1),
        ],
    )
}

// 12 comes before 13: job 1 waits for job 0, and is lost.
fn lost_ring(rt: &HostRuntime) -> io::Result<()> {
    play(
        rt,
        "lost ring",
        0,
        16,
        &[
            begin(0),
            write(0, 0),
            image(0, 0),
            begin(2),
            write(2, 2),
            image(2, 2),
            begin(1),
            read(1, 0),
            read(1, 2),
            write(1, 1),
            image(1, 1),
            abort(2),
            Step::Count(1),
            read(0, 1),
            write(0, 1),
            begin(3),
            read(3, 1),
            write(3, 1),
        ],
    )
}

// 12 comes before 14. A lock that keeps none keeps no more than the limit, so 13 and 14 never meet.
fn narrow_ring(rt: &HostRuntime) -> io::Result<()> {
    play(
        rt,
        "narrow ring",
        1,
        2,
        &[
            begin(0),
            write(0, 0),
            image(0, 0),
            begin(1),
            read(1, 0),
            write(1, 1),
            image(1, 1),
            Step::Count(1),
            read(0, 1),
            write(0, 1),
            begin(2),
            read(2, 1),
            write(2, 1),
        ],
    )
}

// 15 comes before 16, and 8 before both.
fn full(rt: &HostRuntime) -> io::Result<()> {
    play(
        rt,
        "full",
        120,
        16,
        &[
            Step::Crowd {
                place: 0,
                object: 0,
            },
            Step::Crowd {
                place: 5,
                object: 8,
            },
            image(9, 14),
            image(9, 15),
            image(9, 13),
            image(9, 0),
            image(9, 20),
            abort(0),
            image(9, 14),
            image(9, 15),
            Step::Count(9),
        ],
    )
}

pub(crate) fn play_refusals(rt: &HostRuntime) -> io::Result<()> {
    no_book(rt)?;
    no_job(rt)?;
    lost(rt)?;
    held(rt)?;
    open_ring(rt)?;
    lost_ring(rt)?;
    narrow_ring(rt)?;
    full(rt)
}
