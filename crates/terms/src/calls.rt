// What a caller may ask of a book. The numbers are as the caller wrote them: one that is too large is refused in its turn.
use super::modes::Mode;

#[derive(Clone, Copy, PartialEq, Eq, Debug)]
pub enum Call {
    Begin {
        place: u64,
        kind: u64,
        argument: u64,
    },
    Lock {
        place: u64,
        object: u64,
        mode: Mode,
    },
    Image {
        place: u64,
        object: u64,
    },
    Commit {
        place: u64,
    },
    Abort {
        place: u64,
    },
}
