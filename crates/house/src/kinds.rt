// The number of no kind of job.
ghost use Rattle.std.specs.Prelude.{◌++◌, Some, codes, decimal};

use std::error::Error;
use std::fmt;

#[derive(Clone, Copy, PartialEq, Eq, Debug)]
pub struct UnknownKind {
    pub number: u8,
}

// Written out: the `Display` that `thiserror::Error` derives has no `output`, so what it writes could not be proved.
impl fmt::Display for UnknownKind {
    ghost output = { λ unknown. Some (codes "no kind of job has number " ++ decimal unknown.number) };

    fn fmt<W: fmt::Write>(&self, f: &mut fmt::Formatter<W>) -> fmt::Result {
        write!(f, "no kind of job has number {}", self.number)
    }
}

impl Error for UnknownKind {}
