// Why packs are not read.
ghost use Rattle.std.specs.Prelude.{◌≡◌, Some};
ghost use Rattle.planner.specs.declared.faults.Fault.TheVariants.{NoMemory};
ghost use Rattle.planner.specs.Faults.{fault_text};

use std::alloc::AllocFailed;
use std::error::Error;
use std::fmt;

#[derive(Clone, Copy, PartialEq, Eq, Debug)]
pub enum Fault {
    // this line is no number of at most 64 bits
    NoNumber { line: usize },
    // this line is one more than there may be packs
    TooMany { line: usize },
    NoMemory,
}

// Written out: what `thiserror::Error` derives has no `from_gives` and no `output`, so the fault that comes and its text could not be proved.
impl<T: Drop> From<AllocFailed<T>> for Fault {
    ghost from_gives = { λ _ fault. fault ≡ NoMemory };

    fn from(_: AllocFailed<T>) -> Fault {
        Fault::NoMemory
    }
}

impl fmt::Display for Fault {
    ghost output = { λ fault. Some (fault_text fault) };

    fn fmt<W: fmt::Write>(&self, f: &mut fmt::Formatter<W>) -> fmt::Result {
        match *self {
            Fault::NoNumber { line } => write!(f, "line {line} is no number"),
            Fault::TooMany { line } => write!(f, "line {line} is one too many"),
            Fault::NoMemory => write!(f, "out of memory"),
        }
    }
}

impl Error for Fault {}
