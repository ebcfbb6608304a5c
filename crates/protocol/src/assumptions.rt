// What is taken of how running jobs will end, and the records that rest on it.
// Each has its EMPTY as a const of its own, since a table of fixed memory begins as `[EMPTY; 256]`; a trait for them would ask it of every record that a table takes.
use super::places::PlaceSet;

// A guess: which running jobs will commit, and which will abort.
#[derive(Clone, Copy, PartialEq, Eq, Debug)]
pub struct Assumption {
    pub commits: PlaceSet,
    pub aborts: PlaceSet,
}

impl Assumption {
    pub const EMPTY: Assumption = Assumption {
        commits: PlaceSet::EMPTY,
        aborts: PlaceSet::EMPTY,
    };
}

// One of the ways in which a job may have gone so far.
#[derive(Clone, Copy, PartialEq, Eq, Debug)]
pub struct Execution {
    pub job: u8,
    pub assumes: Assumption,
    pub work: u64,
    // on how many jobs' abort it has ever counted, whether they still run or not
    pub tally: u8,
    // the value met at each object that the job holds, in the order of locking; an array, for all executions have one size
    pub met: [u64; 8],
}

impl Execution {
    pub const EMPTY: Execution = Execution {
        job: 0,
        assumes: Assumption::EMPTY,
        work: 0,
        tally: 0,
        met: [0; 8],
    };
}

// A value that a running job would give an object.
#[derive(Clone, Copy, PartialEq, Eq, Debug)]
pub struct Version {
    pub object: u64,
    pub maker: u8,
    pub value: u64,
    pub assumes: Assumption,
}

impl Version {
    pub const EMPTY: Version = Version {
        object: 0,
        maker: 0,
        value: 0,
        assumes: Assumption::EMPTY,
    };
}

// A value that a job may meet where it locks an object, and what it then takes.
#[derive(Clone, Copy, PartialEq, Eq, Debug)]
pub struct Offer {
    pub value: u64,
    pub assumes: Assumption,
}

impl Offer {
    pub const EMPTY: Offer = Offer {
        value: 0,
        assumes: Assumption::EMPTY,
    };
}
