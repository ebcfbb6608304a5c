// What runs at a place: it is there once its begin is accepted, until its commit or its abort is. The kind is a number, as job rules take it.
#[derive(Clone, Copy, PartialEq, Eq, Debug)]
pub struct Job {
    pub kind: u8,
    pub argument: u64,
}

// How a job ends.
#[derive(Clone, Copy, PartialEq, Eq, Debug)]
pub enum Ending {
    Committed,
    Aborted,
}
