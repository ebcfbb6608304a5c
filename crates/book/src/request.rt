// What a lock asks for, and what is found for it.
ghost use Rattle.std.specs.Prelude.{◌<◌, ◌≤◌, length};
ghost use Rattle.tables.specs.Items.{items};

use super::place::Place;
use protocol::{Execution, Job};
use tables::Table;
use terms::Mode;

// A lock that is asked for, with what is the same for all its pairs.
#[derive(Drop)]
pub(crate) struct Request<'a, R> {
    pub rule: &'a R,
    pub place: Place,
    pub job: Job,
    pub object: u64,
    pub mode: Mode,
    // how many objects the job holds
    pub held: usize,
    pub robustness: u8,
    ghost room: { held < 8 },
}

// The pairs found so far, within the limit.
#[derive(Drop)]
pub(crate) struct Found {
    pub pairs: Table<Execution, 16>,
    pub limit: usize,
    ghost limited: { limit ≤ 16 },
    ghost few: { length (items pairs) ≤ limit },
}
