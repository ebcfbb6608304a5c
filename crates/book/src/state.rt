// The book, and what always holds of it. It keeps neither store nor rule: each call is given what it needs of both, and its place, object and mode, as users write them.
// Ghost fields and no model: clauses see a book together with the values of its store.
ghost use Rattle.std.specs.Prelude.{◌≡◌, ◌≤◌, length};
ghost use Rattle.protocol.specs.Ranks.{Ringless};
ghost use Rattle.tables.specs.Items.{items};
ghost use Rattle.tables.specs.Within.{Within, job_of_execution, job_of_holding};

use protocol::{Execution, Holding, Job, Version};
use tables::Table;

mod begin;
mod calls;
mod ending;
mod image;
mod lock;
pub mod questions;
mod ready;

#[derive(Drop)]
pub struct Book {
    robustness: u8,
    limit: usize,
    // an array by place, since a book's memory has one size
    jobs: [Option<Job>; 16],
    holdings: Table<Holding, 128>,
    executions: Table<Execution, 256>,
    versions: Table<Version, 256>,
    ghost limited: { limit ≤ 16 },
    ghost places: { length jobs ≡ 16 },
    // a job has at most 8 holdings and 16 executions, and a place without a job has none
    ghost holds: { Within 8 job_of_holding jobs (items holdings) },
    ghost runs: { Within 16 job_of_execution jobs (items executions) },
    // no job waits for itself
    ghost ringless: { Ringless (items holdings) },
}
