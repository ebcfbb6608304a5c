// The book of jobs.
#![tactic(auto)]

mod gathering;
mod making;
mod meeting;
mod offering;
mod outcome;
mod pairing;
mod place;
mod request;
mod running;
mod searching;
pub mod state;
mod writing;

pub use outcome::{Run, RunError};
pub use running::run;
pub use state::Book;
pub use state::questions::ObjectVersion;
