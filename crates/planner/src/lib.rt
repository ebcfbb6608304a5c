// Reads the charges of packs, and plans for how long they last.
#![tactic(auto)]

pub mod faults;
pub mod laws;
pub mod numbers;
pub mod packs;
pub mod plans;

pub use faults::Fault;
pub use packs::read_packs;
pub use plans::{Line, job_line, plan_sheet};
