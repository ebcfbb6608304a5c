// Cuts a script into lines and lines into fields, and reads the number that a field writes.
#![tactic(auto)]

pub mod cuts;
pub mod laws;
pub mod numbers;
pub mod parts;

pub use cuts::{lines, rows};
pub use numbers::number;
pub use parts::Field;
