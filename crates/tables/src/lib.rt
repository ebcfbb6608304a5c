// The tables of records that a book is made of.
#![tactic(auto)]

pub mod ended;
pub mod records;
pub mod table;
pub mod turning;

pub use ended::{remove_job, settle};
pub use records::{Assuming, NamesJob};
pub use table::{Full, Table};
pub use turning::turn;
