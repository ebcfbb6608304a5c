// Reads a script: its setup and the calls that its lines ask for. Writes calls as lines, and the lines of a replay's output.
#![tactic(auto)]

pub mod calls;
pub mod faults;
pub mod laws;
pub mod letters;
pub mod lines;
pub mod outputs;
pub mod scripts;
pub mod setups;
pub mod writing;

pub use calls::read_call;
pub use faults::Fault;
pub use lines::Line;
pub use outputs::OutputLine;
pub use scripts::{ReadError, Script, read_script};
pub use setups::{RuleName, Setup, StoreName, read_setup};
pub use writing::{call_line, setup_line};
