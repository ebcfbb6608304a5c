// The words that stores, job rules, scripts and the book share.
#![tactic(auto)]

pub mod calls;
pub mod modes;
pub mod rules;
pub mod stores;

pub use calls::Call;
pub use modes::Mode;
pub use rules::JobRule;
pub use stores::{MOST_OBJECTS, Store};
