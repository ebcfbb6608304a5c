// The rules of the book as types and definitions, and the proof of its law.
#![tactic(auto)]

pub mod assumptions;
pub mod holdings;
pub mod jobs;
pub mod places;
pub mod refusals;
pub mod theorems;

pub use assumptions::{Assumption, Execution, Offer, Version};
pub use holdings::{Holding, HoldingState};
pub use jobs::{Ending, Job};
pub use places::PlaceSet;
pub use refusals::Refusal;
