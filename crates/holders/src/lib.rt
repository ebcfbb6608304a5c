// Who holds what, who makes what, who waits for whom, and the ring test: questions about holdings in the order of locking.
// They take any slice and any number of a place, as their callers have them; a struct of a slice would have to be made for each call.
#![tactic(auto)]

mod gathering;
pub mod holders;
pub mod imaging;
pub mod reaching;
pub mod waits;

pub use holders::{count_held, has_open, holds_object, is_open, later_makers, makers, position};
pub use imaging::{find_open, imaged};
pub use reaching::would_ring;
pub use waits::{new_waits, waiting, waits_of};
