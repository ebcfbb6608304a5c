// Replays a script: carries out its calls on a new book and tells what came of them.
#![tactic(auto)]

mod asked;
mod lines;
mod replaying;

pub use replaying::replayed;
