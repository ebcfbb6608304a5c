// Plays overlaps of jobs on books, each on a new one, and prints the answer of every call: 0, or the number of the refusal.
#![tactic(auto)]

mod cases;
mod player;
mod refusals;
mod steps;

use std::io;

fn main(rt: HostRuntime) -> io::Result<()> {
    cases::play_cases(&rt)?;
    refusals::play_refusals(&rt)
}
