// The program `replay` once more: a program is run on one stored script, and this is the long one.
// Its three lines stand in each `main`: a function for both would be generic over a reader and a writer, and longer than they are.
#![tactic(auto)]

use replays::replayed;
use std::io;
use std::io::Read;

fn main(rt: HostRuntime) -> io::Result<()> {
    let mut script = Vec::new(rt.alloc());
    rt.stdin().read_to_end(&mut script)?;
    let output = replayed(rt.alloc(), script.as_slice())?;
    rt.stdout().write_all(output.as_bytes())
}
