// Replays the script on standard input: prints the answer to each line, then the value of each object and the executions of each running job.
#![tactic(auto)]

use replays::replayed;
use std::io;
use std::io::Read;

fn main(rt: HostRuntime) -> io::Result<()> {
    let mut script = Vec::new(rt.alloc());
    rt.stdin().read_to_end(&mut script)?;
    let output = replayed(rt.alloc(), script.as_slice())?;
    rt.stdout().write_all(output.as_bytes())
}
