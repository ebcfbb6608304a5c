// The plan sheet: reads the charges of packs from standard input, one number to a line, and prints, for each row of the draw
// sheet, the minutes of talking in an hour and the whole hours for which the packs last.
#![tactic(auto)]

use planner::{plan_sheet, read_packs};
use std::io::Read;
use std::process::ExitCode;
use stores::TableStore;

fn run(rt: &HostRuntime) -> anyhow::Result<()> {
    let mut text = Vec::new(rt.alloc());
    rt.stdin().read_to_end(&mut text)?;
    let packs = read_packs(rt.alloc(), &text)?;
    for line in plan_sheet(&TableStore::new(packs)) {
        println!(rt; "{line}")?;
    }
    Ok(())
}

// An error is printed here: a `main` that gave it back would begin the line by `Error:` in place of the program's name.
fn main(rt: HostRuntime) -> ExitCode {
    match run(&rt) {
        Ok(()) => ExitCode::SUCCESS,
        Err(error) => {
            // Where standard error fails too, the status alone tells.
            let _ = eprintln!(rt; "sheet: {error}");
            ExitCode::FAILURE
        }
    }
}
