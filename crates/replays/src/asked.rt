// What a script that was read asks for: its calls, and the answer to each of its lines.
ghost use Rattle.std.specs.Prelude.{◌≡◌, ◌≤◌, length, IfOk, OnOk};
ghost use Rattle.std.specs.Result.{result_err};
ghost use Rattle.protocol.specs.Cases.{answer_number};
ghost use Rattle.script.specs.Outputs.{answer_bytes};
ghost use Rattle.replays.specs.Output.{Appended, calls_in, lines_from};
ghost use Rattle.replays.specs.Merged.{merged};

use protocol::Refusal;
use script::{Fault, OutputLine, Setup};
use std::alloc::{AllocError, Global};
use terms::Call;

// The setup of a script, and what each line after the first was read as: a script that was read, lent, with the bound on its lines.
#[derive(Clone, Copy)]
pub(crate) struct Asked<'a> {
    pub setup: Setup,
    pub readings: &'a [Result<Call, Fault>],
    // a line feed stands before each of these lines, and a script has at most 32,768 bytes
    ghost short: { length readings.now ≤ 32768 },
}

// The number that answers a call.
fn answer_number(answer: Result<(), Refusal>) -> u8
    ensures { result ≡ answer_number (result_err answer) }
{
    answer.err().map_or(0, u8::from)
}

impl Asked<'_> {
    // The calls, in order.
    pub(crate) fn calls(&self, heap: Global) -> Result<Vec<Call>, AllocError>
        ensures { IfOk result (λ v. v.items ≡ calls_in self.now.readings.now) }
    {
        self.readings
            .iter()
            .filter_map(|reading| reading.ok())
            .collect(heap)
    }

    // The line of the answer to each line from the second on, by the answers to the calls.
    pub(crate) fn write_answers(
        &self,
        out: &mut String,
        answers: &[Result<(), Refusal>],
    ) -> Result<(), AllocError>
        ensures { OnOk result (Appended out.old out.new (lines_from answer_bytes 2 (merged self.now.readings.now answers.now))) }
    {
        let mut left = answers.iter();
        for (i, reading) in self.readings.iter().enumerate() {
            let answer = match reading {
                // there is an answer for each call
                Ok(_) => answer_number(left.next().copied().unwrap_or(Ok(()))),
                Err(fault) => u8::from(*fault),
            };
            let number = i as u32 + 2;
            OutputLine::Answer { number, answer }.append_to(out)?;
        }
        Ok(())
    }
}
