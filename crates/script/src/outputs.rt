// The lines of a replay's output, each with the line feed that ends it.
ghost use Rattle.std.specs.Prelude.{◌≡◌, ◌+◌, ◌≤◌, ◌++◌, length, IfOk, OnOk, Some, string_bytes};
ghost use Rattle.script.specs.Outputs.{line_bytes, FitsTypes};

use std::alloc::{AllocError, Global};
use std::fmt;

#[derive(Clone, Copy, PartialEq, Eq, Debug)]
pub enum OutputLine {
    // the answer to a line of the script: 0, or the number of its refusal, which another crate has named
    Answer { number: u32, answer: u8 },
    // the value of an object
    Object { object: u16, value: u64 },
    // how many executions a running job has
    Job { place: u8, executions: u8 },
}

impl fmt::Display for OutputLine {
    ghost output = { λ line. Some (line_bytes line) };

    fn fmt<W: fmt::Write>(&self, f: &mut fmt::Formatter<W>) -> fmt::Result {
        match self {
            OutputLine::Answer { number, answer } => writeln!(f, "{number},{answer}"),
            OutputLine::Object { object, value } => writeln!(f, "O,{object},{value}"),
            OutputLine::Job { place, executions } => writeln!(f, "J,{place},{executions}"),
        }
    }
}

impl OutputLine {
    // Adds the line to a text.
    pub fn append_to(self, out: &mut String) -> Result<(), AllocError>
        ensures bytes { OnOk result (string_bytes out.new ≡ string_bytes out.old ++ line_bytes self) }
        ensures short { OnOk result (length (string_bytes out.new) ≤ length (string_bytes out.old) + 32) }
    {
        self.fits();
        write!(out, "{self}")
    }

    // The line as a text.
    pub fn text(self, heap: Global) -> Result<String, AllocError>
        ensures bytes { IfOk result (λ s. string_bytes s ≡ line_bytes self) }
        ensures short { IfOk result (λ s. length (string_bytes s) ≤ 32) }
    {
        self.fits();
        format!(in heap; "{self}")
    }

    // Runs for the proof alone: reading a number shows that it is of its type.
    fn fits(self)
        ensures { FitsTypes self }
    {
        match self {
            OutputLine::Answer {
                number: _number,
                answer: _answer,
            } => (),
            OutputLine::Object {
                object: _object,
                value: _value,
            } => (),
            OutputLine::Job {
                place: _place,
                executions: _executions,
            } => (),
        }
    }
}
