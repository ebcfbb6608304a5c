// Writes a call or a setup as a line of a script, without the line feed.
ghost use Rattle.std.specs.Prelude.{◌≡◌, IfOk, Some, string_bytes};
ghost use Rattle.script.specs.Writing.{call_bytes, rule_bytes, store_bytes, setup_bytes};

use super::letters::Lettered;
use super::setups::{RuleName, Setup, StoreName};
use std::alloc::{AllocError, Global};
use std::fmt;
use terms::Call;

// The line that asks for a call. `Call` is of the crate `terms`, so a `Display` for it is not this crate's to give.
pub fn call_line(heap: Global, call: Call) -> Result<String, AllocError>
    ensures { IfOk result (λ s. string_bytes s ≡ call_bytes call) }
{
    match call {
        Call::Begin {
            place,
            kind,
            argument,
        } => format!(in heap; "B,{place},{kind},{argument}"),
        Call::Lock {
            place,
            object,
            mode,
        } => format!(in heap; "L,{place},{object},{}", mode.letter()),
        Call::Image { place, object } => format!(in heap; "I,{place},{object}"),
        Call::Commit { place } => format!(in heap; "C,{place}"),
        Call::Abort { place } => format!(in heap; "A,{place}"),
    }
}

// Two impls with one body: a `Display` for every type with a letter is not this crate's to give.
impl fmt::Display for RuleName {
    ghost output = { λ rule. Some (rule_bytes rule) };

    fn fmt<W: fmt::Write>(&self, f: &mut fmt::Formatter<W>) -> fmt::Result {
        write!(f, "{}", self.letter())
    }
}

impl fmt::Display for StoreName {
    ghost output = { λ store. Some (store_bytes store) };

    fn fmt<W: fmt::Write>(&self, f: &mut fmt::Formatter<W>) -> fmt::Result {
        write!(f, "{}", self.letter())
    }
}

impl fmt::Display for Setup {
    ghost output = { λ setup. Some (setup_bytes setup) };

    fn fmt<W: fmt::Write>(&self, f: &mut fmt::Formatter<W>) -> fmt::Result {
        let Setup {
            rule,
            store,
            robustness,
            limit,
            objects,
        } = self;
        write!(f, "S,{rule},{store},{robustness},{limit},{objects}")
    }
}

// The line that gives a setup.
pub fn setup_line(heap: Global, setup: Setup) -> Result<String, AllocError>
    ensures { IfOk result (λ s. string_bytes s ≡ setup_bytes setup) }
{
    format!(in heap; "{setup}")
}
