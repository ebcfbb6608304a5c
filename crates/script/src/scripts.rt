// Reads a whole script.
ghost use Rattle.std.specs.Prelude.{◌≡◌, map, IfOk, Ok, MatchResult};
ghost use Rattle.script.specs.Scripts.{row_asked, script_in, Explains};
ghost use Rattle.script.specs.declared.scripts.ReadError.TheVariants.{Refused, Memory};

use super::calls::read_call;
use super::faults::Fault;
use super::setups::{Setup, read_setup};
use fields::{Field, rows};
use std::alloc::{AllocError, Global};
use terms::Call;

const LONGEST_SCRIPT: usize = 32_768;

// The setup of a script, and what each line after the first asks for.
#[derive(Drop)]
pub struct Script {
    pub setup: Setup,
    pub readings: Vec<Result<Call, Fault>>,
}

// Why a script was not read: its first line or its length is at fault, or memory ran out.
// Not one generic error with the book's: each refusal's `From` would still be written out, and callers know the variants by their names here and there.
#[derive(Clone, Copy, PartialEq, Eq, Debug)]
pub enum ReadError {
    Refused(Fault),
    Memory(AllocError),
}

impl From<Fault> for ReadError {
    ghost from_gives = { λ fault error. error ≡ Refused fault };

    fn from(fault: Fault) -> ReadError {
        ReadError::Refused(fault)
    }
}

impl From<AllocError> for ReadError {
    ghost from_gives = { λ given error. error ≡ Memory given };

    fn from(error: AllocError) -> ReadError {
        ReadError::Memory(error)
    }
}

// What each of the lines asks for.
fn read_calls(heap: Global, lines: &[Vec<Field>]) -> Result<Vec<Result<Call, Fault>>, AllocError>
    ensures { IfOk result (λ v. v.items ≡ map row_asked lines.now) }
{
    lines
        .iter()
        .map(|line| read_call(line.as_slice()))
        .collect(heap)
}

// The setup of a script and the readings of its other lines, in their order.
pub fn read_script(heap: Global, script: &[u8]) -> Result<Script, ReadError>
    ensures { MatchResult result (λ s. script_in script.now ≡ Ok (s.setup, s.readings.items)) (λ e. Explains e (script_in script.now)) }
{
    if script.len() > LONGEST_SCRIPT {
        return Err(Fault::Length.into());
    }
    let lines = rows(heap, script)?;
    let [first, others @ ..] = lines.as_slice() else {
        return Err(Fault::Letter.into());
    };
    let setup = read_setup(first.as_slice())?;
    let readings = read_calls(heap, others)?;
    Ok(Script { setup, readings })
}
