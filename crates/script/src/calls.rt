// The call that a line asks for.
ghost use Rattle.std.specs.Prelude.{◌≡◌};
ghost use Rattle.script.specs.Calls.{call_of};
ghost use Rattle.script.specs.Lines.{call_asked, texts};

use super::faults::Fault;
use super::letters::{by_letter, value};
use super::lines::Line;
use fields::Field;
use terms::Call;

impl Line<'_> {
    // The call that the line asks for; the setup asks for none. Two methods and no `TryFrom`s, which would say as much by the type at each use.
    pub fn call(&self) -> Result<Call, Fault>
        ensures { result ≡ call_asked self.now }
    {
        match self {
            Line::Setup { .. } => Err(Fault::Letter),
            Line::Begin {
                place,
                kind,
                argument,
            } => Ok(Call::Begin {
                place: value(place.bytes)?,
                kind: value(kind.bytes)?,
                argument: value(argument.bytes)?,
            }),
            Line::Lock {
                place,
                object,
                mode,
            } => Ok(Call::Lock {
                place: value(place.bytes)?,
                object: value(object.bytes)?,
                mode: by_letter(mode.bytes)?,
            }),
            Line::Image { place, object } => Ok(Call::Image {
                place: value(place.bytes)?,
                object: value(object.bytes)?,
            }),
            Line::Commit { place } => Ok(Call::Commit {
                place: value(place.bytes)?,
            }),
            Line::Abort { place } => Ok(Call::Abort {
                place: value(place.bytes)?,
            }),
        }
    }
}

// What the fields of a line after the first ask for.
pub fn read_call(fields: &[Field]) -> Result<Call, Fault>
    ensures { result ≡ call_of (texts fields.now) }
{
    Line::later(fields)?.call()
}
