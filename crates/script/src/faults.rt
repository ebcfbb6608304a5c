// What is wrong with a script, or with one of its lines.
ghost use Rattle.std.specs.Prelude.{◌≡◌};
ghost use Rattle.script.specs.Faults.{number_of};

// Each by the number that answers it.
#[derive(Clone, Copy, PartialEq, Eq, Debug)]
pub enum Fault {
    // the script is too long
    Length = 19,
    // the first field is no letter that may stand there
    Letter = 20,
    // there are too many or too few fields
    Count = 21,
    // a field is not of the form called for
    Form = 22,
}

impl From<Fault> for u8 {
    ghost from_gives = { λ fault number. number ≡ number_of fault };

    fn from(fault: Fault) -> u8 {
        fault as u8
    }
}
