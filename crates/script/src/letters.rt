// Fields that are one letter, and fields that are a number.
ghost use Rattle.std.specs.Prelude.{◌≡◌, ℕ, Option, refl};
ghost use Rattle.script.specs.Letters.{letter_in, lettered_in, mode_letter, mode_of, value_in, objects_in, IsReadBack};
ghost use Rattle.terms.specs.declared.modes.Mode.TheVariants.{Read, Write};

use super::faults::Fault;
use fields::number;
use terms::Mode;

const MOST_SCRIPT_OBJECTS: u8 = 64;

// What a script writes as one letter.
pub(crate) trait Lettered: Sized {
    ghost letter_of: { Self → ℕ };

    ghost value_of: { ℕ → Option Self };

    // The letter of the value.
    fn letter(self) -> char
        ensures { result ≡ letter_of self };

    // The value of the letter, if it has one.
    fn from_letter(letter: char) -> Option<Self>
        ensures { result ≡ value_of letter };

    // the letter of each value has that value
    ghost reads_back: { IsReadBack letter_of value_of };
}

// A lock to read or to write.
impl Lettered for Mode {
    ghost letter_of = { mode_letter };

    ghost value_of = { mode_of };

    ghost reads_back = { elim [ Read ↦ refl | Write ↦ refl ] };

    fn letter(self) -> char {
        match self {
            Mode::Read => 'R',
            Mode::Write => 'W',
        }
    }

    fn from_letter(letter: char) -> Option<Mode> {
        match letter {
            'R' => Some(Mode::Read),
            'W' => Some(Mode::Write),
            _ => None,
        }
    }
}

// The byte that is the whole field, as a letter.
pub(crate) fn letter(field: &[u8]) -> Option<char>
    ensures { result ≡ letter_in field.now }
{
    match field {
        [byte] => Some(char::from(*byte)),
        _ => None,
    }
}

// What the letter that is the whole field stands for.
pub(crate) fn by_letter<T: Lettered>(field: &[u8]) -> Result<T, Fault>
    ensures { result ≡ lettered_in T.value_of field.now }
{
    let letter = letter(field).ok_or(Fault::Form)?;
    T::from_letter(letter).ok_or(Fault::Form)
}

// A number.
pub(crate) fn value(field: &[u8]) -> Result<u64, Fault>
    ensures { result ≡ value_in field.now }
{
    number(field).ok_or(Fault::Form)
}

// How many objects.
pub(crate) fn object_count(field: &[u8]) -> Result<u8, Fault>
    ensures { result ≡ objects_in field.now }
{
    match u8::try_from(value(field)?) {
        Ok(count) if count <= MOST_SCRIPT_OBJECTS => Ok(count),
        _ => Err(Fault::Form),
    }
}
