// A line, by its letter and the fields after it.
ghost use Rattle.std.specs.Prelude.{◌≡◌};
ghost use Rattle.script.specs.Letters.{letter_in};
ghost use Rattle.script.specs.Lines.{first_line, later_line, field, text_of};

use super::faults::Fault;
use super::letters::letter;
use fields::Field;

#[derive(Clone, Copy)]
pub enum Line<'a> {
    Setup {
        rule: Field<'a>,
        store: Field<'a>,
        robustness: Field<'a>,
        limit: Field<'a>,
        objects: Field<'a>,
    },
    Begin {
        place: Field<'a>,
        kind: Field<'a>,
        argument: Field<'a>,
    },
    Lock {
        place: Field<'a>,
        object: Field<'a>,
        mode: Field<'a>,
    },
    Image {
        place: Field<'a>,
        object: Field<'a>,
    },
    Commit {
        place: Field<'a>,
    },
    Abort {
        place: Field<'a>,
    },
}

// The letter of a line: the byte that is its whole first field, as a letter.
fn line_letter(fields: &[Field]) -> Option<char>
    ensures { result ≡ letter_in (text_of (field fields.now 0)) }
{
    letter(fields.first()?.bytes)
}

impl<'a> Line<'a> {
    // The first line of a script.
    pub fn first(fields: &[Field<'a>]) -> Result<Line<'a>, Fault>
        ensures { result ≡ first_line fields.now }
    {
        match (line_letter(fields), fields) {
            (Some('S'), [_, rule, store, robustness, limit, objects]) => Ok(Line::Setup {
                rule: *rule,
                store: *store,
                robustness: *robustness,
                limit: *limit,
                objects: *objects,
            }),
            (Some('S'), _) => Err(Fault::Count),
            _ => Err(Fault::Letter),
        }
    }

    // A line after the first.
    pub fn later(fields: &[Field<'a>]) -> Result<Line<'a>, Fault>
        ensures { result ≡ later_line fields.now }
    {
        match (line_letter(fields), fields) {
            (Some('B'), [_, place, kind, argument]) => Ok(Line::Begin {
                place: *place,
                kind: *kind,
                argument: *argument,
            }),
            (Some('L'), [_, place, object, mode]) => Ok(Line::Lock {
                place: *place,
                object: *object,
                mode: *mode,
            }),
            (Some('I'), [_, place, object]) => Ok(Line::Image {
                place: *place,
                object: *object,
            }),
            (Some('C'), [_, place]) => Ok(Line::Commit { place: *place }),
            (Some('A'), [_, place]) => Ok(Line::Abort { place: *place }),
            (Some('B' | 'L' | 'I' | 'C' | 'A'), _) => Err(Fault::Count),
            _ => Err(Fault::Letter),
        }
    }
}
