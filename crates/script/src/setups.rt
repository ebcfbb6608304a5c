// The setup that the first line gives.
ghost use Rattle.std.specs.Prelude.{◌≡◌, refl};
ghost use Rattle.script.specs.Letters.{rule_letter, rule_of, store_letter, store_of};
ghost use Rattle.script.specs.Setups.{setup_of};
ghost use Rattle.script.specs.Lines.{setup_asked, texts};
ghost use Rattle.script.specs.declared.setups.RuleName.TheVariants.{Charge, Loan};
ghost use Rattle.script.specs.declared.setups.StoreName.TheVariants.{Table, Image};

use super::faults::Fault;
use super::letters::{Lettered, by_letter, object_count, value};
use super::lines::Line;
use fields::Field;

#[derive(Clone, Copy, PartialEq, Eq, Debug)]
pub enum RuleName {
    Charge,
    Loan,
}

#[derive(Clone, Copy, PartialEq, Eq, Debug)]
pub enum StoreName {
    Table,
    Image,
}

#[derive(Clone, Copy, PartialEq, Eq, Debug)]
pub struct Setup {
    pub rule: RuleName,
    pub store: StoreName,
    pub robustness: u64,
    pub limit: u64,
    pub objects: u8,
}

impl Lettered for RuleName {
    ghost letter_of = { rule_letter };

    ghost value_of = { rule_of };

    ghost reads_back = { elim [ Charge ↦ refl | Loan ↦ refl ] };

    fn letter(self) -> char {
        match self {
            RuleName::Charge => 'C',
            RuleName::Loan => 'L',
        }
    }

    fn from_letter(letter: char) -> Option<RuleName> {
        match letter {
            'C' => Some(RuleName::Charge),
            'L' => Some(RuleName::Loan),
            _ => None,
        }
    }
}

impl Lettered for StoreName {
    ghost letter_of = { store_letter };

    ghost value_of = { store_of };

    ghost reads_back = { elim [ Table ↦ refl | Image ↦ refl ] };

    fn letter(self) -> char {
        match self {
            StoreName::Table => 'T',
            StoreName::Image => 'M',
        }
    }

    fn from_letter(letter: char) -> Option<StoreName> {
        match letter {
            'T' => Some(StoreName::Table),
            'M' => Some(StoreName::Image),
            _ => None,
        }
    }
}

impl Line<'_> {
    // The setup that the line gives; only the first line of a script gives one. No `TryFrom`, as for `call`.
    pub fn setup(&self) -> Result<Setup, Fault>
        ensures { result ≡ setup_asked self.now }
    {
        match self {
            Line::Setup {
                rule,
                store,
                robustness,
                limit,
                objects,
            } => Ok(Setup {
                rule: by_letter(rule.bytes)?,
                store: by_letter(store.bytes)?,
                robustness: value(robustness.bytes)?,
                limit: value(limit.bytes)?,
                objects: object_count(objects.bytes)?,
            }),
            _ => Err(Fault::Letter),
        }
    }
}

// What the fields of the first line give.
pub fn read_setup(fields: &[Field]) -> Result<Setup, Fault>
    ensures { result ≡ setup_of (texts fields.now) }
{
    Line::first(fields)?.setup()
}
