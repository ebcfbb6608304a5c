// The charge rule: a value is units of charge.
ghost use Rattle.std.specs.Prelude.{◌≡◌, Some, ok_or};
ghost use Rattle.house.specs.Charge.{charge_kind, charge_rule};

use super::draws::draw_at;
use super::kinds::UnknownKind;
use terms::{JobRule, Mode};

#[derive(Clone, Copy, PartialEq, Eq, Debug)]
pub enum ChargeKind {
    // adds the argument to a pack
    Charge = 1,
    // takes the argument from a pack
    Spend = 2,
    // tells for how many hours the packs that are read will last
    Plan = 3,
}

// A match of its own: a `find` among the kinds by their numbers, or one function for both rules, would name each kind all the same.
impl TryFrom<u8> for ChargeKind {
    type Error = UnknownKind;

    ghost try_from_gives = { λ number kind. kind ≡ ok_or (charge_kind number) (record { number = number }) };

    fn try_from(number: u8) -> Result<ChargeKind, UnknownKind> {
        match number {
            1 => Ok(ChargeKind::Charge),
            2 => Ok(ChargeKind::Spend),
            3 => Ok(ChargeKind::Plan),
            _ => Err(UnknownKind { number }),
        }
    }
}

impl From<ChargeKind> for u8 {
    ghost from_gives = { λ kind number. charge_kind number ≡ Some kind };

    fn from(kind: ChargeKind) -> u8 {
        kind as u8
    }
}

#[derive(Clone, Copy)]
pub struct ChargeRule;

impl JobRule for ChargeRule {
    ghost means = { λ _. charge_rule };

    fn knows(&self, kind: u8) -> bool {
        ChargeKind::try_from(kind).is_ok()
    }

    fn start(&self, kind: u8, argument: u64) -> u64 {
        match ChargeKind::try_from(kind) {
            Ok(ChargeKind::Charge | ChargeKind::Spend) => argument,
            Ok(ChargeKind::Plan) | Err(_) => 0,
        }
    }

    fn take(&self, kind: u8, argument: u64, work: u64, object: u64, mode: Mode, met: u64) -> u64 {
        match ChargeKind::try_from(kind) {
            Ok(ChargeKind::Charge | ChargeKind::Spend) => work,
            Ok(ChargeKind::Plan) => match mode {
                Mode::Read => work.saturating_add(met),
                Mode::Write => work,
            },
            Err(_) => 0,
        }
    }

    fn give(&self, kind: u8, argument: u64, work: u64, object: u64, met: u64) -> u64 {
        match ChargeKind::try_from(kind) {
            Ok(ChargeKind::Charge) => met.saturating_add(argument),
            Ok(ChargeKind::Spend) => met.saturating_sub(argument),
            Ok(ChargeKind::Plan) => work / draw_at(argument),
            Err(_) => met,
        }
    }
}
