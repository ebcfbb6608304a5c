// The loan rule: a value is the team that has a pack, and the day on which it is due.
ghost use Rattle.std.specs.Prelude.{◌≡◌, ◌+◌, ◌*◌, ◌/◌, ◌%◌, ◌^◌, Some, ok_or};
ghost use Rattle.house.specs.Loan.{loan_kind, loan_rule, team, due_day, loan};

use super::kinds::UnknownKind;
use terms::{JobRule, Mode};

#[derive(Clone, Copy, PartialEq, Eq, Debug)]
pub enum LoanKind {
    // gives a pack that is on the shelf to a team
    Lend = 1,
    // puts a team's pack back on the shelf
    Return = 2,
    // moves the due day of a pack
    Extend = 3,
}

// A match of its own, as for `ChargeKind`.
impl TryFrom<u8> for LoanKind {
    type Error = UnknownKind;

    ghost try_from_gives = { λ number kind. kind ≡ ok_or (loan_kind number) (record { number = number }) };

    fn try_from(number: u8) -> Result<LoanKind, UnknownKind> {
        match number {
            1 => Ok(LoanKind::Lend),
            2 => Ok(LoanKind::Return),
            3 => Ok(LoanKind::Extend),
            _ => Err(UnknownKind { number }),
        }
    }
}

impl From<LoanKind> for u8 {
    ghost from_gives = { λ kind number. loan_kind number ≡ Some kind };

    fn from(kind: LoanKind) -> u8 {
        kind as u8
    }
}

// A team and a due day, as a value of the loan rule has them. Team 0 is the shelf, and day 0 is no due day.
#[derive(Clone, Copy, PartialEq, Eq, Debug)]
pub struct Loan {
    pub team: u32,
    pub due_day: u32,
}

// The low 32 bits of a value are the day, and the high ones the team.
const DAYS: u64 = 1 << 32;

// The loan that a value says.
impl From<u64> for Loan {
    ghost from_gives = { λ value said. said ≡ record { team = team value; due_day = due_day value } };

    fn from(value: u64) -> Loan {
        Loan {
            team: (value / DAYS) as u32,
            due_day: (value % DAYS) as u32,
        }
    }
}

// The value that says a loan.
impl From<Loan> for u64 {
    ghost from_gives = { λ said value. value ≡ loan said.team said.due_day };

    fn from(loan: Loan) -> u64 {
        u64::from(loan.team) * DAYS + u64::from(loan.due_day)
    }
}

#[derive(Clone, Copy)]
pub struct LoanRule;

impl JobRule for LoanRule {
    ghost means = { λ _. loan_rule };

    fn knows(&self, kind: u8) -> bool {
        LoanKind::try_from(kind).is_ok()
    }

    fn start(&self, kind: u8, argument: u64) -> u64 {
        match LoanKind::try_from(kind) {
            Ok(LoanKind::Extend) => u64::from(Loan::from(argument).due_day),
            _ => 0,
        }
    }

    fn take(&self, kind: u8, argument: u64, work: u64, object: u64, mode: Mode, met: u64) -> u64 {
        match LoanKind::try_from(kind) {
            Ok(LoanKind::Extend) => work.max(u64::from(Loan::from(met).due_day)),
            _ => 0,
        }
    }

    fn give(&self, kind: u8, argument: u64, work: u64, object: u64, met: u64) -> u64 {
        match LoanKind::try_from(kind) {
            Ok(LoanKind::Lend) if Loan::from(met).team == 0 => argument,
            Ok(LoanKind::Return) if Loan::from(met).team == Loan::from(argument).team => 0,
            Ok(LoanKind::Extend) => u64::from(Loan {
                team: Loan::from(met).team,
                due_day: Loan::from(work).due_day,
            }),
            _ => met,
        }
    }
}
