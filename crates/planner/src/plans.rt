// Plans over the packs of a store, by a store's and a job rule's terms alone.
ghost use Rattle.std.specs.Prelude.{◌≡◌, Some};
ghost use Rattle.planner.specs.Plan.{line, line_text, sheet_by_rule, sheet_by_total};

use house::{ChargeKind, ChargeRule, DRAW_SHEET};
use std::fmt;
use terms::{JobRule, Mode, Store};

// Minutes of talking in an hour, and the hours for which the packs then last.
#[derive(Clone, Copy, PartialEq, Eq, Debug)]
pub struct Line {
    pub minutes: u64,
    pub hours: u64,
}

impl fmt::Display for Line {
    ghost output = { λ line. Some (line_text line) };

    fn fmt<W: fmt::Write>(&self, f: &mut fmt::Formatter<W>) -> fmt::Result {
        write!(f, "{:>2} {:>20}", self.minutes, self.hours)
    }
}

// What a job that reads every object of a store writes to a new line past them, where it meets 0.
pub fn job_line<S: Store, R: JobRule>(store: &S, rule: &R, kind: u8, argument: u64) -> u64
    ensures { result ≡ line (R.JobRule.means rule.now) kind argument (S.Store.values store.now) }
{
    let work = (0..store.len())
        .filter_map(|object| Some((object, store.read(object)?)))
        .fold(rule.start(kind, argument), |work, (object, met)| {
            rule.take(kind, argument, work, object, Mode::Read, met)
        });
    rule.give(kind, argument, work, store.len(), 0)
}

// The plan sheet of the packs in a store: a line for each row of the draw sheet.
pub fn plan_sheet<S: Store>(store: &S) -> [Line; 7]
    ensures rule { result ≡ sheet_by_rule (S.Store.values store.now) }
    ensures total { result ≡ sheet_by_total (S.Store.values store.now) }
{
    DRAW_SHEET.map(|row| Line {
        minutes: row.minutes,
        hours: job_line(store, &ChargeRule, ChargeKind::Plan.into(), row.minutes),
    })
}
