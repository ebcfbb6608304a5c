// What a storeskeeper may count on in the two rules. Each function stands for a law, which its contract states.
// A kind goes by its number here, since the laws are of the rules' own functions, which take numbers.
ghost use Rattle.std.specs.Prelude.{◌-◌, true, false};
ghost use Rattle.house.specs.Draw.{draw};
ghost use Rattle.house.specs.Charge.{charge_rule};
ghost use Rattle.house.specs.Loan.{loan_rule};
ghost use Rattle.house.specs.ChargeLaws.{NeverGains, NeverLoses, TellsHours, OnTheSheet, Rises, KeepsWhere};
ghost use Rattle.house.specs.LoanLaws.{KeepsLent, KeepsOthers, KeepsTeam, NeverSooner, GivesWorkingDay};

// A spend never gives a pack more than it had.
pub fn spend_never_gains()
    ensures { NeverGains 2 }
{}

// A charge never gives a pack less than it had.
pub fn charge_never_loses()
    ensures { NeverLoses 1 }
{}

// A plan gives the hours that the total of the packs read lasts, in whatever order they were read.
pub fn plan_tells_hours()
    ensures { TellsHours 3 }
{}

// Every draw is one of the seven.
pub fn draw_is_on_the_sheet()
    ensures { OnTheSheet draw }
{}

// More talking never draws less.
#[tactic(auto, using(crate::proofs::Charged::rises))]
pub fn draw_rises_with_minutes()
    ensures { Rises draw }
{}

// To lend a pack that a team has changes nothing.
pub fn lend_keeps_a_lent_pack()
    ensures { KeepsLent 1 }
{}

// To return a pack that another team has changes nothing.
pub fn return_keeps_others_packs()
    ensures { KeepsOthers 2 }
{}

// To extend a loan leaves the pack with its team.
pub fn extend_keeps_the_team()
    ensures { KeepsTeam 3 }
{}

// To extend the loan of a pack that the job has locked never brings its due day forward.
pub fn extend_is_never_sooner()
    ensures { NeverSooner 3 }
{}

// The day that an extend gives is its working day, whatever the pack's day was.
pub fn extend_gives_the_working_day()
    ensures { GivesWorkingDay 3 }
{}

// A job of a kind that a rule does not know gives each value as it met it.
pub fn unknown_kinds_change_nothing()
    ensures charges { KeepsWhere false charge_rule }
    ensures loans { KeepsWhere false loan_rule }
{}
