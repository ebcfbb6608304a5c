// The theorems that the definitions stand under, each on the contract of a function named after what it says.
ghost use Rattle.protocol.specs.Law.{Stands};
ghost use Rattle.protocol.specs.CommitLaws.{CommitLaws};
ghost use Rattle.protocol.specs.HistoryLaws.{HistoryLaws};
ghost use Rattle.protocol.specs.PairingLaws.{PairingLaws};
ghost use Rattle.protocol.specs.Reasons.{ReasonLaws};
ghost use Rattle.protocol.specs.RefusalLaws.{RefusalLaws};
ghost use Rattle.protocol.specs.RelyingLaws.{RelyingLaws};
ghost use Rattle.protocol.specs.RingTest.{RingTest};
ghost use Rattle.protocol.specs.SetLaws.{SetLaws};
ghost use Rattle.protocol.specs.SettlingLaws.{SettlingLaws};
ghost use Rattle.protocol.specs.VersionOrder.{VersionOrder};
ghost use Rattle.protocol.specs.WaitingLaws.{WaitingLaws};
ghost use Rattle.protocol.specs.Cases.{Agree};

// The law of the book.
#[tactic(auto, using(crate::proofs::Law::law))]
pub fn overlapping_jobs_leave_what_they_would_one_by_one()
    ensures { Stands }
{}

// Sets of places, told by their members.
#[tactic(auto, using(crate::proofs::SetLaws::set_laws))]
pub fn sets_have_the_members_they_should()
    ensures { SetLaws }
{}

// Which number a call is answered.
#[tactic(auto, using(crate::proofs::RefusalExact::refusal_laws))]
pub fn the_first_reason_that_applies_is_answered()
    ensures { RefusalLaws }
{}

// The reasons to refuse a call, in plain words.
#[tactic(auto, using(crate::proofs::ReasonsTell::reason_laws))]
pub fn each_test_passes_exactly_when_its_reason_holds()
    ensures { ReasonLaws }
{}

// Who waits for whom.
#[tactic(auto, using(crate::proofs::WaitingExact::waiting_laws))]
pub fn a_job_waits_for_those_who_held_its_objects_before()
    ensures { WaitingLaws }
{}

// The test for a ring of waits.
#[tactic(auto, using(crate::proofs::RingTest::ring_test))]
pub fn a_lock_is_refused_for_a_ring_exactly_when_it_closes_one()
    ensures { RingTest }
{}

// What an object offers, and which executions a lock leaves.
#[tactic(auto, using(crate::proofs::PairingExact::pairing_laws))]
pub fn a_lock_keeps_exactly_the_pairs_that_agree()
    ensures { PairingLaws }
{}

// What a commit and an abort leave.
#[tactic(auto, using(crate::proofs::SettlingExact::settling_laws))]
pub fn an_end_drops_exactly_what_took_the_other_ending()
    ensures { SettlingLaws }
{}

// What a job has when it commits, and what is then in the store.
pub fn a_commit_writes_the_one_version_of_each_turned_object()
    ensures { CommitLaws }
{}

// The order of an object's versions.
#[tactic(auto, using(crate::proofs::MakersOrder::version_order))]
pub fn versions_stand_in_the_order_of_the_locks_of_their_makers()
    ensures { VersionOrder }
{}

// What the history says of holdings and running jobs.
#[tactic(auto, using(crate::proofs::HistoryBook::history_laws))]
pub fn a_holding_begins_with_a_lock_and_ends_with_its_job()
    ensures { HistoryLaws }
{}

// What the history says of relying and of ended jobs.
#[tactic(auto, using(crate::proofs::RelyingExact::relying_laws))]
pub fn a_lock_makes_a_job_rely_on_makers_and_on_whom_they_rely()
    ensures { RelyingLaws }
{}

// Overlaps worked out by hand.
#[tactic(auto, using(crate::proofs::Cases::all_agree))]
pub fn worked_cases_agree()
    ensures { Agree }
{}
