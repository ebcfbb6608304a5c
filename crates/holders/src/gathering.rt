// The jobs of the holdings that pass a test.
ghost use Rattle.std.specs.Prelude.{◌≡◌, Bool};
ghost use Rattle.protocol.specs.declared.holdings.Holding.{Holding};
ghost use Rattle.protocol.specs.Holdings.{jobs_of};
ghost use Rattle.protocol.specs.Places.{placed};

use protocol::{Holding, PlaceSet};

// The test is a closure; the contract names it by any function that says what the closure answers.
pub(crate) fn jobs_passing<F: Fn(&Holding) -> bool>(holdings: &[Holding], passes: F) -> PlaceSet
    requires { F.IsAlwaysCallable passes }
    ensures { (test : Holding → Bool) → ((h : _) (b : Bool) → F.post passes h b → b ≡ test h.now) → result.mask ≡ placed (jobs_of test holdings.now) }
{
    holdings.iter().fold(PlaceSet::EMPTY, |set, holding| {
        if passes(holding) {
            set.joined(PlaceSet::only(holding.job))
        } else {
            set
        }
    })
}
