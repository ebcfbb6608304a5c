// Who waits for whom.
ghost use Rattle.std.specs.Prelude.{◌≡◌, ℕ, ◌<◌, ◌&&◌, ◌==◌, not, length};
ghost use Rattle.std.specs.List.{list_any};
ghost use Rattle.protocol.specs.Holdings.{clash, waits, new_waits};
ghost use Rattle.protocol.specs.Places.{placed};
ghost use Rattle.holders.specs.Sets.{mask_at};

use super::gathering::jobs_passing;
use protocol::{Holding, HoldingState, PlaceSet};

// The second holding, which began later, has to wait for the first, if they are of two jobs.
fn clashes(first: &Holding, second: &Holding) -> bool
    ensures { result ≡ clash first.now second.now }
{
    let both_read = first.state == HoldingState::Reading && second.state == HoldingState::Reading;
    first.object == second.object && !both_read
}

// The jobs for which the job of a new holding waits on its account. It is copied, so that it is read once and not beside each of the others.
pub fn new_waits(holdings: &[Holding], new: &Holding) -> PlaceSet
    ensures { result.mask ≡ placed (new_waits holdings.now new.now) }
{
    let new = *new;
    jobs_passing(holdings, |earlier| {
        earlier.job != new.job && clashes(earlier, &new)
    })
}

// What one job waits for, over its own holdings: for each, those that were in the way.
fn waits_by_own(holdings: &[Holding], place: u8) -> PlaceSet
    ensures { result.mask ≡ placed (waits holdings.now place) }
{
    holdings
        .iter()
        .enumerate()
        .filter(|(_, holding)| holding.job == place)
        .fold(PlaceSet::EMPTY, |set, (i, holding)| {
            set.joined(new_waits(&holdings[..i], holding))
        })
}

// Whether the job at the place waits for the job of a holding, on account of one of its own behind it.
fn is_in_the_way(holding: &Holding, behind: &[Holding], place: u8) -> bool
    ensures { result ≡ (not (holding.now.job == place) && list_any (λ own. (own.job == place) && clash holding.now own) behind.now) }
{
    holding.job != place
        && behind
            .iter()
            .any(|own| own.job == place && clashes(holding, own))
}

// What going over the job's own holdings looks at: all that stand before each.
fn looks_by_own(holdings: &[Holding], place: u8) -> usize {
    holdings
        .iter()
        .enumerate()
        .filter(|(_, holding)| holding.job == place)
        .fold(0, |sum: usize, (i, _)| sum.saturating_add(i))
}

// The jobs for which one job waits. It goes over the holdings of others, each with a look at all behind it, and turns to the job's own once it has looked at more than these would.
pub fn waits_of(holdings: &[Holding], place: u8) -> PlaceSet
    ensures { result.mask ≡ placed (waits holdings.now place) }
{
    let most = looks_by_own(holdings, place);
    let mut looks: usize = 0;
    let mut set = PlaceSet::EMPTY;
    for (i, holding) in holdings.iter().enumerate() {
        if looks > most {
            return waits_by_own(holdings, place);
        }
        // Its own holdings add nothing, nor does a job that is in the set or at no place.
        if holding.job != place && holding.job < 16 && !set.has(holding.job) {
            let behind = &holdings[i + 1..];
            looks = looks.saturating_add(behind.len());
            if is_in_the_way(holding, behind, place) {
                set = set.joined(PlaceSet::only(holding.job));
            }
        }
    }
    set
}

// The jobs for which each job waits, by its place: an array, since there are sixteen places. One pass, in which each holding adds to the set of its job.
pub fn waiting(holdings: &[Holding]) -> [PlaceSet; 16]
    ensures each { (p : ℕ) → p < 16 → mask_at result p ≡ placed (waits holdings.now p) }
    ensures all { length result ≡ 16 }
{
    let mut sets = [PlaceSet::EMPTY; 16];
    for (i, holding) in holdings.iter().enumerate() {
        let place = holding.job as usize;
        if place < 16 {
            sets[place] = sets[place].joined(new_waits(&holdings[..i], holding));
        }
    }
    sets
}
