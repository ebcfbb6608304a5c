// Which jobs a set of jobs reaches by waiting, and whether a lock would close a ring.
ghost use Rattle.std.specs.Prelude.{◌≡◌};
ghost use Rattle.protocol.specs.Holdings.{spread, rounds, reach, waits, new_waits};
ghost use Rattle.protocol.specs.Places.{has, placed};
ghost use Rattle.holders.specs.Sets.{mask_at};

use super::waits::{new_waits, waiting};
use protocol::{Holding, PlaceSet};

// The set, and all that its members wait for. The test stands in the fold: behind a filter the sixteen steps cost three times as much.
fn spread_once(sets: &[PlaceSet; 16], set: PlaceSet) -> PlaceSet
    ensures { result.mask ≡ spread (mask_at sets.now) 16 set.mask }
{
    (0..16u8).zip(sets).fold(set, |all, (place, waits)| {
        if set.has(place) {
            all.joined(*waits)
        } else {
            all
        }
    })
}

// All jobs that the set has or waits for, directly or through others: each round adds one of sixteen places or is the last.
fn reached(sets: &[PlaceSet; 16], set: PlaceSet) -> PlaceSet
    ensures { result.mask ≡ rounds (mask_at sets.now) 17 set.mask }
{
    (0..17u8).fold(set, |all, _round| spread_once(sets, all))
}

// All jobs for which the job of a new holding would wait by it, directly or through others.
fn reached_by(holdings: &[Holding], new: &Holding) -> PlaceSet
    ensures { result.mask ≡ placed (reach (waits holdings.now) (new_waits holdings.now new.now)) }
{
    reached(&waiting(holdings), new_waits(holdings, new))
}

// Whether the job of a new holding would wait by it for itself.
pub fn would_ring(holdings: &[Holding], new: &Holding) -> bool
    ensures { result ≡ has (placed (reach (waits holdings.now) (new_waits holdings.now new.now))) new.now.job }
{
    reached_by(holdings, new).has(new.job)
}
