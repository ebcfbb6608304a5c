// Who holds what, and who makes what.
ghost use Rattle.std.specs.Prelude.{◌≡◌, ◌&&◌, length, ◌==◌, filter};
ghost use Rattle.std.specs.List.{list_any};
ghost use Rattle.protocol.specs.Holdings.{opened, held_by, holds, later_makers};
ghost use Rattle.protocol.specs.Holdings.{makers as makers_of, position as position_of};
ghost use Rattle.protocol.specs.Places.{placed};

use super::gathering::jobs_passing;
use protocol::{Holding, HoldingState, PlaceSet};

// It is the job's holding of the object.
fn holds(holding: &Holding, place: u8, object: u64) -> bool
    ensures { result ≡ holds place object holding.now }
{
    holding.job == place && holding.object == object
}

// Whether a job holds the object.
pub fn holds_object(holdings: &[Holding], place: u8, object: u64) -> bool
    ensures { result ≡ list_any (holds place object) holdings.now }
{
    holdings.iter().any(|holding| holds(holding, place, object))
}

// Whether any job has the object open.
pub fn is_open(holdings: &[Holding], object: u64) -> bool
    ensures { result ≡ list_any (λ h. (h.object == object) && opened h.state) holdings.now }
{
    holdings.iter().any(|holding| holding.object == object && holding.state == HoldingState::Open)
}

// Whether a job has any object open.
pub fn has_open(holdings: &[Holding], place: u8) -> bool
    ensures { result ≡ list_any (λ h. held_by place h && opened h.state) holdings.now }
{
    holdings.iter().any(|holding| holding.job == place && holding.state == HoldingState::Open)
}

// How many objects a job holds. The book counts records of every kind that names a job; this crate knows holdings alone, by a place of 8 bits.
pub fn count_held(holdings: &[Holding], place: u8) -> usize
    ensures { result ≡ length (filter (held_by place) holdings.now) }
{
    holdings
        .iter()
        .filter(|holding| holding.job == place)
        .count()
}

// Where the object stands among those that a job holds; how many these are, where it is none of them.
// A number and no option: it answers in every case, as the rules do, which ask only where the job holds the object.
pub fn position(holdings: &[Holding], place: u8, object: u64) -> usize
    ensures { result ≡ position_of place object holdings.now }
{
    holdings
        .iter()
        .filter(|own| own.job == place)
        .take_while(|own| own.object != object)
        .count()
}

// The makers of the object.
pub fn makers(holdings: &[Holding], object: u64) -> PlaceSet
    ensures { result.mask ≡ placed (makers_of object holdings.now) }
{
    jobs_passing(holdings, |holding| {
        holding.object == object && holding.state == HoldingState::Turned
    })
}

// Those of them that locked the object after a job did; none where it does not hold it.
pub fn later_makers(holdings: &[Holding], object: u64, place: u8) -> PlaceSet
    ensures { result.mask ≡ placed (later_makers object place holdings.now) }
{
    let own = holdings
        .iter()
        .position(|holding| holds(holding, place, object));
    match own {
        Some(i) => makers(&holdings[i + 1..], object),
        None => PlaceSet::EMPTY,
    }
}
