// An open holding becomes turned.
ghost use Rattle.std.specs.Prelude.{◌≡◌, map};
ghost use Rattle.protocol.specs.Holdings.{turn};

use protocol::{Holding, HoldingState};

// The holding as it is once the job has imaged the object. `holders::imaged` refuses besides, and is of a crate beside this one.
fn turned(holding: Holding, place: u8, object: u64) -> Holding
    ensures { result ≡ turn place object holding }
{
    match holding.state {
        HoldingState::Open if holding.job == place && holding.object == object => Holding {
            state: HoldingState::Turned,
            ..holding
        },
        _ => holding,
    }
}

// Turns the job's open holding of the object.
pub fn turn(holdings: &mut [Holding], place: u8, object: u64)
    ensures { holdings.new ≡ map (turn place object) holdings.old }
{
    for holding in holdings.iter_mut() {
        *holding = turned(*holding, place, object);
    }
}
