// The open holding that an image call turns.
ghost use Rattle.std.specs.Prelude.{◌≡◌, ◌&&◌, if◌then◌else◌, Ok, Err};
ghost use Rattle.std.specs.List.{list_any};
ghost use Rattle.protocol.specs.declared.refusals.Refusal.TheVariants.{NotOpen};
ghost use Rattle.protocol.specs.Holdings.{opened, holds};
ghost use Rattle.holders.specs.Imaging.{image_of};

use protocol::{Holding, HoldingState, Refusal};
use terms::Call;

// What an image call makes of a holding: an open one of its job and object is turned, any other refuses.
// Readers look for this match on the state and the call together; a table turns by the same rule, and refuses nothing.
pub fn imaged(holding: Holding, call: Call) -> Result<Holding, Refusal>
    ensures { result ≡ image_of holding call }
{
    match (holding.state, call) {
        (HoldingState::Open, Call::Image { place, object })
            if u64::from(holding.job) == place && holding.object == object => {
            Ok(Holding {
                state: HoldingState::Turned,
                ..holding
            })
        }
        _ => Err(Refusal::NotOpen),
    }
}

// Refused where the job does not have the object open.
pub fn find_open(holdings: &[Holding], place: u8, object: u64) -> Result<(), Refusal>
    ensures { result ≡ (if list_any (λ h. holds place object h && opened h.state) holdings.now then Ok tt else Err NotOpen) }
{
    let image = Call::Image {
        place: u64::from(place),
        object,
    };
    if holdings
        .iter()
        .any(|holding| imaged(*holding, image).is_ok())
    {
        Ok(())
    } else {
        Err(Refusal::NotOpen)
    }
}
