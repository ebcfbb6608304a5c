// One of the sixteen places where jobs run.
ghost use Rattle.std.specs.Prelude.{◌≡◌, ◌<◌, MatchResult};
ghost use Rattle.protocol.specs.declared.refusals.Refusal.TheVariants.{NoSuchPlace};

use protocol::Refusal;

#[derive(Clone, Copy)]
pub(crate) struct Place {
    pub number: u8,
    ghost below: { number < 16 },
}

impl TryFrom<u64> for Place {
    type Error = Refusal;

    ghost try_from_gives = { λ number result. MatchResult result (λ place. place.number ≡ number) (λ refusal. (refusal ≡ NoSuchPlace) × (15 < number)) };

    fn try_from(number: u64) -> Result<Place, Refusal> {
        match u8::try_from(number) {
            Ok(number) if number < 16 => Ok(Place { number }),
            _ => Err(Refusal::NoSuchPlace),
        }
    }
}
