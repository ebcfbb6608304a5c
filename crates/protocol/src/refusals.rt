// Why a call is refused.
ghost use Rattle.std.specs.Prelude.{◌≡◌};
ghost use Rattle.protocol.specs.Refusals.{refusal_number};

// Each by the number that answers it; it is told by that alone, so it has no text.
#[derive(Clone, Copy, PartialEq, Eq, Debug)]
pub enum Refusal {
    RobustnessTooLarge = 1,
    LimitOutOfRange = 2,
    NoSuchPlace = 3,
    PlaceTaken = 4,
    UnknownKind = 5,
    NoJob = 6,
    LostJob = 7,
    NoSuchObject = 8,
    AlreadyHeld = 9,
    TooManyHeld = 10,
    OpenElsewhere = 11,
    WouldWaitForItself = 12,
    NoExecution = 13,
    TooManyExecutions = 14,
    NotOpen = 15,
    TooManyVersions = 16,
    HasOpen = 17,
    Waits = 18,
}

impl From<Refusal> for u8 {
    ghost from_gives = { λ refusal number. number ≡ refusal_number refusal };

    fn from(refusal: Refusal) -> u8 {
        refusal as u8
    }
}
