// What a job holds.
ghost use Rattle.std.specs.Prelude.{◌≡◌};
ghost use Rattle.protocol.specs.Holdings.{begins};

use terms::Mode;

#[derive(Clone, Copy, PartialEq, Eq, Debug)]
pub enum HoldingState {
    // locked to read
    Reading,
    // locked to write, and not yet imaged
    Open,
    // locked to write and imaged: the job is a maker of the object
    Turned,
}

// How a holding begins.
impl From<Mode> for HoldingState {
    ghost from_gives = { λ mode state. state ≡ begins mode };

    fn from(mode: Mode) -> HoldingState {
        match mode {
            Mode::Read => HoldingState::Reading,
            Mode::Write => HoldingState::Open,
        }
    }
}

#[derive(Clone, Copy, PartialEq, Eq, Debug)]
pub struct Holding {
    pub job: u8,
    pub object: u64,
    pub state: HoldingState,
}

impl Holding {
    pub const EMPTY: Holding = Holding {
        job: 0,
        object: 0,
        state: HoldingState::Reading,
    };
}
