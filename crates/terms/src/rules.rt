// A job rule, by what its four functions mean. They take plain numbers and no struct, since users read the four as they stand.
ghost use Rattle.std.specs.Prelude.{◌≡◌};
ghost use Rattle.terms.specs.Rule.{Rule};

use super::modes::Mode;

pub trait JobRule {
    ghost means: { Self → Rule };

    // Whether there are jobs of this kind.
    fn knows(&self, kind: u8) -> bool
        ensures known { result ≡ (means self.now).knows kind };

    // The working value with which a job begins.
    fn start(&self, kind: u8, argument: u64) -> u64
        ensures started { result ≡ (means self.now).start kind argument };

    // The working value after the job has locked an object and met its value.
    fn take(&self, kind: u8, argument: u64, work: u64, object: u64, mode: Mode, met: u64) -> u64
        ensures taken { result ≡ (means self.now).take kind argument work object mode met };

    // The value that the job writes to an object whose value it met.
    fn give(&self, kind: u8, argument: u64, work: u64, object: u64, met: u64) -> u64
        ensures given { result ≡ (means self.now).give kind argument work object met };
}
