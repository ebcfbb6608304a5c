// What records have in common.
ghost use Rattle.std.specs.Prelude.{◌≡◌, ℕ};
ghost use Rattle.protocol.specs.declared.assumptions.Assumption.{Assumption};

use protocol::{Assumption, Execution, Holding, Version};

// A record of one job.
pub trait NamesJob: Copy {
    ghost named: { Self → ℕ };

    fn job(&self) -> u8
        ensures { result ≡ named self.now };
}

impl NamesJob for Execution {
    ghost named = { λ e. e.job };

    fn job(&self) -> u8 {
        self.job
    }
}

impl NamesJob for Version {
    ghost named = { λ v. v.maker };

    fn job(&self) -> u8 {
        self.maker
    }
}

impl NamesJob for Holding {
    ghost named = { λ h. h.job };

    fn job(&self) -> u8 {
        self.job
    }
}

// A record that rests on how jobs are taken to end.
pub trait Assuming: NamesJob {
    ghost taken: { Self → Assumption };

    ghost assuming: { Self → Assumption → Self };

    fn assumption(&self) -> Assumption
        ensures { result ≡ taken self.now };

    fn assume(self, assumption: Assumption) -> Self
        ensures { result ≡ assuming self assumption };
}

impl Assuming for Execution {
    ghost taken = { λ e. e.assumes };

    ghost assuming = { λ e a. record { job = e.job; assumes = a; work = e.work; tally = e.tally; met = e.met } };

    fn assumption(&self) -> Assumption {
        self.assumes
    }

    fn assume(self, assumption: Assumption) -> Execution {
        Execution {
            assumes: assumption,
            ..self
        }
    }
}

impl Assuming for Version {
    ghost taken = { λ v. v.assumes };

    ghost assuming = { λ v a. record { object = v.object; maker = v.maker; value = v.value; assumes = a } };

    fn assumption(&self) -> Assumption {
        self.assumes
    }

    fn assume(self, assumption: Assumption) -> Version {
        Version {
            assumes: assumption,
            ..self
        }
    }
}
