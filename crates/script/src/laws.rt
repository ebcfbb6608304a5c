// What is written is read back, and nothing else is read. Each function answers the numbers of its law.
ghost use Rattle.script.specs.Laws.{WrittenCallsReadBack, WrittenSetupsReadBack};

// The lines that ask for a call are those that calls are written as, with numbers of at most 18 digits.
#[tactic(auto, using(crate::proofs::CallRounds::calls_read_back))]
pub fn written_calls_read_back() -> u64
    ensures { WrittenCallsReadBack result }
{
    1_000_000_000_000_000_000
}

// The lines that give a setup are those that setups are written as, with numbers of at most 18 digits and at most 64 objects.
#[tactic(auto, using(crate::proofs::SetupRounds::setups_read_back))]
pub fn written_setups_read_back() -> (u64, u8)
    ensures { WrittenSetupsReadBack result.0 result.1 }
{
    (1_000_000_000_000_000_000, 64)
}
