// What may be counted on in packs as text. The function stands for a law, which its contract states.
ghost use Rattle.planner.specs.PackLaws.{ReadsBack};

// Packs that are written one to a line are read back as they were, up to as many as a store has objects.
#[tactic(auto, using(crate::proofs::Written::reads_back))]
pub fn written_packs_are_read_back()
    ensures { ReadsBack 65536 }
{}
