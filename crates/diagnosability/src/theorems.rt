// That a verdict is the only one: without its proof the crate is not proved.
ghost use Rattle.diagnosability.specs.Verdict.{VerdictOne};

// Of one plant, whatever room is lent, just one number of events is said, or that a fault hides, or one rule.
pub fn verdict_one()
    ensures { VerdictOne }
{}
