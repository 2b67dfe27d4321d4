// What the rules for candidates mean, and that an answer is the only one: without its proof the crate is not proved.
ghost use Rattle.sensors.specs.Candidates.{RefusedOrFit};
ghost use Rattle.sensors.specs.Choice.{ChoiceOne};

// A plant and its candidates are turned away by some rule, or they fit: just one of the two.
pub fn refused_or_fit()
    ensures { RefusedOrFit }
{}

// Cheapest sets cost the same, and where there is one it is not so that no set does.
pub fn choice_one()
    ensures { ChoiceOne }
{}
