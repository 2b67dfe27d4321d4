// What holds of labellings and of the rules for them. Each theorem is the promise of a function that does nothing: without its proof the crate is not proved.
ghost use Rattle.labelling.specs.Labels.{SignsCounted};
ghost use Rattle.labelling.specs.Refused.{RefusedOrFit};
ghost use Rattle.labelling.specs.Trials.{NormalForms};

// A plant and its row are turned away by some rule, or they fit: just one of the two.
pub fn refused_or_fit()
    ensures { RefusedOrFit }
{}

// The signs of a row are its different numbers other than 0.
pub fn signs_counted()
    ensures { SignsCounted }
{}

// Every labelling is a renaming of one in normal form, with as many signs.
pub fn normal_forms()
    ensures { NormalForms }
{}
