// What holds of one plant under two views. Each theorem is the promise of a function that does nothing: without its proof the crate is not proved.
#![tactic(auto)]

ghost use Rattle.views.specs.Shown.{ShownMore, ShownSome};
ghost use Rattle.views.specs.Views.{FinerOut, Renaming};

// Where no less is shown nothing comes out later.
pub fn finer_out()
    ensures { FinerOut }
{}

// What signs are called changes nothing, in both directions.
pub fn renaming()
    ensures { Renaming }
{}

// What comes out with events shown does so with more of them shown, by whichever signs of their own.
pub fn shown_more()
    ensures { ShownMore }
{}

// There are signs for any set of events to be shown by.
pub fn shown_some()
    ensures { ShownSome }
{}
