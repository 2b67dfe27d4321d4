// What holds of every plant, of any size. Each theorem is the promise of a function that does nothing: without its proof the crate is not proved.
ghost use Rattle.plant.specs.Theorems.{BadStays, HiddenFits, InPairs, KnownOne, LeastOut, MoreSeen, NotBoth, OutOrHidden};
ghost use Rattle.plant.specs.Validity.{RefusedOrValid};
ghost use Rattle.plant.specs.Worked.{HiddenPlant, ToldPlant};

// After any signs just one of bad, good, either and neither is known.
pub fn known_one()
    ensures { KnownOne }
{}

// What is known to be bad stays so: no run without a fault shows the signs and one more.
pub fn bad_stays()
    ensures { BadStays }
{}

// Where more is seen nothing comes out later.
pub fn more_seen()
    ensures { MoreSeen }
{}

// Every fault comes out in some number of events, or a pair of runs hides one.
pub fn out_or_hidden()
    ensures { OutOrHidden }
{}

// Never both.
pub fn not_both()
    ensures { NotBoth }
{}

// If it comes out at all, it does in as many events as there are pairs of states.
pub fn in_pairs()
    ensures { InPairs }
{}

// If it comes out at all, there is a least number of events in which it does.
pub fn least_out()
    ensures { LeastOut }
{}

// If a fault hides, it does so in rows that fit into eight places for each pair of states.
pub fn hidden_fits()
    ensures { HiddenFits }
{}

// Numbers are turned away by some rule, or they make a plant: just one of the two.
pub fn refused_or_valid()
    ensures { RefusedOrValid }
{}

// Two worked plants: one comes out in 2 events and not in 1, the other hides a fault.
pub fn worked_plants()
    ensures told { ToldPlant }
    ensures hidden { HiddenPlant }
{}
