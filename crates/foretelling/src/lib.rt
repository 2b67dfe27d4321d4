// Foretelling: what it means that the faults of a plant are foretold, and what holds of every plant, of any size.
// Each theorem is the promise of a function that does nothing: without its proof the crate is not proved.
#![tactic(auto)]

ghost use Rattle.foretelling.specs.Theorems.{AlarmStays, ForetoldOrMissed, InNone, LastMoment, NotForetold, Settles, Unwarned};
ghost use Rattle.foretelling.specs.Worked.{WorkedForetelling};

// An alarm stays, whatever is shown then.
pub fn alarm_stays()
    ensures { AlarmStays }
{}

// Each fault is foretold if and only if there is an alarm at the last moment before it.
pub fn last_moment()
    ensures { LastMoment }
{}

// Each fault is foretold, or two runs without a fault show the same, a fault possible after the one, n events without a fault after the other.
pub fn foretold_or_missed()
    ensures { ForetoldOrMissed }
{}

// Never both.
pub fn not_foretold()
    ensures { NotForetold }
{}

// In no events only a plant foretells in which no fault can happen.
pub fn in_none()
    ensures { InNone }
{}

// What can go on without a fault for as many events as there are states can go on for any number.
pub fn settles()
    ensures { Settles }
{}

// Two such runs, the other going on by n events or by as many as there are states, show that no first part of the first has an alarm.
pub fn unwarned()
    ensures { Unwarned }
{}

// Three worked plants: a fault that must come is foretold, none is where there are no faults, and one that need not come is missed.
pub fn worked_foretelling()
    ensures { WorkedForetelling }
{}
