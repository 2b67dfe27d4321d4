// What one sort has to do with faults altogether, in every plant of any size. Each theorem is the promise of a function that does nothing: without its proof the crate is not proved.
ghost use Rattle.sorts.specs.Theorems.{Alone, ConverseFails, Greatest, OnlySort, RulesSame, WorkedArrows};

// What comes out in n events as its sort does so as a fault at all, where the arrows of other sorts are left out.
pub fn alone()
    ensures { Alone }
{}

// Where there is no other sort, the sort is judged and known just as faults altogether are.
pub fn only_sort()
    ensures { OnlySort }
{}

// If every sort that occurs comes out, faults altogether come out in the greatest of the numbers.
pub fn greatest()
    ensures { Greatest }
{}

// The plant's own rules refuse the same whichever faults count, and what they refuse where faults have no sorts.
pub fn rules_same()
    ensures { RulesSame }
{}

// Faults altogether may come out at once though every sort hides.
pub fn converse_fails()
    ensures { ConverseFails }
{}

// Which arrows are left at one sort, in a worked plant.
pub fn worked_arrows()
    ensures { WorkedArrows }
{}
