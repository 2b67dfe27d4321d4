// The marks of events looked through.
ghost use Rattle.std.specs.Prelude.{◌≡◌};
ghost use Rattle.sorts.specs.Sorts.{occurs as occurs-in};

// Whether some event is of this sort: the mark stands behind its sign. The chain `chunks_exact(2).any(..)` was tried, and its proof did not close.
pub fn occurs(events: &[u16], sort: u64) -> bool
    ensures { result ≡ occurs-in sort events.now }
{
    for (place, number) in events.iter().enumerate() {
        if place % 2 == 1 && u64::from(*number) == sort {
            return true;
        }
    }
    false
}
