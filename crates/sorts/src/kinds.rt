// Which events count as faults, by their marks.
ghost use Rattle.std.specs.Prelude.{◌≡◌};
ghost use Rattle.sorts.specs.Sorts.{is_fault};

// No `Option` of a sort: `None` would read as no fault.
#[derive(Clone, Copy, PartialEq, Eq)]
pub enum Faults {
    // Those of this sort.
    Sort(u64),
    // All that have a sort.
    Any,
}

impl Faults {
    // Whether an event of this mark counts.
    pub fn counts(self, mark: u16) -> bool
        ensures { result ≡ is_fault self mark }
    {
        match self {
            Faults::Sort(sort) => u64::from(mark) == sort,
            Faults::Any => mark > 0,
        }
    }
}
