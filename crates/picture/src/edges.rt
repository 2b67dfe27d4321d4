// Arrows, and whether a run that is shown goes along them.
ghost use Rattle.std.specs.Prelude.{Some};
ghost use Rattle.picture.specs.Pictures.{colour};

use drawing::Arrow;
use std::fmt;

#[derive(Clone, Copy, PartialEq, Eq)]
pub enum Tint {
    // On neither run.
    Plain,
    // On the run with a fault or its way round.
    First,
    // On the run without one or its way round.
    Second,
    Both,
}

impl Tint {
    // The same where one run more goes along.
    pub(crate) fn with(self, run: Tint) -> Tint {
        if self == Tint::Plain || self == run {
            run
        } else {
            Tint::Both
        }
    }
}

impl fmt::Display for Tint {
    ghost output = { λ t. Some (colour t) };

    fn fmt<W: fmt::Write>(&self, f: &mut fmt::Formatter<W>) -> fmt::Result {
        match *self {
            Tint::Plain => write!(f, "black"),
            Tint::First => write!(f, "red"),
            Tint::Second => write!(f, "blue"),
            Tint::Both => write!(f, "red:blue"),
        }
    }
}

#[derive(Clone, Copy)]
pub struct Edge {
    pub arrow: Arrow,
    pub tint: Tint,
}
