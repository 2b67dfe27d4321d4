// Why a text has no answer.
ghost use Rattle.std.specs.Prelude.{◌≡◌, Some};
ghost use Rattle.plant.specs.declared.parts.Refusal.TheVariants.{Text};
ghost use Rattle.drawing.specs.declared.reads.ReadError.TheVariants.{Line, Memory};
ghost use Rattle.wording.specs.declared.troubles.Trouble.TheVariants.{Refused, NoMemory};
ghost use Rattle.wording.specs.Troubles.{from_reading, line_in_editor, trouble, wrong};

use drawing::ReadError;
use plant::Refusal;
use std::alloc::AllocError;
use std::fmt;

// A rule turns it away, or memory was wanting.
#[derive(Clone, Copy)]
pub enum Trouble {
    Refused(Refusal),
    NoMemory,
}

impl From<AllocError> for Trouble {
    ghost from_gives = { λ _ r. r ≡ NoMemory };

    fn from(_e: AllocError) -> Trouble {
        Trouble::NoMemory
    }
}

impl From<fmt::Error> for Trouble {
    ghost from_gives = { λ _ r. r ≡ NoMemory };

    fn from(_e: fmt::Error) -> Trouble {
        Trouble::NoMemory
    }
}

impl From<Refusal> for Trouble {
    ghost from_gives = { λ e r. r ≡ Refused e };

    fn from(e: Refusal) -> Trouble {
        Trouble::Refused(e)
    }
}

impl From<ReadError> for Trouble {
    ghost from_gives = { λ e r. r ≡ from_reading e };

    fn from(e: ReadError) -> Trouble {
        match e {
            ReadError::Line(line) => Trouble::Refused(Refusal::Text(line)),
            ReadError::Memory => Trouble::NoMemory,
        }
    }
}

// What is wrong, in plain words.
#[derive(Clone, Copy)]
struct Wrong(Refusal);

impl fmt::Display for Wrong {
    ghost output = { λ x. Some (wrong x.0) };

    fn fmt<W: fmt::Write>(&self, f: &mut fmt::Formatter<W>) -> fmt::Result {
        match self.0 {
            Refusal::States(_) => write!(f, "a plant has 1 to 32 states"),
            Refusal::Events(place) => {
                let event = place / 2;
                if place == 128 {
                    write!(f, "a plant has at most 64 events")
                } else {
                    write!(
                        f,
                        "event {event} counted from 0: a sign is at most 255, a mark at most 1"
                    )
                }
            }
            Refusal::Arrows(place) => {
                let arrow = place / 3;
                write!(
                    f,
                    "arrow {arrow} counted from 0: a plant has at most 1024 arrows, between its states and by its events"
                )
            }
            Refusal::Room(_) => write!(
                f,
                "a room has at least eight places for each pair of states"
            ),
            Refusal::Memory(_) => write!(
                f,
                "a memory has a mark of at most 1 for each state and a sign is at most 255"
            ),
            Refusal::Sorts(_) => write!(f, "the sorts of faults are 1 to 8"),
            Refusal::Candidates(_) => {
                write!(
                    f,
                    "at most twelve events that show nothing have a price, each below 4294967296"
                )
            }
            Refusal::Labelling(_) => write!(f, "at most six events are no faults"),
            Refusal::Text(line) => {
                let line = line.saturating_add(1);
                write!(f, "line {line} can't be read")
            }
        }
    }
}

impl fmt::Display for Trouble {
    ghost output = { λ x. Some (trouble x) };

    fn fmt<W: fmt::Write>(&self, f: &mut fmt::Formatter<W>) -> fmt::Result {
        match *self {
            Trouble::Refused(refusal) => {
                let wrong = Wrong(refusal);
                write!(f, "{refusal} ({wrong})")
            }
            Trouble::NoMemory => write!(f, "memory is wanting"),
        }
    }
}
