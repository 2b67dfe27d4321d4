// Verdicts as sentences.
ghost use Rattle.std.specs.Prelude.{◌≡◌, map, Some, string_bytes};
ghost use Rattle.wording.specs.Sentences.{sentence};

use crate::rows::Row;
use diagnosability::Verdict;
use std::fmt;

// A verdict, the room where its rows stand, and the names of all events.
#[derive(Clone, Copy)]
pub struct Sentence<'a> {
    pub names: &'a [String],
    pub verdict: Verdict,
    pub room: &'a [u16],
}

impl<'a> Sentence<'a> {
    // A row by the names of its events.
    fn row(&self, events: &'a [u16]) -> Row<'a>
        ensures { (result.names.now ≡ self.now.names.now) × (result.events.now ≡ events.now) }
    {
        Row {
            names: self.names,
            events,
        }
    }
}

impl fmt::Display for Sentence<'_> {
    ghost output = { λ x. Some (sentence (map string_bytes x.names.now) x.verdict x.room.now) };

    fn fmt<W: fmt::Write>(&self, f: &mut fmt::Formatter<W>) -> fmt::Result {
        match self.verdict {
            Verdict::Out(events) => write!(f, "every fault comes out in {events} events"),
            Verdict::Hidden(lengths) => {
                let rows = lengths.rows(self.room);
                let bad = self.row(rows.bad);
                let good = self.row(rows.good);
                let bad_round = self.row(rows.bad_round);
                let good_round = self.row(rows.good_round);
                write!(
                    f,
                    "hidden:{bad}; and{good}; round:{bad_round}; and{good_round}"
                )
            }
        }
    }
}
