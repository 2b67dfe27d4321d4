// What is said after signs.
ghost use Rattle.std.specs.Prelude.{◌≡◌, Some};
ghost use Rattle.observer.specs.Words.{spoken, word_of};

use std::fmt;

// Bad: some run shows the signs, and all that do have a fault. Good: some does, and none that does has one.
// Either: some that does has one and some has none. Neither: no run shows them.
#[derive(Clone, Copy, PartialEq, Eq)]
pub enum Word {
    Bad,
    Good,
    Either,
    Neither,
}

impl fmt::Display for Word {
    ghost output = { λ w. Some (spoken w) };

    fn fmt<W: fmt::Write>(&self, f: &mut fmt::Formatter<W>) -> fmt::Result {
        match *self {
            Word::Bad => write!(f, "bad"),
            Word::Good => write!(f, "good"),
            Word::Either => write!(f, "either"),
            Word::Neither => write!(f, "neither"),
        }
    }
}

// The word for whether some run without a fault, and whether some run with one, may have happened.
pub fn word_for(good_too: bool, bad_too: bool) -> Word
    ensures { result ≡ word_of good_too bad_too }
{
    match (good_too, bad_too) {
        (true, true) => Word::Either,
        (true, false) => Word::Good,
        (false, true) => Word::Bad,
        (false, false) => Word::Neither,
    }
}
