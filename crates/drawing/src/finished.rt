// What a whole text draws.
ghost use Rattle.std.specs.Prelude.{◌≡◌, ◌+◌, ◌≤◌, length};
ghost use Rattle.drawing.specs.Drafted.{drafted, kept};
ghost use Rattle.drawing.specs.Fine.{Spelled, Apart, ShortSigns, GoBy};

use crate::draft::Draft;

// It can be had only by reading, so that it can be written as a text again.
#[derive(Drop)]
pub struct Drawing {
    pub(crate) draft: Draft,
    ghost spelled: { Spelled (drafted draft).labels },
    ghost apart: { Apart (drafted draft).labels },
    ghost few: { length (drafted draft).labels ≤ kept + 1 },
    ghost signs: { ShortSigns (drafted draft).kinds },
    ghost ways: { GoBy (length (drafted draft).labels) (drafted draft).ways },
}
