// A text, read line by line.
ghost use Rattle.std.specs.Prelude.{◌≡◌};
ghost use Rattle.drawing.specs.declared.reads.ReadError.TheVariants.{Memory};
ghost use Rattle.drawing.specs.Reads.{Right};

use crate::draft::Draft;
use crate::finished::Drawing;
use std::alloc::{AllocError, Global};

// Why a text is not read: the number of the first line that can't be, counted from 0; or memory was wanting.
#[derive(Clone, Copy, PartialEq, Eq, Debug)]
pub enum ReadError {
    Line(u64),
    Memory,
}

impl From<AllocError> for ReadError {
    ghost from_gives = { λ _ r. r ≡ Memory };

    fn from(_e: AllocError) -> ReadError {
        ReadError::Memory
    }
}

// What a text draws, or the first line that can't be read.
pub fn read(heap: Global, text: &[u8]) -> Result<Drawing, ReadError>
    ensures { Right text.now result }
{
    let mut draft = Draft::new(heap);
    for (number, line) in text.split(|b| *b == b'\n').enumerate() {
        draft.add(line, number as u64)?;
    }
    Ok(Drawing { draft })
}
