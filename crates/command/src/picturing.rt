// From a text to a picture of its plant.
ghost use Rattle.std.specs.Prelude.{◌≡◌, map, IfOk};
ghost use Rattle.drawing.specs.Drawn.{drawn};
ghost use Rattle.picture.specs.Pictures.{arrow_of};
ghost use Rattle.sorts.specs.declared.kinds.Faults.TheVariants.{Any};
ghost use Rattle.command.specs.Sizes.{PictureOf};
ghost use Rattle.command.specs.Texts.{Answers, drawn_refusal};

use crate::judging::Judgement;
use crate::opening::open;
use crate::valid::Opened;
use diagnosability::Verdict;
use picture::{Edge, Lasso, Picture, plain, tinted};
use sorts::Faults;
use std::alloc::{AllocError, Global};
use wording::Trouble;

// The arrows; where a fault hides, with the runs that hide it.
fn edges(heap: Global, opened: &Opened, judgement: &Judgement) -> Result<Vec<Edge>, AllocError>
    ensures { IfOk result (λ v. map arrow_of v.items ≡ (drawn opened.now.drawing).ways) }
{
    let arrows = opened.drawing.arrows();
    match judgement.verdict {
        Verdict::Out(_) => plain(heap, arrows),
        Verdict::Hidden(lengths) => {
            let rows = lengths.rows(judgement.room.as_slice());
            let bad = Lasso {
                run: rows.bad,
                round: rows.bad_round,
            };
            let good = Lasso {
                run: rows.good,
                round: rows.good_round,
            };
            tinted(heap, arrows, bad, good)
        }
    }
}

// The plant that a text draws as a text for Graphviz, under the sentence of its verdict.
pub fn draw(heap: Global, text: &[u8]) -> Result<String, Trouble>
    ensures { Answers (drawn_refusal Any) PictureOf text.now result }
{
    let opened = open(heap, text, Faults::Any)?;
    let judgement = opened.judge(heap)?;
    let sentence = judgement.sentence(opened.drawing.names());
    let title = format!(in heap; "{sentence}")?;
    let edges = edges(heap, &opened, &judgement)?;
    let picture = Picture {
        names: opened.drawing.names(),
        events: opened.drawing.events(),
        edges: edges.as_slice(),
        title: title.as_str(),
    };
    Ok(format!(in heap; "{picture}")?)
}
