// The arrows of a plant with the tint of each.
ghost use Rattle.std.specs.Prelude.{◌≡◌, map, IfOk};
ghost use Rattle.picture.specs.Pictures.{arrow_of};

use crate::edges::{Edge, Tint};
use crate::runs::{Lasso, mark};
use drawing::Arrow;
use std::alloc::{AllocError, Global};

// Every arrow in its order, tinted by the run with a fault and the run without.
pub fn tinted(
    heap: Global,
    arrows: &[Arrow],
    first: Lasso,
    second: Lasso,
) -> Result<Vec<Edge>, AllocError>
    ensures { IfOk result (λ v. map arrow_of v.items ≡ arrows.now) }
{
    let mut edges = plain(heap, arrows)?;
    mark(heap, edges.as_mut_slice(), first, Tint::First)?;
    mark(heap, edges.as_mut_slice(), second, Tint::Second)?;
    Ok(edges)
}

// Every arrow in its order, with no run to be shown.
pub fn plain(heap: Global, arrows: &[Arrow]) -> Result<Vec<Edge>, AllocError>
    ensures { IfOk result (λ v. map arrow_of v.items ≡ arrows.now) }
{
    arrows
        .iter()
        .map(|arrow| Edge {
            arrow: *arrow,
            tint: Tint::Plain,
        })
        .collect(heap)
}
