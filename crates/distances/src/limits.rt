// The refusals of the sampler.
ghost use Rattle.std.specs.Prelude.{◌≡◌, ◌^◌, ◌≤◌};
ghost use Rattle.common.specs.Numbers.{told_number};
ghost use Rattle.common.specs.Refusals.{most_entries};
ghost use Rattle.distances.specs.Distances.{lengths_fit, sample_number};

use crate::Lengths;
use common::{MOST_ENTRIES, Refusal, Shape, is_cell};
use vectors::reference_vector;

fn lengths_fit(shape: Shape, lent: Lengths) -> bool
    requires { shape.order ^ shape.dimension ≤ most_entries }
    ensures { result ≡ lengths_fit shape.dimension shape.order lent }
{
    let rows = shape.nodes();
    let points = shape.dimension * rows;
    lent == Lengths {
        nodes: shape.order,
        sources: points,
        targets: points,
        block: rows * rows,
    }
}

// The lowest refusal past the shape's.
pub(crate) fn check_sample(
    shape: Shape,
    side: f64,
    reference: usize,
    lent: Lengths,
) -> Result<(), Refusal>
    ensures { told_number result ≡ sample_number shape.dimension shape.order side reference lent }
{
    let rows = shape.nodes();
    if MOST_ENTRIES < rows {
        return Err(Refusal::NoCount);
    }
    reference_vector(shape.dimension, reference)?;
    if !lengths_fit(shape, lent) {
        return Err(Refusal::WrongLength);
    }
    if !is_cell(side) {
        return Err(Refusal::NoCell);
    }
    Ok(())
}
