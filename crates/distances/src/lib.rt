// A distance kernel: a block of samples that needs no other program. Rows are the source points of a block at a reference vector,
// columns the target points.
#![tactic(auto)]

mod blocks;
mod limits;

ghost use Rattle.std.specs.Prelude.{◌≡◌};
ghost use Rattle.common.specs.Numbers.{told_number};
ghost use Rattle.distances.specs.Distances.{sample_call};

use crate::blocks::fill_block;
use crate::limits::check_sample;
use common::{Refusal, Shape};
use points::{generate_chebyshev_source_points, generate_chebyshev_target_points};

// The lengths of the lent buffers.
#[derive(Clone, Copy, PartialEq, Eq)]
pub struct Lengths {
    pub nodes: usize,
    pub sources: usize,
    pub targets: usize,
    pub block: usize,
}

// The nodes of both blocks as points, and the distance from each source to each target.
pub fn sample_distances(
    dimension: usize,
    order: usize,
    side: f64,
    reference: usize,
    nodes: &[f64],
    sources: &mut [f64],
    targets: &mut [f64],
    block: &mut [f64],
) -> Result<(), Refusal>
    ensures { (told_number result, (sources.new, targets.new, block.new)) ≡
        sample_call dimension order side reference nodes.now
        (sources.old, targets.old, block.old) }
{
    let shape = Shape::new(dimension, order)?;
    let lent = Lengths {
        nodes: nodes.len(),
        sources: sources.len(),
        targets: targets.len(),
        block: block.len(),
    };
    check_sample(shape, side, reference, lent)?;
    generate_chebyshev_source_points(dimension, order, side, reference, nodes, sources)?;
    generate_chebyshev_target_points(dimension, order, side, nodes, targets)?;
    fill_block(dimension, shape.nodes(), sources, targets, block);
    Ok(())
}
