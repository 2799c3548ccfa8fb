// The square root, and blocks of distances.
ghost use Rattle.std.specs.Prelude.{◌≡◌};
ghost use Rattle.roots.specs.Values.{SquareRoot};
ghost use Rattle.distances.specs.Distances.{sample_call};

use common::told_number;
use distances::sample_distances;
use roots::square_root;

// The square root of any float, correctly rounded.
#[unsafe(no_mangle)]
pub extern "C" fn bbfmm_square_root(x: f64) -> f64
    ensures { SquareRoot x result }
{
    square_root(x)
}

// The points of a source block and of the target block, and the distances between them.
#[unsafe(no_mangle)]
pub extern "C" fn bbfmm_sample_distances(
    dimension: usize,
    order: usize,
    side: f64,
    reference: usize,
    nodes: &[f64],
    sources: &mut [f64],
    targets: &mut [f64],
    block: &mut [f64],
) -> u8
    ensures { (result, (sources.new, targets.new, block.new)) ≡
        sample_call dimension order side reference nodes.now
        (sources.old, targets.old, block.old) }
{
    told_number(sample_distances(
        dimension, order, side, reference, nodes, sources, targets, block,
    ))
}
