// Target and source points.
ghost use Rattle.std.specs.Prelude.{◌≡◌};
ghost use Rattle.points.specs.Points.{target_call, source_call};

use common::told_number;
use points::{generate_chebyshev_source_points, generate_chebyshev_target_points};

// Where the nodes of a block with this side lie, about the origin.
#[unsafe(no_mangle)]
pub extern "C" fn bbfmm_generate_chebyshev_target_points(
    dimension: usize,
    order: usize,
    side: f64,
    nodes: &[f64],
    points: &mut [f64],
) -> u8
    ensures { (result, points.new) ≡ target_call dimension order side nodes.now points.old }
{
    told_number(generate_chebyshev_target_points(dimension, order, side, nodes, points))
}

// The same for the block at the reference vector with this number.
#[unsafe(no_mangle)]
pub extern "C" fn bbfmm_generate_chebyshev_source_points(
    dimension: usize,
    order: usize,
    side: f64,
    reference: usize,
    nodes: &[f64],
    points: &mut [f64],
) -> u8
    ensures { (result, points.new) ≡ source_call dimension order side reference nodes.now points.old }
{
    told_number(generate_chebyshev_source_points(dimension, order, side, reference, nodes, points))
}
