// The call for curvatures, at reference coordinates.
ghost use Rattle.std.specs.Prelude.{◌≡◌};
ghost use Rattle.common.specs.Matrices.{matrix};
ghost use Rattle.common.specs.Numbers.{told_number};
ghost use Rattle.curvatures.specs.Curvatures.{lengths_of, lengths, leaves, curvature_call};

use crate::Lengths;
use crate::columns::fill_pairs;
use crate::limits::grid_of;
use axes::Grid;
use bends::fill_bent_axes;
use common::Refusal;

fn fill_curvatures(
    grid: Grid,
    node_polynomials: &[f64],
    coordinates: &[f64],
    curvatures: &mut [f64],
    factors: &mut [f64],
    slopes: &mut [f64],
    bends: &mut [f64],
    room: &mut [f64],
)
    requires { lengths node_polynomials.now coordinates.now (curvatures.old, factors.old, slopes.old, bends.old, room.old) ≡
        lengths_of grid.shape.dimension grid.shape.order grid.rows }
    ensures { (curvatures.new, factors.new, slopes.new, bends.new, room.new) ≡
        leaves grid.shape.dimension grid.shape.order grid.rows grid.side node_polynomials.now
        (matrix grid.rows coordinates.now) }
{
    fill_bent_axes(
        grid,
        coordinates,
        node_polynomials,
        room,
        factors,
        slopes,
        bends,
    );
    fill_pairs(grid, factors, slopes, bends, curvatures);
}

// How what each node of a cell counts for bends at each of the points, which are given by reference coordinates: one row a point; for each
// pair of axes g <= h, in lexicographic order, one column a node, the last axis fastest. The other buffers are room to work in. A point
// outside the cell is taken.
pub fn get_curvature_coefficients(
    dimension: usize,
    order: usize,
    rows: usize,
    side: f64,
    node_polynomials: &[f64],
    coordinates: &[f64],
    curvatures: &mut [f64],
    factors: &mut [f64],
    slopes: &mut [f64],
    bends: &mut [f64],
    room: &mut [f64],
) -> Result<(), Refusal>
    ensures { (told_number result, (curvatures.new, factors.new, slopes.new, bends.new, room.new)) ≡
        curvature_call dimension order rows side node_polynomials.now coordinates.now
        (curvatures.old, factors.old, slopes.old, bends.old, room.old) }
{
    let lent = Lengths {
        coordinates: coordinates.len(),
        polynomials: node_polynomials.len(),
        curvatures: curvatures.len(),
        factors: factors.len(),
        slopes: slopes.len(),
        bends: bends.len(),
        room: room.len(),
    };
    let grid = grid_of(dimension, order, rows, side, coordinates, lent)?;
    fill_curvatures(
        grid,
        node_polynomials,
        coordinates,
        curvatures,
        factors,
        slopes,
        bends,
        room,
    );
    Ok(())
}
