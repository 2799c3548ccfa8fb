// The call for approximation coefficients, at reference coordinates.
ghost use Rattle.std.specs.Prelude.{◌≡◌};
ghost use Rattle.common.specs.Matrices.{matrix};
ghost use Rattle.common.specs.Numbers.{told_number};
ghost use Rattle.coefficients.specs.Coefficients.{lengths, coefficients_call};
ghost use Rattle.coefficients.specs.Working.{Admitted, filled};

use crate::columns::fill_gradients;
use crate::limits::grid_of;
use crate::wanted::{Wanted, with_gradients};
use axes::{Grid, fill_axes};
use common::Refusal;
use products::fill_started;

fn fill_coefficients(
    grid: Grid,
    is_derived: bool,
    node_polynomials: &[f64],
    coordinates: &[f64],
    values: &mut [f64],
    gradients: &mut [f64],
    factors: &mut [f64],
    slopes: &mut [f64],
)
    requires { Admitted grid.shape.dimension grid.shape.order grid.rows is_derived
        (lengths node_polynomials.now coordinates.now (values.old, gradients.old, factors.old, slopes.old)) }
    ensures { (values.new, gradients.new, factors.new, slopes.new) ≡
        filled grid.shape.dimension grid.shape.order grid.rows grid.side is_derived node_polynomials.now
        (matrix grid.rows coordinates.now) }
{
    fill_axes(
        grid,
        is_derived,
        coordinates,
        node_polynomials,
        values,
        gradients,
        factors,
        slopes,
    );
    fill_gradients(grid, is_derived, slopes, factors, gradients);
    fill_started(grid, 0, factors, factors, values);
}

// What each node of a cell counts for at each of the points, which are given by reference coordinates: one row a point, one column a
// node, the last axis fastest; and, if wanted, the slopes of that along each axis, axis after axis. The last two buffers are room to
// work in. A point outside the cell is taken.
pub fn get_approximation_coefficients(
    dimension: usize,
    order: usize,
    rows: usize,
    wanted: Wanted,
    node_polynomials: &[f64],
    coordinates: &[f64],
    values: &mut [f64],
    gradients: &mut [f64],
    factors: &mut [f64],
    slopes: &mut [f64],
) -> Result<(), Refusal>
    ensures { (told_number result, (values.new, gradients.new, factors.new, slopes.new)) ≡
        coefficients_call dimension order rows wanted node_polynomials.now coordinates.now
        (values.old, gradients.old, factors.old, slopes.old) }
{
    let grid = grid_of(
        dimension,
        order,
        rows,
        wanted,
        node_polynomials,
        coordinates,
        values,
        gradients,
        factors,
        slopes,
    )?;
    fill_coefficients(
        grid,
        with_gradients(wanted),
        node_polynomials,
        coordinates,
        values,
        gradients,
        factors,
        slopes,
    );
    Ok(())
}
