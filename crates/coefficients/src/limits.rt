// The refusals of the coefficients' call.
ghost use Rattle.std.specs.Prelude.{◌≡◌, length, IfOk};
ghost use Rattle.common.specs.Numbers.{told_number};
ghost use Rattle.coefficients.specs.Coefficients.{lengths_fit, with_gradients, coefficients_number, coefficients_call};
ghost use Rattle.coefficients.specs.Working.{side_of, lengths_of};

use crate::Lengths;
use crate::wanted::{Wanted, side_of, takes_side, with_gradients};
use axes::Grid;
use common::{Refusal, size_if};
use coordinates::all_finite;

// How long the lent buffers must be.
fn lengths_of(grid: Grid, is_derived: bool) -> Lengths
    ensures { result ≡ lengths_of grid.shape.dimension grid.shape.order grid.rows is_derived }
{
    let dimension = grid.shape.dimension;
    let order = grid.shape.order;
    let rows = grid.rows;
    let nodes = grid.shape.nodes();
    let columns = dimension * order * rows;
    Lengths {
        coordinates: dimension * rows,
        polynomials: order * order,
        values: nodes * rows,
        gradients: size_if(is_derived, dimension * nodes * rows),
        factors: columns,
        slopes: size_if(is_derived, columns),
    }
}

// The grid of a call with buffers of these lengths that is not refused, or else the lowest refusal.
fn grid_with(
    dimension: usize,
    order: usize,
    rows: usize,
    wanted: Wanted,
    coordinates: &[f64],
    lent: Lengths,
) -> Result<Grid, Refusal>
    ensures number { told_number result ≡ coefficients_number dimension order rows wanted coordinates.now
        (lengths_fit dimension order rows (with_gradients wanted) lent) }
    ensures grid { IfOk result (λ g. (g.shape.dimension ≡ dimension) × (g.shape.order ≡ order) ×
        (g.side ≡ side_of wanted) × (g.rows ≡ rows)) }
{
    let grid = Grid::new(dimension, order, side_of(wanted), rows)?;
    let needed = lengths_of(grid, with_gradients(wanted));
    if lent != needed {
        return Err(Refusal::WrongLength);
    }
    if !takes_side(wanted) {
        return Err(Refusal::NoCell);
    }
    if !all_finite(coordinates) {
        return Err(Refusal::NotFinite);
    }
    Ok(grid)
}

// The grid of a call that is not refused, or else the lowest refusal.
pub(crate) fn grid_of(
    dimension: usize,
    order: usize,
    rows: usize,
    wanted: Wanted,
    node_polynomials: &[f64],
    coordinates: &[f64],
    values: &[f64],
    gradients: &[f64],
    factors: &[f64],
    slopes: &[f64],
) -> Result<Grid, Refusal>
    ensures number { told_number result ≡ (coefficients_call dimension order rows wanted node_polynomials.now coordinates.now
        (values.now, gradients.now, factors.now, slopes.now)).0 }
    ensures grid { IfOk result (λ g. (g.shape.dimension ≡ dimension) × (g.shape.order ≡ order) ×
        (g.side ≡ side_of wanted) × (g.rows ≡ rows)) }
{
    let lent = Lengths {
        coordinates: coordinates.len(),
        polynomials: node_polynomials.len(),
        values: values.len(),
        gradients: gradients.len(),
        factors: factors.len(),
        slopes: slopes.len(),
    };
    grid_with(dimension, order, rows, wanted, coordinates, lent)
}

// Whether the call for approximation coefficients would refuse, and why: it tests, and writes nothing.
pub fn coefficients_number(
    dimension: usize,
    order: usize,
    rows: usize,
    wanted: Wanted,
    node_polynomials: &[f64],
    coordinates: &[f64],
    values: &[f64],
    gradients: &[f64],
    factors: &[f64],
    slopes: &[f64],
) -> Result<(), Refusal>
    ensures { told_number result ≡ (coefficients_call dimension order rows wanted node_polynomials.now coordinates.now
        (values.now, gradients.now, factors.now, slopes.now)).0 }
{
    grid_of(
        dimension,
        order,
        rows,
        wanted,
        node_polynomials,
        coordinates,
        values,
        gradients,
        factors,
        slopes,
    )?;
    Ok(())
}
