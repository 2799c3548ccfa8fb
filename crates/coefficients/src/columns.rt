// The columns of the gradients: products that start with a slope, axis after axis.
ghost use Rattle.std.specs.Prelude.{◌≡◌, cond, ◌*◌, ◌^◌, length};
ghost use Rattle.common.specs.Matrices.{column_major};
ghost use Rattle.common.specs.Refusals.{size_if};
ghost use Rattle.coefficients.specs.Working.{gradient_of};

use axes::Grid;
use products::fill_started;

// The gradient's columns, axis after axis.
fn fill_axes_columns(grid: Grid, slopes: &[f64], factors: &[f64], gradients: &mut [f64])
    requires { (length slopes.now ≡ grid.shape.dimension * grid.shape.order * grid.rows) ×
        (length factors.now ≡ grid.shape.dimension * grid.shape.order * grid.rows) ×
        (length gradients.old ≡ grid.shape.dimension * grid.shape.order ^ grid.shape.dimension * grid.rows) }
    ensures { gradients.new ≡ column_major grid.rows (grid.shape.dimension * grid.shape.order ^ grid.shape.dimension)
        (gradient_of grid.shape.dimension grid.shape.order grid.rows slopes.now factors.now) }
{
    let count = grid.shape.nodes() * grid.rows;
    let mut at = 0;
    for axis in 0..grid.shape.dimension {
        let end = at + count;
        fill_started(grid, axis, slopes, factors, &mut gradients[at..end]);
        at = end;
    }
}

// The gradient's columns, if they are wanted.
pub(crate) fn fill_gradients(
    grid: Grid,
    with_gradients: bool,
    slopes: &[f64],
    factors: &[f64],
    gradients: &mut [f64],
)
    requires { (length slopes.now ≡ size_if with_gradients (grid.shape.dimension * grid.shape.order * grid.rows)) ×
        (length factors.now ≡ grid.shape.dimension * grid.shape.order * grid.rows) ×
        (length gradients.old ≡ size_if with_gradients (grid.shape.dimension * grid.shape.order ^ grid.shape.dimension * grid.rows)) }
    ensures { gradients.new ≡ cond with_gradients
        (column_major grid.rows (grid.shape.dimension * grid.shape.order ^ grid.shape.dimension)
        (gradient_of grid.shape.dimension grid.shape.order grid.rows slopes.now factors.now))
        gradients.old }
{
    if with_gradients {
        fill_axes_columns(grid, slopes, factors, gradients);
    }
}
