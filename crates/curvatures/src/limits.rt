// The refusals of the call for curvatures.
ghost use Rattle.std.specs.Prelude.{◌≡◌, IfOk};
ghost use Rattle.common.specs.Numbers.{told_number};
ghost use Rattle.curvatures.specs.Curvatures.{lengths_of, curvature_number};

use crate::Lengths;
use crate::pairs::pair_count;
use axes::Grid;
use common::Refusal;
use coordinates::all_finite;

// How long the lent buffers must be.
fn lengths_of(grid: Grid) -> Lengths
    ensures { result ≡ lengths_of grid.shape.dimension grid.shape.order grid.rows }
{
    let dimension = grid.shape.dimension;
    let order = grid.shape.order;
    let rows = grid.rows;
    let nodes = grid.shape.nodes();
    let pairs = pair_count(dimension);
    let columns = dimension * order * rows;
    Lengths {
        coordinates: dimension * rows,
        polynomials: order * order,
        curvatures: pairs * nodes * rows,
        factors: columns,
        slopes: columns,
        bends: columns,
        room: 3 * order * rows,
    }
}

// The grid of a call that is not refused, or else the lowest refusal.
pub(crate) fn grid_of(
    dimension: usize,
    order: usize,
    rows: usize,
    side: f64,
    coordinates: &[f64],
    lent: Lengths,
) -> Result<Grid, Refusal>
    ensures number { told_number result ≡ curvature_number dimension order rows side coordinates.now lent }
    ensures grid { IfOk result
        (λ g. (g.shape.dimension ≡ dimension) × (g.shape.order ≡ order) × (g.side ≡ side) × (g.rows ≡ rows)) }
{
    let grid = Grid::new(dimension, order, side, rows)?;
    let wanted = lengths_of(grid);
    if lent != wanted {
        return Err(Refusal::WrongLength);
    }
    if !common::is_cell(side) {
        return Err(Refusal::NoCell);
    }
    if !all_finite(coordinates) {
        return Err(Refusal::NotFinite);
    }
    Ok(grid)
}
