// A cell whose numbers were tested: where they come in, and once.
ghost use Rattle.std.specs.Prelude.{◌≡◌, ◌≤◌};
ghost use Rattle.common.specs.Refusals.{most_points};

use common::{MOST_POINTS, Refusal, Shape};

// The shape of a cell's nodes, its side, and how many points lie in it: no more than a call takes.
#[derive(Clone, Copy)]
pub struct Grid {
    pub shape: Shape,
    pub side: f64,
    pub rows: usize,
    ghost few: { rows ≤ most_points },
}

impl Grid {
    ghost use Rattle.std.specs.Prelude.{◌*◌, IfOk};
    ghost use Rattle.common.specs.Numbers.{told_number};
    ghost use Rattle.axes.specs.Axes.{grid_number};

    // The side is taken as it is: who reads it has tested it.
    pub fn new(dimension: usize, order: usize, side: f64, rows: usize) -> Result<Self, Refusal>
        ensures number { told_number result ≡ grid_number dimension order rows }
        ensures grid { IfOk result
            (λ g. (g.shape.dimension ≡ dimension) × (g.shape.order ≡ order) × (g.side ≡ side) × (g.rows ≡ rows)) }
    {
        let shape = Shape::new(dimension, order)?;
        if MOST_POINTS < rows {
            return Err(Refusal::NoCount);
        }
        Ok(Grid { shape, side, rows })
    }

    // How many entries the columns of one axis have: a column a node.
    pub fn on_axis(self) -> usize
        ensures { result ≡ self.shape.order * self.rows }
    {
        self.shape.order * self.rows
    }
}
