// What is wanted of the nodes of a cell.
ghost use Rattle.std.specs.Prelude.{◌≡◌};
ghost use Rattle.coefficients.specs.Coefficients.{with_gradients, takes_side};
ghost use Rattle.coefficients.specs.Working.{side_of};

// Values, or values and gradients. A gradient is along the axes of the cell and not of its reference coordinates, so it needs the
// cell's side.
#[derive(Clone, Copy)]
pub enum Wanted {
    Values,
    Gradients { side: f64 },
}

pub(crate) fn with_gradients(wanted: Wanted) -> bool
    ensures { result ≡ with_gradients wanted }
{
    match wanted {
        Wanted::Values => false,
        Wanted::Gradients { side: _ } => true,
    }
}

// A side is tested only where there is one.
pub(crate) fn takes_side(wanted: Wanted) -> bool
    ensures { result ≡ takes_side wanted }
{
    match wanted {
        Wanted::Values => true,
        Wanted::Gradients { side } => common::is_cell(side),
    }
}

// The side; without gradients it is not read.
pub(crate) fn side_of(wanted: Wanted) -> f64
    ensures { result ≡ side_of wanted }
{
    match wanted {
        Wanted::Values => 1.0,
        Wanted::Gradients { side } => side,
    }
}
