// The call that scales points: physical coordinates become reference coordinates, in place.
ghost use Rattle.std.specs.Prelude.{◌≡◌};
ghost use Rattle.common.specs.Numbers.{told_number};
ghost use Rattle.coordinates.specs.Scaling.{scaling_number, scale_call};

use crate::{check_points, scale_axes};
use common::{Refusal, Shape};

// Whether the call for scaling would refuse, and why: it tests, and writes nothing.
pub fn scaling_number(
    dimension: usize,
    rows: usize,
    side: f64,
    centre: &[f64],
    points: &[f64],
) -> Result<(), Refusal>
    ensures { told_number result ≡ scaling_number dimension rows side centre.now points.now }
{
    // An order of 1 is always taken, so that the dimension alone decides.
    Shape::new(dimension, 1)?;
    if common::MOST_POINTS < rows {
        return Err(Refusal::NoCount);
    }
    let size = dimension * rows;
    if centre.len() != dimension || points.len() != size {
        return Err(Refusal::WrongLength);
    }
    check_points(dimension, rows, side, centre, points)
}

// Points in a cell with this side and centre become reference coordinates: a row a point, a column an axis. No point is scaled
// before all are known to pass.
pub fn scale_points(
    dimension: usize,
    rows: usize,
    side: f64,
    centre: &[f64],
    points: &mut [f64],
) -> Result<(), Refusal>
    ensures { (told_number result, points.new) ≡ scale_call dimension rows side centre.now points.old }
{
    scaling_number(dimension, rows, side, centre, points)?;
    scale_axes(dimension, rows, side, centre, points);
    Ok(())
}
