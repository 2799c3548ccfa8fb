// Coordinates: a physical one says where a point lies, a reference one where it lies in its cell, from -1 to 1.
#![tactic(auto)]

mod scaling;

ghost use Rattle.std.specs.Prelude.{◌≡◌, ◌+◌, ◌*◌, ◌≤◌, length, get_or};
ghost use Rattle.std.specs.Float.{nan};
ghost use Rattle.common.specs.Lists.{stretch};
ghost use Rattle.common.specs.Matrices.{column_major};
ghost use Rattle.common.specs.Numbers.{told_number};
ghost use Rattle.common.specs.Tests.{each};
ghost use Rattle.coordinates.specs.Coordinates.{coordinate_in, all_finite, coordinate, in_cell, all_in_cell, points_number};

use common::Refusal;
pub use scaling::{scale_points, scaling_number};

// Where a point lies.
#[derive(Drop)]
struct Physical(f64);

// Where it lies in its cell.
#[derive(Drop)]
struct Reference(f64);

// The largest size of a reference coordinate in the cell, 1 + 2^-20: a point on the cell's face may scale to a little more than 1.
const BORDER: f64 = 1.00000095367431640625;

pub fn all_finite(list: &[f64]) -> bool
    ensures { result ≡ all_finite list.now }
{
    list.iter().all(|x| common::is_finite(*x))
}

// The one step from physical to reference coordinates.
fn scale(point: Physical, centre: Physical, side: f64) -> Reference
    ensures { result.0 ≡ coordinate_in side centre.0 point.0 }
{
    Reference((point.0 - centre.0) / (side * 0.5))
}

// At most that in size, on either side. Both tests are made, so that a turn of the loop over the points has no branch.
fn is_in_cell(x: Reference) -> bool
    ensures { result ≡ in_cell x.0 }
{
    (-BORDER <= x.0) & (x.0 <= BORDER)
}

// Whether all points are in the cell on one axis, whose coordinates stand from place `at` on. It goes on after a point outside, so
// that several points are tested at once.
fn axis_in_cell(rows: usize, side: f64, centre: f64, at: usize, points: &[f64]) -> bool
    requires { at + rows ≤ length points.now }
    ensures { result ≡ each rows (λ i. in_cell (coordinate_in side centre (get_or points.now (at + i) nan))) }
{
    let mut are_in = true;
    for i in 0..rows {
        let x = scale(Physical(points[at + i]), Physical(centre), side);
        are_in = are_in & is_in_cell(x);
    }
    are_in
}

// Whether all points are, on all axes.
fn all_in_cell(dimension: usize, rows: usize, side: f64, centre: &[f64], points: &[f64]) -> bool
    requires { (dimension ≤ 3) × (length centre.now ≡ dimension) × (length points.now ≡ dimension * rows) }
    ensures { result ≡ all_in_cell dimension rows (coordinate rows side centre.now points.now) }
{
    for axis in 0..dimension {
        if !axis_in_cell(rows, side, centre[axis], axis * rows, points) {
            return false;
        }
    }
    true
}

// The lowest refusal that a cell, its centre and the points bring.
pub(crate) fn check_points(
    dimension: usize,
    rows: usize,
    side: f64,
    centre: &[f64],
    points: &[f64],
) -> Result<(), Refusal>
    requires { (dimension ≤ 3) × (length centre.now ≡ dimension) × (length points.now ≡ dimension * rows) }
    ensures { told_number result ≡ points_number dimension rows side centre.now points.now }
{
    if !common::is_cell(side) {
        return Err(Refusal::NoCell);
    }
    if !all_finite(points) || !all_finite(centre) {
        return Err(Refusal::NotFinite);
    }
    if !all_in_cell(dimension, rows, side, centre, points) {
        return Err(Refusal::OutOfCell);
    }
    Ok(())
}

// The points' coordinates on one axis, from place `at` on.
fn scale_axis(rows: usize, side: f64, centre: f64, at: usize, points: &mut [f64])
    requires { at + rows ≤ length points.old }
    ensures { points.new ≡
        stretch at rows (λ i. coordinate_in side centre (get_or points.old (at + i) nan)) points.old }
{
    for i in 0..rows {
        let scaled = scale(Physical(points[at + i]), Physical(centre), side);
        points[at + i] = scaled.0;
    }
}

// All points, in place.
pub(crate) fn scale_axes(
    dimension: usize,
    rows: usize,
    side: f64,
    centre: &[f64],
    points: &mut [f64],
)
    requires { (dimension ≤ 3) × (length centre.now ≡ dimension) × (length points.old ≡ dimension * rows) }
    ensures { points.new ≡
        column_major rows dimension (coordinate rows side centre.now points.old) }
{
    for axis in 0..dimension {
        scale_axis(rows, side, centre[axis], axis * rows, points);
    }
}
