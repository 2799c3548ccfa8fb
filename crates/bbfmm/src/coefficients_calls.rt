// Points in a cell, scaled; and approximation coefficients at reference coordinates.
ghost use Rattle.std.specs.Prelude.{◌≡◌};
ghost use Rattle.coordinates.specs.Scaling.{scale_call};
ghost use Rattle.coefficients.specs.Coefficients.{coefficients_call};
ghost use Rattle.coefficients.specs.Pair.{wanted_of};

use coefficients::{Wanted, get_approximation_coefficients, scale_points};
use common::told_number;

// Points become reference coordinates in place.
#[unsafe(no_mangle)]
pub extern "C" fn bbfmm_scale_points(
    dimension: usize,
    rows: usize,
    side: f64,
    centre: &[f64],
    points: &mut [f64],
) -> u8
    ensures { (result, points.new) ≡ scale_call dimension rows side centre.now points.old }
{
    told_number(scale_points(dimension, rows, side, centre, points))
}

// Without gradients the side is not looked at.
fn wanted_of(with_gradients: bool, side: f64) -> Wanted
    ensures { result ≡ wanted_of with_gradients side }
{
    if with_gradients {
        return Wanted::Gradients { side };
    }
    Wanted::Values
}

// What each node of a cell counts for at each point, and, if wanted, how that changes along each axis.
#[unsafe(no_mangle)]
pub extern "C" fn bbfmm_get_approximation_coefficients(
    dimension: usize,
    order: usize,
    rows: usize,
    with_gradients: bool,
    side: f64,
    node_polynomials: &[f64],
    coordinates: &[f64],
    values: &mut [f64],
    gradients: &mut [f64],
    factors: &mut [f64],
    slopes: &mut [f64],
) -> u8
    ensures { (result, (values.new, gradients.new, factors.new, slopes.new)) ≡
        coefficients_call dimension order rows (wanted_of with_gradients side) node_polynomials.now
        coordinates.now
        (values.old, gradients.old, factors.old, slopes.old) }
{
    told_number(get_approximation_coefficients(
        dimension,
        order,
        rows,
        wanted_of(with_gradients, side),
        node_polynomials,
        coordinates,
        values,
        gradients,
        factors,
        slopes,
    ))
}
