// Curvatures at reference coordinates.
ghost use Rattle.std.specs.Prelude.{◌≡◌};
ghost use Rattle.curvatures.specs.Curvatures.{curvature_call};

use coefficients::get_curvature_coefficients;
use common::told_number;

// How what each node of a cell counts for bends at each point, for every pair of axes.
#[unsafe(no_mangle)]
pub extern "C" fn bbfmm_get_curvature_coefficients(
    dimension: usize,
    order: usize,
    rows: usize,
    side: f64,
    node_polynomials: &[f64],
    coordinates: &[f64],
    curvatures: &mut [f64],
    factors: &mut [f64],
    slopes: &mut [f64],
    bends: &mut [f64],
    room: &mut [f64],
) -> u8
    ensures { (result, (curvatures.new, factors.new, slopes.new, bends.new, room.new)) ≡
        curvature_call dimension order rows side node_polynomials.now coordinates.now
        (curvatures.old, factors.old, slopes.old, bends.old, room.old) }
{
    told_number(get_curvature_coefficients(
        dimension,
        order,
        rows,
        side,
        node_polynomials,
        coordinates,
        curvatures,
        factors,
        slopes,
        bends,
        room,
    ))
}
