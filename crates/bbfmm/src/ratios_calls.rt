// Ratio maps; a cell is its four numbers.
ghost use Rattle.std.specs.Prelude.{◌≡◌};
ghost use Rattle.ratios.specs.Ratios.{ratios_call};

use coefficients::Cell;
use common::told_number;
use ratios::graham_ratios;

// Graham's ratio at each point, or a word why there is none.
#[unsafe(no_mangle)]
pub extern "C" fn bbfmm_graham_ratios(
    dimension: usize,
    order: usize,
    side: f64,
    rows: usize,
    floor: f64,
    centre: &[f64],
    node_polynomials: &[f64],
    points: &mut [f64],
    carbon_monoxide: &[f64],
    nitrogen: &[f64],
    oxygen: &[f64],
    values: &mut [f64],
    factors: &mut [f64],
    answers: &mut [u8],
    ratios: &mut [f64],
) -> u8
    ensures { (result, (points.new, values.new, factors.new, answers.new, ratios.new)) ≡
        ratios_call dimension order rows side floor centre.now node_polynomials.now
        carbon_monoxide.now nitrogen.now oxygen.now
        (points.old, values.old, factors.old, answers.old, ratios.old) }
{
    let cell = Cell {
        dimension,
        order,
        side,
        rows,
    };
    told_number(graham_ratios(
        cell,
        floor,
        centre,
        node_polynomials,
        points,
        carbon_monoxide,
        nitrogen,
        oxygen,
        values,
        factors,
        answers,
        ratios,
    ))
}
