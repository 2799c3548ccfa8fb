// Graham's ratio at points in a cell, or a word why there is none: over the public calls of `coefficients` alone.
#![tactic(auto)]

mod limits;

ghost use Rattle.std.specs.Prelude.{◌≡◌, false, []};
ghost use Rattle.common.specs.Numbers.{told_number};
ghost use Rattle.coefficients.specs.Before.{coefficients_call};
ghost use Rattle.ratios.specs.Ratios.{ratios_call};

use crate::limits::shape_of;
use coefficients::{Cell, Wanted, get_approximation_coefficients, scale_points};
use common::Refusal;
use fields::fill_answers;

// The points scaled, and the value coefficients there. That both calls accept is known beforehand.
fn fill_values(
    cell: Cell,
    centre: &[f64],
    node_polynomials: &[f64],
    points: &mut [f64],
    values: &mut [f64],
    factors: &mut [f64],
)
    requires { (coefficients_call cell.dimension cell.order cell.rows cell.side false centre.now
        node_polynomials.now (points.old, values.old, [], factors.old, [])).0 ≡ 0 }
    ensures { (0, (points.new, values.new, [], factors.new, [])) ≡
        coefficients_call cell.dimension cell.order cell.rows cell.side false centre.now
        node_polynomials.now (points.old, values.old, [], factors.old, []) }
{
    scale_points(cell.dimension, cell.rows, cell.side, centre, points).unwrap();
    let mut no_gradients = [0.0; 0];
    let mut no_slopes = [0.0; 0];
    get_approximation_coefficients(
        cell.dimension,
        cell.order,
        cell.rows,
        Wanted::Values,
        node_polynomials,
        points,
        values,
        &mut no_gradients,
        factors,
        &mut no_slopes,
    )
    .unwrap();
}

// The ratio 100 * CO / (0.265 * N2 - O2) at each of the points, where the deficiency below it is at least the floor: an answer a
// point, and a ratio where the answer is 0. The gases are given by what each node of the cell counts for. The points become
// reference coordinates in place; values and factors are room to work in.
pub fn graham_ratios(
    cell: Cell,
    floor: f64,
    centre: &[f64],
    node_polynomials: &[f64],
    points: &mut [f64],
    carbon_monoxide: &[f64],
    nitrogen: &[f64],
    oxygen: &[f64],
    values: &mut [f64],
    factors: &mut [f64],
    answers: &mut [u8],
    ratios: &mut [f64],
) -> Result<(), Refusal>
    ensures { (told_number result, (points.new, values.new, factors.new, answers.new, ratios.new)) ≡
        ratios_call cell.dimension cell.order cell.rows cell.side floor centre.now
        node_polynomials.now carbon_monoxide.now nitrogen.now oxygen.now
        (points.old, values.old, factors.old, answers.old, ratios.old) }
{
    let shape = shape_of(
        cell,
        floor,
        centre,
        node_polynomials,
        points,
        carbon_monoxide,
        nitrogen,
        oxygen,
        values,
        factors,
        answers,
        ratios,
    )?;
    fill_values(cell, centre, node_polynomials, points, values, factors);
    fill_answers(
        shape.nodes(),
        cell.rows,
        floor,
        values,
        carbon_monoxide,
        nitrogen,
        oxygen,
        answers,
        ratios,
    );
    Ok(())
}
