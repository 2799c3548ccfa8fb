// The refusals of the ratios' call: what the call below refuses with, the lengths of our own buffers, and the floor.
ghost use Rattle.std.specs.Prelude.{◌≡◌, false, [], ◌^◌, IfOk};
ghost use Rattle.common.specs.Numbers.{told_number};
ghost use Rattle.coefficients.specs.Before.{coefficients_call};
ghost use Rattle.ratios.specs.Ratios.{lengths_number, floor_number, ratios_number};

use coefficients::{Cell, Wanted, coefficients_number, scaling_number};
use common::{Refusal, Shape, lower_of};

// The refusal that the lengths of those buffers bring which the call below does not take.
fn check_lengths(
    shape: Shape,
    rows: usize,
    carbon_monoxide: &[f64],
    nitrogen: &[f64],
    oxygen: &[f64],
    answers: &[u8],
    ratios: &[f64],
) -> Result<(), Refusal>
    ensures { told_number result ≡ lengths_number (shape.order ^ shape.dimension) rows carbon_monoxide.now
        nitrogen.now oxygen.now answers.now ratios.now }
{
    let nodes = shape.nodes();
    if carbon_monoxide.len() != nodes
        || nitrogen.len() != nodes
        || oxygen.len() != nodes
        || answers.len() != rows
        || ratios.len() != rows
    {
        return Err(Refusal::WrongLength);
    }
    Ok(())
}

// The refusal that a floor brings. The first test fails for a NaN.
fn check_floor(floor: f64) -> Result<(), Refusal>
    ensures { told_number result ≡ floor_number floor }
{
    if 0.0 < floor && common::is_finite(floor) {
        return Ok(());
    }
    Err(Refusal::NoFloor)
}

// What the two calls below would refuse with, the lower of the two. Both are asked about the points as they came.
fn check_below(
    cell: Cell,
    centre: &[f64],
    node_polynomials: &[f64],
    points: &[f64],
    values: &[f64],
    factors: &[f64],
) -> Result<(), Refusal>
    ensures { told_number result ≡
        (coefficients_call cell.dimension cell.order cell.rows cell.side false centre.now
        node_polynomials.now (points.now, values.now, [], factors.now, [])).0 }
{
    let none = [0.0; 0];
    let unscaled = scaling_number(cell.dimension, cell.rows, cell.side, centre, points);
    let unfound = coefficients_number(
        cell.dimension,
        cell.order,
        cell.rows,
        Wanted::Values,
        node_polynomials,
        points,
        values,
        &none,
        factors,
        &none,
    );
    lower_of(unscaled, unfound)
}

// The shape of a call that is not refused, or else the lowest refusal. The shape comes first, since the nodes are counted by it.
pub(crate) fn shape_of(
    cell: Cell,
    floor: f64,
    centre: &[f64],
    node_polynomials: &[f64],
    points: &[f64],
    carbon_monoxide: &[f64],
    nitrogen: &[f64],
    oxygen: &[f64],
    values: &[f64],
    factors: &[f64],
    answers: &[u8],
    ratios: &[f64],
) -> Result<Shape, Refusal>
    ensures number { told_number result ≡
        ratios_number cell.dimension cell.order cell.rows cell.side floor centre.now
        node_polynomials.now carbon_monoxide.now nitrogen.now oxygen.now
        (points.now, values.now, factors.now, answers.now, ratios.now) }
    ensures shape { IfOk result (λ s. (s.dimension ≡ cell.dimension) × (s.order ≡ cell.order)) }
{
    let shape = Shape::new(cell.dimension, cell.order)?;
    let below = check_below(cell, centre, node_polynomials, points, values, factors);
    let rows = cell.rows;
    let lengths = check_lengths(
        shape,
        rows,
        carbon_monoxide,
        nitrogen,
        oxygen,
        answers,
        ratios,
    );
    lower_of(below, lengths)?;
    check_floor(floor)?;
    Ok(shape)
}
