// The one-dimensional operators from the nodes of the lower and the upper child to those of their parent.
#![tactic(auto)]

ghost use Rattle.std.specs.Prelude.{◌≡◌, ◌+◌, ◌*◌, ◌<◌, ◌≤◌, length, get_or};
ghost use Rattle.std.specs.Float.{nan};
ghost use Rattle.common.specs.Floats.{minus, times};
ghost use Rattle.common.specs.Lists.{stretch};
ghost use Rattle.common.specs.Matrices.{column_major};
ghost use Rattle.common.specs.Numbers.{told_number};
ghost use Rattle.operators.specs.Operators.{child_node, operator, operators_number, operators_call};
ghost use Rattle.operators.specs.Working.{part_of};

use common::{Refusal, check_order};

fn child_node(nodes: &[f64], c: usize) -> f64
    requires { c < length nodes.now + length nodes.now }
    ensures { result ≡ child_node (length nodes.now) nodes.now c }
{
    let order = nodes.len();
    if c < order {
        (nodes[c] - 1.0) * 0.5
    } else {
        (nodes[c - order] + 1.0) * 0.5
    }
}

// The sums of a column: term k is the nodes' T k times the child's, which the recurrence carries along.
fn sum_column(order: usize, polynomials: &[f64], x: f64, at: usize, operators: &mut [f64])
    requires { (length polynomials.now ≡ order * order) × (at + order ≤ length operators.old) }
    ensures { operators.new ≡
        stretch at order (part_of order polynomials.now x order) operators.old }
{
    common::fill_with(0.0, order, at, operators);
    let mut t = 1.0;
    let mut next = x;
    for k in 0..order {
        common::add_scaled(order, polynomials, k * order, t, at, operators);
        let later = (2.0 * x) * next - t;
        t = next;
        next = later;
    }
}

// Each row of a column times a factor, less an offset.
fn scale_column(rows: usize, factor: f64, offset: f64, at: usize, operators: &mut [f64])
    requires { at + rows ≤ length operators.old }
    ensures { operators.new ≡
        stretch at rows (λ i. minus (times (get_or operators.old (at + i) nan) factor) offset) operators.old }
{
    for i in 0..rows {
        operators[at + i] = operators[at + i] * factor - offset;
    }
}

fn fill_operators(nodes: &[f64], polynomials: &[f64], operators: &mut [f64])
    requires { let order = length nodes.now in
        (order ≤ 16) × (length polynomials.now ≡ order * order) × (length operators.old ≡ (order + order) * order) }
    ensures { let order = length nodes.now in
        operators.new ≡ column_major order (order + order) (operator order nodes.now polynomials.now) }
{
    let order = nodes.len();
    let factor = 2.0 / common::float_of(order);
    let offset = 1.0 / common::float_of(order);
    for c in 0..order + order {
        let x = child_node(nodes, c);
        let at = c * order;
        sum_column(order, polynomials, x, at, operators);
        scale_column(order, factor, offset, at, operators);
    }
}

fn check_operators(
    order: usize,
    nodes: usize,
    polynomials: usize,
    operators: usize,
) -> Result<(), Refusal>
    ensures { told_number result ≡ operators_number order nodes polynomials operators }
{
    check_order(order)?;
    if nodes != order || polynomials != order * order || operators != (order + order) * order {
        return Err(Refusal::WrongLength);
    }
    Ok(())
}

// The operators of an order, from its nodes and the polynomials at them: the lower child's columns, then the upper child's.
pub fn get_m2m_transfer_operators(
    order: usize,
    nodes: &[f64],
    node_polynomials: &[f64],
    operators: &mut [f64],
) -> Result<(), Refusal>
    ensures { (told_number result, operators.new) ≡
        operators_call order nodes.now node_polynomials.now operators.old }
{
    check_operators(order, nodes.len(), node_polynomials.len(), operators.len())?;
    fill_operators(nodes, node_polynomials, operators);
    Ok(())
}
