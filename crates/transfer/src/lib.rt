// The tensor transfer: the operators applied along each axis, from one lent buffer to the other.
#![tactic(auto)]

ghost use Rattle.std.specs.Prelude.{◌≡◌, ℕ, ◌+◌, ◌*◌, ◌-◌, ◌^◌, ◌/◌, ◌%◌, ◌<◌, ◌≤◌, length};
ghost use Rattle.common.specs.Floats.{zero₆₄, spaced};
ghost use Rattle.common.specs.Lists.{tabulate, stores};
ghost use Rattle.common.specs.Matrices.{matrix, column_major};
ghost use Rattle.common.specs.Numbers.{told_number};
ghost use Rattle.transfer.specs.Tensor.{along, ends, transfer_number, transfer_call};

use common::{Refusal, Shape, power};
use passes::pass;

// Which half of the operators an axis takes, 0 for the lower: bit `axis` of the child.
fn half_of(child: usize, axis: usize) -> usize
    requires { axis ≤ 2 }
    ensures { result ≡ child / 2 ^ axis % 2 }
{
    child / power(2, axis) % 2
}

// The pass along one axis: the lower block of the operators or the upper, as it stands or transposed.
fn transfer_axis(
    order: usize,
    width: usize,
    child: usize,
    transpose: bool,
    axis: usize,
    operators: &[f64],
    values: &[f64],
    out: &mut [f64],
)
    requires { (order ≤ 16) × (axis ≤ 2) × (length operators.now ≡ (order + order) * order) × (length values.now ≡ width * order) ×
        (length out.old ≡ order * width) }
    ensures { out.new ≡ along order width child transpose operators.now axis values.now }
{
    let start = half_of(child, axis) * (order * order);
    let end = start + order * order;
    pass(order, width, values, &operators[start..end], transpose, out);
}

// The passes along all axes, the last first, each from one buffer to the other.
fn transfer_axes(
    shape: Shape,
    child: usize,
    transpose: bool,
    operators: &[f64],
    first: &mut [f64],
    second: &mut [f64],
)
    requires { let order = shape.order in let nodes = order ^ shape.dimension in
        (length operators.now ≡ (order + order) * order) × (length first.old ≡ nodes) × (length second.old ≡ nodes) }
    ensures { let order = shape.order in let width = order ^ (shape.dimension - 1) in
        (first.new, second.new) ≡
        ends (along order width child transpose operators.now) shape.dimension first.old second.old }
{
    let order = shape.order;
    let width = power(order, shape.dimension - 1);
    let top = shape.dimension - 1;
    transfer_axis(
        order, width, child, transpose, top, operators, first, second,
    );
    if shape.dimension < 2 {
        return;
    }
    let mid = shape.dimension - 2;
    transfer_axis(
        order, width, child, transpose, mid, operators, second, first,
    );
    if shape.dimension < 3 {
        return;
    }
    transfer_axis(order, width, child, transpose, 0, operators, first, second);
}

// The lowest refusal past the shape's.
fn check_transfer(
    shape: Shape,
    child: usize,
    input: usize,
    operators: usize,
    first: usize,
    second: usize,
) -> Result<(), Refusal>
    ensures { told_number result ≡
        transfer_number shape.dimension shape.order child input operators first second }
{
    if power(2, shape.dimension) <= child {
        return Err(Refusal::NoCase);
    }
    let order = shape.order;
    let nodes = shape.nodes();
    if input != nodes || operators != (order + order) * order || first != nodes || second != nodes {
        return Err(Refusal::WrongLength);
    }
    Ok(())
}

// The input moved between a block and one of its children: up by the operators as they stand, down by their transposes.
// The result is in the first buffer for dimension 2, and in the second otherwise.
pub fn apply_cheb_tensor_transfer(
    dimension: usize,
    order: usize,
    child: usize,
    transpose: bool,
    input: &[f64],
    operators: &[f64],
    first: &mut [f64],
    second: &mut [f64],
) -> Result<(), Refusal>
    ensures { (told_number result, first.new, second.new) ≡
        transfer_call dimension order child transpose input.now operators.now first.old
        second.old }
{
    let shape = Shape::new(dimension, order)?;
    check_transfer(
        shape,
        child,
        input.len(),
        operators.len(),
        first.len(),
        second.len(),
    )?;
    common::copy_column(input.len(), input, 0, first);
    transfer_axes(shape, child, transpose, operators, first, second);
    Ok(())
}
