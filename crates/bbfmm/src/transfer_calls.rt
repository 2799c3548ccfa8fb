// The operators between a block and its children, and the tensor transfer.
ghost use Rattle.std.specs.Prelude.{◌≡◌};
ghost use Rattle.operators.specs.Operators.{operators_call};
ghost use Rattle.transfer.specs.Tensor.{transfer_call};

use common::told_number;
use operators::get_m2m_transfer_operators;
use transfer::apply_cheb_tensor_transfer;

// The operators of the lower and of the upper child.
#[unsafe(no_mangle)]
pub extern "C" fn bbfmm_get_m2m_transfer_operators(
    order: usize,
    nodes: &[f64],
    node_polynomials: &[f64],
    operators: &mut [f64],
) -> u8
    ensures { (result, operators.new) ≡
        operators_call order nodes.now node_polynomials.now operators.old }
{
    told_number(get_m2m_transfer_operators(order, nodes, node_polynomials, operators))
}

// The input moved from a child to its block, or back; the result is in `first` for dimension 2, in `second` otherwise.
#[unsafe(no_mangle)]
pub extern "C" fn bbfmm_apply_cheb_tensor_transfer(
    dimension: usize,
    order: usize,
    child: usize,
    transpose: bool,
    input: &[f64],
    operators: &[f64],
    first: &mut [f64],
    second: &mut [f64],
) -> u8
    ensures { (result, first.new, second.new) ≡
        transfer_call dimension order child transpose input.now operators.now first.old
        second.old }
{
    told_number(apply_cheb_tensor_transfer(
        dimension, order, child, transpose, input, operators, first, second,
    ))
}
