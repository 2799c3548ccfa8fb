// Chebyshev nodes, polynomials and their derivatives.
ghost use Rattle.std.specs.Prelude.{◌≡◌};
ghost use Rattle.nodes.specs.Nodes.{nodes_call};
ghost use Rattle.nodes.specs.Sets.{set_call};
ghost use Rattle.chebyshev.specs.Polynomials.{polynomials_call};
ghost use Rattle.chebyshev.specs.Second.{second_call};

use chebyshev::{evaluate_chebyshev_polynomials, evaluate_second_derivatives};
use common::told_number;
use nodes::{generate_chebyshev_nodes, generate_node_set};

// The nodes of an order, rising.
#[unsafe(no_mangle)]
pub extern "C" fn bbfmm_generate_chebyshev_nodes(order: usize, nodes: &mut [f64]) -> u8
    ensures { (result, nodes.new) ≡ nodes_call order nodes.old }
{
    told_number(generate_chebyshev_nodes(order, nodes))
}

// The nodes of an order in a set, rising: 0 is the Rust's, 1 is mirror-exact.
#[unsafe(no_mangle)]
pub extern "C" fn bbfmm_generate_node_set(order: usize, set: usize, nodes: &mut [f64]) -> u8
    ensures { (result, nodes.new) ≡ set_call order set nodes.old }
{
    told_number(generate_node_set(order, set, nodes))
}

// T and, if wanted, T' at each point: a row a point, a column a polynomial.
#[unsafe(no_mangle)]
pub extern "C" fn bbfmm_evaluate_chebyshev_polynomials(
    order: usize,
    rows: usize,
    points: &[f64],
    with_derivatives: bool,
    tn: &mut [f64],
    dtn: &mut [f64],
) -> u8
    ensures { (result, tn.new, dtn.new) ≡
        polynomials_call order rows with_derivatives points.now tn.old dtn.old }
{
    told_number(evaluate_chebyshev_polynomials(order, rows, points, with_derivatives, tn, dtn))
}

// T, T' and T'' at each point: a row a point, a column a polynomial.
#[unsafe(no_mangle)]
pub extern "C" fn bbfmm_evaluate_second_derivatives(
    order: usize,
    rows: usize,
    points: &[f64],
    tn: &mut [f64],
    dtn: &mut [f64],
    ddtn: &mut [f64],
) -> u8
    ensures { (result, (tn.new, dtn.new, ddtn.new)) ≡
        second_call order rows points.now (tn.old, dtn.old, ddtn.old) }
{
    told_number(evaluate_second_derivatives(order, rows, points, tn, dtn, ddtn))
}
