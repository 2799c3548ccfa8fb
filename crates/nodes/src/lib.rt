// The Chebyshev nodes of the orders 1 to 16, by one public call and by a set's number; the table of them stands in `node_rows`.
#![tactic(auto)]

ghost use Rattle.std.specs.Prelude.{◌≡◌};
ghost use Rattle.common.specs.Numbers.{told_number};
ghost use Rattle.nodes.specs.Nodes.{nodes_number, nodes_call};

mod sets;

use common::{Refusal, check_order};
use node_rows::fill_nodes;
pub use sets::generate_node_set;

fn check_nodes(order: usize, size: usize) -> Result<(), Refusal>
    ensures { told_number result ≡ nodes_number order size }
{
    check_order(order)?;
    if size != order {
        return Err(Refusal::WrongLength);
    }
    Ok(())
}

// The nodes of an order, rising, into a buffer of that length.
pub fn generate_chebyshev_nodes(order: usize, nodes: &mut [f64]) -> Result<(), Refusal>
    ensures { (told_number result, nodes.new) ≡ nodes_call order nodes.old }
{
    check_nodes(order, nodes.len())?;
    fill_nodes(nodes);
    Ok(())
}
