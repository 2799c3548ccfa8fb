// Two sets of nodes: the Rust's, and the mirror-exact one, which is made from the Rust's upper half.
ghost use Rattle.std.specs.Prelude.{◌≡◌, length};
ghost use Rattle.common.specs.Lists.{tabulate};
ghost use Rattle.common.specs.Numbers.{told_number};
ghost use Rattle.node_rows.specs.Rows.{node};
ghost use Rattle.nodes.specs.NodeSets.{Decodes};
ghost use Rattle.nodes.specs.Sets.{mirrored, set_call};

use crate::{check_nodes, generate_chebyshev_nodes};
use common::Refusal;

// Callers name a set by its number.
#[derive(Clone, Copy, PartialEq, Eq)]
enum NodeSet {
    Rust = 0,
    MirrorExact = 1,
}

impl TryFrom<usize> for NodeSet {
    type Error = Refusal;

    ghost try_from_gives = { Decodes };

    fn try_from(set: usize) -> Result<Self, Refusal> {
        match set {
            0 => Ok(NodeSet::Rust),
            1 => Ok(NodeSet::MirrorExact),
            _ => Err(Refusal::NoSet),
        }
    }
}

// From the Rust's nodes to the mirror-exact ones: each below the middle becomes the negation of its opposite, and a middle one +0.0.
fn mirror_nodes(nodes: &mut [f64])
    requires { let order = length nodes.old in nodes.old ≡ tabulate order (node order) }
    ensures { let order = length nodes.old in nodes.new ≡ tabulate order (mirrored order) }
{
    let order = nodes.len();
    let half = order / 2;
    for i in 0..half {
        nodes[i] = -nodes[order - 1 - i];
    }
    if half + half < order {
        nodes[half] = 0.0;
    }
}

// The nodes of an order in a set, rising, into a buffer of that length: 0 is the set of `generate_chebyshev_nodes`, 1 is mirror-exact. An
// unknown set is tested apart, so that the rows are filled in one place alone, which the compiler copies into the call.
pub fn generate_node_set(order: usize, set: usize, nodes: &mut [f64]) -> Result<(), Refusal>
    ensures { (told_number result, nodes.new) ≡ set_call order set nodes.old }
{
    let Ok(set) = NodeSet::try_from(set) else {
        check_nodes(order, nodes.len())?;
        return Err(Refusal::NoSet);
    };
    generate_chebyshev_nodes(order, nodes)?;
    if set == NodeSet::MirrorExact {
        mirror_nodes(nodes);
    }
    Ok(())
}
