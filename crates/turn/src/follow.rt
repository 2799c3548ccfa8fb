// Where one node of the reference block goes, and which node comes to its place: worked out from the node's indices, with no table.
ghost use Rattle.std.specs.Prelude.{◌≡◌};
ghost use Rattle.common.specs.Numbers.{told, told_number};
ghost use Rattle.turn.specs.Follow.{follow_call};
ghost use Rattle.turn.specs.Working.{indices_of, index_number};

use common::{Refusal, Shape, Three, lower_of};
use vectors::{Vector, find_turn};

// The entries at a node of both tables of a vector's case.
#[derive(Clone, Copy)]
pub struct Moves {
    pub image: usize,
    pub origin: usize,
}

// A node's indices by axis, and 0 past the dimension. The first is what is left of the node: below the order, if it is one.
fn indices_of(shape: Shape, node: usize) -> Three
    ensures { result ≡ indices_of shape.dimension shape.order node }
{
    if shape.dimension < 2 {
        return Three(node, 0, 0);
    }
    let order = shape.order;
    let rest = node / order;
    if shape.dimension < 3 {
        return Three(rest, node % order, 0);
    }
    Three(rest / order, rest % order, node % order)
}

// A node of the block, by its first index.
fn check_index(order: usize, index: usize) -> Result<(), Refusal>
    ensures { told_number result ≡ index_number order index }
{
    if index < order {
        return Ok(());
    }
    Err(Refusal::NoCase)
}

// The entries at the node of the table of the vector's case and of its inverse: where the node goes, and which node comes to its place.
pub fn follow_node(
    dimension: usize,
    order: usize,
    vector: Vector,
    node: usize,
) -> Result<Moves, Refusal>
    ensures { told result ≡ follow_call dimension order vector node }
{
    let shape = Shape::new(dimension, order)?;
    let n = indices_of(shape, node);
    let turn = lower_of(find_turn(dimension, vector), check_index(order, n.0))?;
    Ok(Moves {
        image: turn_nodes::image_of(shape, turn, n),
        origin: turn_nodes::origin_of(shape, turn, n),
    })
}
