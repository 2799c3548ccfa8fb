// What looking up a vector, following a node and a reference vector answer, told in lent slices.
#![tactic(auto)]

ghost use Rattle.std.specs.Prelude.{◌≡◌};
ghost use Rattle.common.specs.Numbers.{told_number};
ghost use Rattle.turn_told.specs.Told.{look_up_told, follow_told, reference_told};

use answers::with_length;
use common::Refusal;
use turn::{Vector, follow_node, look_up, reference_vector};

// The vector (x, y, z): its index, its case, its reference number, and 1 where it is near, else 0.
pub fn look_up_told(
    dimension: usize,
    x: i32,
    y: i32,
    z: i32,
    answer: &mut [usize],
) -> Result<(), Refusal>
    ensures { (told_number result, answer.new) ≡ look_up_told dimension (x, y, z) answer.old }
{
    let known = with_length(look_up(dimension, Vector(x, y, z)), answer.len() == 4)?;
    answer.copy_from_slice(&[
        known.index,
        known.case,
        known.reference,
        usize::from(known.near),
    ]);
    Ok(())
}

// Where a node goes under the table of the vector's case, and which node comes to its place.
pub fn follow_node_told(
    dimension: usize,
    order: usize,
    x: i32,
    y: i32,
    z: i32,
    node: usize,
    answer: &mut [usize],
) -> Result<(), Refusal>
    ensures { (told_number result, answer.new) ≡ follow_told dimension order (x, y, z) node answer.old }
{
    let found = follow_node(dimension, order, Vector(x, y, z), node);
    let moves = with_length(found, answer.len() == 2)?;
    answer.copy_from_slice(&[moves.image, moves.origin]);
    Ok(())
}

// The three entries of the reference vector with this number.
pub fn reference_vector_told(
    dimension: usize,
    number: usize,
    vector: &mut [i32],
) -> Result<(), Refusal>
    ensures { (told_number result, vector.new) ≡ reference_told dimension number vector.old }
{
    let Vector(x, y, z) = with_length(reference_vector(dimension, number), vector.len() == 3)?;
    vector.copy_from_slice(&[x, y, z]);
    Ok(())
}
