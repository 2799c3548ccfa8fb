// Turning a block: looking up a vector, following a node, reference vectors, and the two tables.
ghost use Rattle.std.specs.Prelude.{◌≡◌};
ghost use Rattle.turn.specs.Tables.{table_call};
ghost use Rattle.turn_tables.specs.Turned.{turned, returned};
ghost use Rattle.turn_told.specs.Told.{look_up_told, follow_told, reference_told};

use common::told_number;
use turn::{combined_permutation, inverse_permutation};
use turn_told::{follow_node_told, look_up_told, reference_vector_told};

// The vector (x, y, z): its index, its case, its reference number, and 1 where it is near, else 0.
#[unsafe(no_mangle)]
pub extern "C" fn bbfmm_look_up(
    dimension: usize,
    x: i32,
    y: i32,
    z: i32,
    answer: &mut [usize],
) -> u8
    ensures { (result, answer.new) ≡ look_up_told dimension (x, y, z) answer.old }
{
    told_number(look_up_told(dimension, x, y, z, answer))
}

// Where a node goes under the table of the vector's case, and which node comes to its place.
#[unsafe(no_mangle)]
pub extern "C" fn bbfmm_follow_node(
    dimension: usize,
    order: usize,
    x: i32,
    y: i32,
    z: i32,
    node: usize,
    answer: &mut [usize],
) -> u8
    ensures { (result, answer.new) ≡ follow_told dimension order (x, y, z) node answer.old }
{
    told_number(follow_node_told(dimension, order, x, y, z, node, answer))
}

// The three entries of the reference vector with this number.
#[unsafe(no_mangle)]
pub extern "C" fn bbfmm_reference_vector(dimension: usize, number: usize, vector: &mut [i32]) -> u8
    ensures { (result, vector.new) ≡ reference_told dimension number vector.old }
{
    told_number(reference_vector_told(dimension, number, vector))
}

// The table of a case: which node of the turned block each node of the reference block becomes.
#[unsafe(no_mangle)]
pub extern "C" fn bbfmm_combined_permutation(
    dimension: usize,
    order: usize,
    case: usize,
    table: &mut [u16],
) -> u8
    ensures { (result, table.new) ≡ table_call dimension order case (turned dimension order case) table.old }
{
    told_number(combined_permutation(dimension, order, case, table))
}

// The inverse of that table.
#[unsafe(no_mangle)]
pub extern "C" fn bbfmm_inverse_permutation(
    dimension: usize,
    order: usize,
    case: usize,
    table: &mut [u16],
) -> u8
    ensures { (result, table.new) ≡ table_call dimension order case (returned dimension order case) table.old }
{
    told_number(inverse_permutation(dimension, order, case, table))
}
