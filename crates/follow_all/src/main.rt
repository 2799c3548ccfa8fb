// Follows every node under every vector, dimensions 1 to 3, orders 1 to 6 and 16, and holds each answer to the full tables. Writes how
// many nodes were followed, and how many answers differ.
#![tactic(auto)]

use common::Shape;
use std::io::{Error, Write};
use text::Line;
use vectors::Vector;

// The most nodes of a block.
const MOST: usize = 4096;

const ORDERS: [usize; 7] = [1, 2, 3, 4, 5, 6, 16];

const ENTRIES: [i32; 7] = [-3, -2, -1, 0, 1, 2, 3];

#[derive(Clone, Copy, Default)]
struct Tally {
    followed: usize,
    different: usize,
}

impl Tally {
    // A node more, which was followed to the right places or not.
    fn counted(self, is_right: bool) -> Tally {
        Tally {
            followed: self.followed.wrapping_add(1),
            different: self.different.wrapping_add(usize::from(!is_right)),
        }
    }
}

fn is_same(shape: Shape, vector: Vector, node: usize, image: u16, origin: u16) -> bool {
    match turn::follow_node(shape.dimension, shape.order, vector, node) {
        Ok(moves) => moves.image == usize::from(image) && moves.origin == usize::from(origin),
        Err(_) => false,
    }
}

fn follow_nodes(
    shape: Shape,
    vector: Vector,
    table: &[u16],
    inverse: &[u16],
    before: Tally,
) -> Tally {
    let mut tally = before;
    for (node, (image, origin)) in table.iter().zip(inverse).enumerate() {
        tally = tally.counted(is_same(shape, vector, node, *image, *origin));
    }
    tally
}

// All nodes under one vector, beside both tables of its case. A table that cannot be filled leaves zeros, which differ.
fn follow_tables(
    shape: Shape,
    case: usize,
    vector: Vector,
    table: &mut [u16],
    inverse: &mut [u16],
    before: Tally,
) -> Tally {
    let _ = turn::combined_permutation(shape.dimension, shape.order, case, table);
    let _ = turn::inverse_permutation(shape.dimension, shape.order, case, inverse);
    follow_nodes(shape, vector, table, inverse, before)
}

fn follow_vector(shape: Shape, vector: Vector, before: Tally) -> Tally {
    let mut table = [0u16; MOST];
    let mut inverse = [0u16; MOST];
    let nodes = shape.nodes();
    if MOST < nodes {
        return before.counted(false);
    }
    match vectors::look_up(shape.dimension, vector) {
        Ok(known) => follow_tables(
            shape,
            known.case,
            vector,
            &mut table[..nodes],
            &mut inverse[..nodes],
            before,
        ),
        Err(_) => before.counted(false),
    }
}

// Vector number i of its dimension.
fn vector_of(dimension: usize, i: usize) -> Vector {
    let last = ENTRIES[i % 7];
    let middle = ENTRIES[i / 7 % 7];
    match dimension {
        1 => Vector(last, 0, 0),
        2 => Vector(middle, last, 0),
        _ => Vector(ENTRIES[i / 49 % 7], middle, last),
    }
}

fn follow_vectors(shape: Shape, before: Tally) -> Tally {
    let mut tally = before;
    for i in 0..common::power(7, shape.dimension) {
        tally = follow_vector(shape, vector_of(shape.dimension, i), tally);
    }
    tally
}

fn follow_orders(dimension: usize, before: Tally) -> Tally {
    let mut tally = before;
    for order in ORDERS {
        tally = match Shape::new(dimension, order) {
            Ok(shape) => follow_vectors(shape, tally),
            Err(_) => tally.counted(false),
        };
    }
    tally
}

fn follow_all() -> Tally {
    let mut tally = Tally::default();
    for dimension in 1..4 {
        tally = follow_orders(dimension, tally);
    }
    tally
}

fn main(rt: HostRuntime) -> Result<(), Error> {
    let tally = follow_all();
    let mut room = [0u8; 64];
    let mut line = Line::new(&mut room);
    line.put_number(tally.followed as u64);
    line.put_next(tally.different as u64);
    let end = line.end();
    if end <= line.bytes.len() {
        rt.stdout().write_all(&line.bytes[..end])?;
    }
    Ok(())
}
