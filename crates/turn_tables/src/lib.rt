// The walk that fills the table of a case, or its inverse: the image of a node moves by a fixed step an axis. Beside it what it shares
// with following one node: the axis at a place of an order, and an index reversed.
#![tactic(auto)]

ghost use Rattle.std.specs.Prelude.{◌≡◌, ◌+◌, ◌^◌, ◌<◌, ◌≤◌, length};
ghost use Rattle.common.specs.Lists.{stores};
ghost use Rattle.common.specs.Factorials.{factorial};
ghost use Rattle.vectors.specs.Order.{skip, axis};
ghost use Rattle.turn_tables.specs.Turned.{reversed, negative, turned};
ghost use Rattle.turn_tables.specs.Working.{step_of, steps_of, stepped, stored, Runs};

use common::Shape;

// The image of node 0, and how far the image moves as the index on one of the last three axes rises by one.
#[derive(Clone, Copy)]
struct Steps {
    start: usize,
    node: usize,
    row: usize,
    plane: usize,
}

// Number a of the axes other than `first`.
fn other_axis(first: usize, a: usize) -> usize
    requires { a < 2 }
    ensures { result ≡ skip first a }
{
    if a < first { a } else { a + 1 }
}

// Axis number m of order number k. Two axes stand in their order or are exchanged. Of three, axis k / 2 stands first, and the other
// two stand in order number k % 2.
pub fn axis_of(dimension: usize, k: usize, m: usize) -> usize
    requires { (dimension ≤ 3) × (k < factorial dimension) × (m < dimension) }
    ensures { result ≡ axis dimension k m }
{
    if dimension < 3 {
        if m == 0 {
            return k;
        }
        return 1 - k;
    }
    let first = k / 2;
    if m == 0 {
        return first;
    }
    if m == 1 {
        return other_axis(first, k % 2);
    }
    other_axis(first, 1 - k % 2)
}

fn is_negative(dimension: usize, case: usize, axis: usize) -> bool
    requires { (dimension ≤ 3) × (axis < dimension) }
    ensures { result ≡ negative dimension case axis }
{
    let weight = common::power(2, dimension - 1 - axis);
    case / common::factorial_of(dimension) / weight % 2 == 0
}

// An index, or the same counted from the other end.
pub fn reverse(order: usize, is_reversed: bool, index: usize) -> usize
    requires { index < order }
    ensures { result ≡ reversed order is_reversed index }
{
    if is_reversed {
        order - 1 - index
    } else {
        index
    }
}

// The image of node 0: on a reversed axis the last index, on any other the first.
fn start_of(shape: Shape, case: usize) -> usize
    ensures { result ≡ turned shape.dimension shape.order case 0 }
{
    let mut start = 0;
    for axis in 0..shape.dimension {
        let index = reverse(shape.order, is_negative(shape.dimension, case, axis), 0);
        start = start * shape.order + index;
    }
    start
}

// How far the image moves, modulo 2^64, as the index on axis number e from the last rises by one.
fn step_of(shape: Shape, case: usize, e: usize) -> usize
    ensures { result ≡ step_of shape.dimension shape.order case e }
{
    let dimension = shape.dimension;
    if dimension <= e {
        return 0;
    }
    let m = dimension - 1 - e;
    let axis = axis_of(dimension, case % common::factorial_of(dimension), m);
    let weight = common::power(shape.order, dimension - 1 - axis);
    if is_negative(dimension, case, axis) {
        return usize::MAX - (weight - 1);
    }
    weight
}

fn steps_of(shape: Shape, case: usize) -> Steps
    ensures { result ≡ steps_of shape.dimension shape.order case }
{
    Steps {
        start: start_of(shape, case),
        node: step_of(shape, case, 0),
        row: step_of(shape, case, 1),
        plane: step_of(shape, case, 2),
    }
}

// Stores the images of a row of nodes, which begin at `image` and rise by `step`, at the nodes' places; for the inverse each node at
// the place of its image.
fn store_row<const INVERSE: bool>(
    node: usize,
    order: usize,
    image: usize,
    step: usize,
    table: &mut [u16],
)
    requires { Runs node order image step (length table.old) }
    ensures { table.new ≡ stored INVERSE (λ i. node + i) (stepped image step) order table.old }
{
    let mut to = image;
    for i in 0..order {
        let (place, value) = if INVERSE {
            (to, node + i)
        } else {
            (node + i, to)
        };
        table[place] = value as u16;
        to = to.wrapping_add(step);
    }
}

// Walks the nodes row by row. The image of a row's first node follows from the row before, or, for the first row of
// a plane, from the plane before.
pub fn fill<const INVERSE: bool>(shape: Shape, case: usize, table: &mut [u16])
    requires { length table.old ≡ shape.order ^ shape.dimension }
    ensures { table.new ≡
        stored INVERSE (λ n. n) (turned shape.dimension shape.order case) (shape.order ^ shape.dimension) table.old }
{
    let order = shape.order;
    let steps = steps_of(shape, case);
    let mut node = 0;
    let mut row = 0;
    let mut plane = steps.start;
    let mut image = steps.start;
    while node < table.len() {
        store_row::<INVERSE>(node, order, image, steps.node, table);
        node += order;
        row += 1;
        image = image.wrapping_add(steps.row);
        if row == order {
            row = 0;
            plane = plane.wrapping_add(steps.plane);
            image = plane;
        }
    }
}
