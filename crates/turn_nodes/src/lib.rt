// One node of the reference block by its indices: where it goes, and which node comes to its place.
#![tactic(auto)]

ghost use Rattle.std.specs.Prelude.{◌≡◌, ◌<◌, ◌≤◌};
ghost use Rattle.common.specs.Digits.{from_digits};
ghost use Rattle.common.specs.Factorials.{factorial};
ghost use Rattle.common.specs.Threes.{three};
ghost use Rattle.vectors.specs.Order.{place};
ghost use Rattle.turn_nodes.specs.Working.{negative_on, image_index, reversed_all, origin_index, Followable, place_of_other};

use common::{Shape, Three};
use turn_tables::{axis_of, reverse};
use vectors::Turn;

// One of three, by its axis.
fn pick(t: Three, axis: usize) -> usize
    requires { axis < 3 }
    ensures { result ≡ three t axis }
{
    if axis == 0 {
        return t.0;
    }
    if axis == 1 {
        return t.1;
    }
    t.2
}

fn is_reversed(turn: Turn, axis: usize) -> bool
    ensures { result ≡ negative_on turn axis }
{
    if axis == 0 {
        return turn.first;
    }
    if axis == 1 {
        return turn.second;
    }
    turn.third
}

// The place of one of the two other axes, of which number k stands before the other.
fn place_of_other(other: usize, k: usize) -> usize
    ensures { result ≡ place_of_other other k }
{
    if other == k { 1 } else { 2 }
}

// The place of an axis in order number k. Two axes stand in their order or are exchanged. Of three, axis k / 2 stands first, and the
// other two stand in order number k % 2.
fn place_of(dimension: usize, k: usize, axis: usize) -> usize
    requires { (dimension ≤ 3) × (k < factorial dimension) × (axis < dimension) }
    ensures { result ≡ place dimension k axis }
{
    if dimension < 3 {
        if axis == k {
            return 0;
        }
        return 1;
    }
    let first = k / 2;
    if axis == first {
        return 0;
    }
    if axis < first {
        return place_of_other(axis, k % 2);
    }
    place_of_other(axis - 1, k % 2)
}

fn image_index(shape: Shape, turn: Turn, n: Three, axis: usize) -> usize
    requires { Followable shape.dimension shape.order turn n }
    ensures { result ≡ image_index shape.dimension shape.order turn n axis }
{
    let dimension = shape.dimension;
    if dimension <= axis {
        return 0;
    }
    let index = pick(n, place_of(dimension, turn.order, axis));
    reverse(shape.order, is_reversed(turn, axis), index)
}

// The node that a node with these indices goes to.
pub fn image_of(shape: Shape, turn: Turn, n: Three) -> usize
    requires { Followable shape.dimension shape.order turn n }
    ensures { result ≡
        from_digits shape.order shape.dimension (image_index shape.dimension shape.order turn n) }
{
    let to = Three(
        image_index(shape, turn, n, 0),
        image_index(shape, turn, n, 1),
        image_index(shape, turn, n, 2),
    );
    common::number_of(shape.order, shape.dimension, to)
}

// The indices, each reversed where the entry is negative.
fn reverse_all(order: usize, turn: Turn, n: Three) -> Three
    requires { (n.0 < order) × (n.1 < order) × (n.2 < order) }
    ensures { result ≡ reversed_all order turn n }
{
    Three(
        reverse(order, turn.first, n.0),
        reverse(order, turn.second, n.1),
        reverse(order, turn.third, n.2),
    )
}

fn origin_index(dimension: usize, k: usize, back: Three, m: usize) -> usize
    requires { (dimension ≤ 3) × (k < factorial dimension) }
    ensures { result ≡ origin_index dimension k back m }
{
    if dimension <= m {
        return 0;
    }
    pick(back, axis_of(dimension, k, m))
}

// The node that comes to the place of a node with these indices.
pub fn origin_of(shape: Shape, turn: Turn, n: Three) -> usize
    requires { Followable shape.dimension shape.order turn n }
    ensures { result ≡ from_digits shape.order shape.dimension
        (origin_index shape.dimension turn.order (reversed_all shape.order turn n)) }
{
    let dimension = shape.dimension;
    let back = reverse_all(shape.order, turn, n);
    let from = Three(
        origin_index(dimension, turn.order, back, 0),
        origin_index(dimension, turn.order, back, 1),
        origin_index(dimension, turn.order, back, 2),
    );
    common::number_of(shape.order, dimension, from)
}
