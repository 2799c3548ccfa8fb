// The points of a block, target or source: its nodes on each axis, laid out as columns.
ghost use Rattle.std.specs.Prelude.{◌≡◌, ◌*◌, ◌^◌, ◌<◌, ◌≤◌, get_or, length};
ghost use Rattle.std.specs.Float.{nan};
ghost use Rattle.common.specs.Lists.{stretch};
ghost use Rattle.point_columns.specs.Blocks.{points_of};
ghost use Rattle.point_columns.specs.Working.{offset, on_axis, block_point};

use crate::columns::fill_column;
use common::Shape;
use vectors::Vector;

// How many blocks away on an axis: whole and small, so the cast is exact.
fn offset_on(vector: Vector, axis: usize) -> f64
    requires { axis < 3 }
    ensures { result ≡ offset vector axis }
{
    if axis == 0 {
        return vector.0 as f64;
    }
    if axis == 1 {
        return vector.1 as f64;
    }
    vector.2 as f64
}

// What a node becomes on an axis of a target block, or of a source block so many blocks away.
fn value_of(is_source: bool, side: f64, away: f64, node: f64) -> f64
    ensures { result ≡ on_axis is_source side away node }
{
    if is_source {
        return (away + node * 0.5) * side;
    }
    node * (0.5 * side)
}

// What each node becomes on an axis.
fn fill_values(is_source: bool, side: f64, away: f64, nodes: &[f64], values: &mut [f64; 16])
    requires { length nodes.now ≤ 16 }
    ensures { values.new ≡
        stretch 0 (length nodes.now) (λ i. on_axis is_source side away (get_or nodes.now i nan)) values.old }
{
    for i in 0..nodes.len() {
        values[i] = value_of(is_source, side, away, nodes[i]);
    }
}

// The points of a target block, or of a source block that lies at this vector.
pub fn fill_points(
    shape: Shape,
    is_source: bool,
    side: f64,
    vector: Vector,
    nodes: &[f64],
    points: &mut [f64],
)
    requires { (length nodes.now ≡ shape.order) ×
        (length points.old ≡ shape.dimension * shape.order ^ shape.dimension) }
    ensures { let dimension = shape.dimension in let order = shape.order in
        points.new ≡ points_of dimension order (block_point is_source dimension order side vector nodes.now) }
{
    let rows = shape.nodes();
    let mut values = [0.0; 16];
    let mut at = 0;
    for axis in 0..shape.dimension {
        let away = offset_on(vector, axis);
        fill_values(is_source, side, away, nodes, &mut values);
        fill_column(shape, axis, &values, at, points);
        at += rows;
    }
}
