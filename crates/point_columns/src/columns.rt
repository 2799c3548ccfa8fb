// A column of points. Along its axis the values, one a node, come in runs of equal ones; the runs of all values make a
// cycle, and the cycle repeats down the column. So nothing is divided, and each value is computed once.
ghost use Rattle.std.specs.Prelude.{◌≡◌, ◌+◌, ◌*◌, ◌^◌, ◌<◌, ◌≤◌, length, get_or};
ghost use Rattle.std.specs.Float.{nan};
ghost use Rattle.common.specs.Lists.{stretch};
ghost use Rattle.point_columns.specs.Blocks.{node_on};
ghost use Rattle.point_columns.specs.Working.{cycled};

use common::{Shape, power};

// A run of each value, from place `at` on.
fn fill_runs(order: usize, run: usize, values: &[f64; 16], at: usize, points: &mut [f64])
    requires { (order ≤ 16) × (at + order * run ≤ length points.old) }
    ensures { points.new ≡ stretch at (order * run) (cycled run values.now) points.old }
{
    let mut to = at;
    for i in 0..order {
        common::fill_with(values[i], run, to, points);
        to += run;
    }
}

// A cycle. On the last axis a run has one place, and a loop for each run would cost more than the copy.
fn fill_cycle(order: usize, run: usize, values: &[f64; 16], at: usize, points: &mut [f64])
    requires { (order ≤ 16) × (at + order * run ≤ length points.old) }
    ensures { points.new ≡ stretch at (order * run) (cycled run values.now) points.old }
{
    if run == 1 {
        common::copy_column(order, values, at, points);
    } else {
        fill_runs(order, run, values, at, points);
    }
}

// The column of an axis, from place `at` on: as many cycles as there are nodes on the axes before it together, and
// runs as long as there are nodes on the axes after it.
pub(crate) fn fill_column(
    shape: Shape,
    axis: usize,
    values: &[f64; 16],
    at: usize,
    points: &mut [f64],
)
    requires { (axis < shape.dimension) × (at + shape.order ^ shape.dimension ≤ length points.old) }
    ensures { let dimension = shape.dimension in let order = shape.order in
        points.new ≡ stretch at (order ^ dimension) (node_on dimension order axis values.now) points.old }
{
    let cycles = power(shape.order, axis);
    let run = power(shape.order, shape.dimension - 1 - axis);
    let cycle = shape.order * run;
    for k in 0..cycles {
        let to = at + k * cycle;
        fill_cycle(shape.order, run, values, to, points);
    }
}
