// The columns of the curvatures, pair after pair.
ghost use Rattle.std.specs.Prelude.{◌≡◌, ◌+◌, ◌*◌, ◌^◌, ◌<◌, ◌≤◌, length};
ghost use Rattle.common.specs.Matrices.{column_major};
ghost use Rattle.curvatures.specs.Curvatures.{pair_count};
ghost use Rattle.curvatures.specs.Working.{third_axis, pair_of, curvature_of, Filled};

use crate::pairs::{Pair, pair_at, pair_count};
use axes::Grid;
use products::{ThreeAxes, fill_products, fill_started};

// The third axis of a product that starts with two.
fn third_axis(dimension: usize, pair: Pair) -> usize
    requires { (1 ≤ dimension) × (pair.first + pair.second ≤ 3) }
    ensures { result ≡ third_axis dimension pair.first pair.second }
{
    if dimension <= 2 {
        return dimension - 1;
    }
    3 - (pair.first + pair.second)
}

// The columns of all nodes for one pair: with S'' of its one axis at the start, or with S' of both.
fn fill_pair(
    grid: Grid,
    pair: Pair,
    factors: &[f64],
    slopes: &[f64],
    bends: &[f64],
    out: &mut [f64],
)
    requires { Filled grid.shape.dimension grid.shape.order grid.rows factors.now slopes.now bends.now ×
        (pair.first ≤ pair.second) × (pair.second < grid.shape.dimension) ×
        (length out.old ≡ grid.shape.order ^ grid.shape.dimension * grid.rows) }
    ensures { out.new ≡ column_major grid.rows (grid.shape.order ^ grid.shape.dimension)
        (pair_of grid.shape.dimension grid.shape.order grid.rows factors.now slopes.now bends.now pair) }
{
    if pair.first == pair.second {
        fill_started(grid, pair.first, bends, factors, out);
    } else {
        let axes = ThreeAxes {
            first: pair.first,
            second: pair.second,
            third: third_axis(grid.shape.dimension, pair),
        };
        fill_products(grid, axes, slopes, slopes, factors, out);
    }
}

// The columns of all pairs.
pub(crate) fn fill_pairs(
    grid: Grid,
    factors: &[f64],
    slopes: &[f64],
    bends: &[f64],
    curvatures: &mut [f64],
)
    requires { Filled grid.shape.dimension grid.shape.order grid.rows factors.now slopes.now bends.now ×
        (length curvatures.old ≡ pair_count grid.shape.dimension * grid.shape.order ^ grid.shape.dimension * grid.rows) }
    ensures { curvatures.new ≡
        column_major grid.rows (pair_count grid.shape.dimension * grid.shape.order ^ grid.shape.dimension)
        (curvature_of grid.shape.dimension grid.shape.order grid.rows factors.now slopes.now bends.now) }
{
    let dimension = grid.shape.dimension;
    let pairs = pair_count(dimension);
    let count = grid.shape.nodes() * grid.rows;
    let mut at = 0;
    for q in 0..pairs {
        let end = at + count;
        let pair = pair_at(dimension, q);
        fill_pair(grid, pair, factors, slopes, bends, &mut curvatures[at..end]);
        at = end;
    }
}
