// What the curvatures need of each axis: S, S' and S'' at reference coordinates, column a*p + n for node n of axis a.
#![tactic(auto)]

ghost use Rattle.std.specs.Prelude.{◌≡◌, ◌++◌, ◌+◌, ◌-◌, ◌*◌, ◌≤◌, length, get_or};
ghost use Rattle.std.specs.Float.{nan};
ghost use Rattle.common.specs.Matrices.{matrix, column_major};
ghost use Rattle.polynomial_columns.specs.Recurrence.{T, T', T''};
ghost use Rattle.axes.specs.Axes.{factor_of, slope_of, S, S', on_axes, made_at, ColumnsFit};
ghost use Rattle.bends.specs.Bends.{bend_of, S'', room_of, BendsFit};
ghost use Rattle.bends.specs.Working.{columns_at, between, AxisFit, SumsFit};

use axes::{Grid, fill_columns, fill_factors, fill_slopes};
use chebyshev::evaluate_second_derivatives;

// T, T' and T'' of one axis, where its S, S' and S'' will stand.
fn evaluate_axis(
    grid: Grid,
    points: &[f64],
    at: usize,
    factors: &mut [f64],
    slopes: &mut [f64],
    bends: &mut [f64],
)
    requires { AxisFit grid.shape.order grid.rows at (length points.now) (length factors.old) (length slopes.old)
        (length bends.old) }
    ensures { (factors.new ≡ columns_at at grid.shape.order grid.rows T points.now factors.old) ×
        (slopes.new ≡ columns_at at grid.shape.order grid.rows T' points.now slopes.old) ×
        (bends.new ≡ columns_at at grid.shape.order grid.rows T'' points.now bends.old) }
{
    let end = at + grid.on_axis();
    evaluate_second_derivatives(
        grid.shape.order,
        grid.rows,
        points,
        &mut factors[at..end],
        &mut slopes[at..end],
        &mut bends[at..end],
    )
    .unwrap();
}

// The same stretch of three buffers, one after the other.
fn keep_three(
    from: usize,
    to: usize,
    first: &[f64],
    second: &[f64],
    third: &[f64],
    room: &mut [f64],
)
    requires { (from ≤ to) × (to ≤ length first.now) × (to ≤ length second.now) × (to ≤ length third.now) ×
        (length room.old ≡ 3 * (to - from)) }
    ensures { room.new ≡
        between from to first.now ++ (between from to second.now ++ between from to third.now) }
{
    let count = to - from;
    let twice = count + count;
    common::copy_column(count, &first[from..to], 0, room);
    common::copy_column(count, &second[from..to], count, room);
    common::copy_column(count, &third[from..to], twice, room);
}

// S'' of an axis, of sums over T'', from place `at` on.
fn fill_bends(grid: Grid, ddtn: &[f64], node_polynomials: &[f64], at: usize, bends: &mut [f64])
    requires { ColumnsFit grid.shape.order grid.rows at (length ddtn.now) (length node_polynomials.now) (length bends.old) }
    ensures { bends.new ≡
        made_at (bend_of grid.shape.order grid.side) at grid.shape.order grid.rows ddtn.now node_polynomials.now bends.old }
{
    let share = 2.0 / common::float_of(grid.shape.order);
    let per_side = 2.0 / grid.side;
    let bend = |sum: f64| ((sum * share) * per_side) * per_side;
    fill_columns(bend, grid, ddtn, node_polynomials, at, bends);
}

// S, S' and S'' of one axis, from T, T' and T'' in the room.
fn sum_axis(
    grid: Grid,
    node_polynomials: &[f64],
    at: usize,
    room: &[f64],
    factors: &mut [f64],
    slopes: &mut [f64],
    bends: &mut [f64],
)
    requires { SumsFit grid.shape.order grid.rows at (length node_polynomials.now) (length room.now) (length factors.old)
        (length slopes.old) (length bends.old) }
    ensures { let count = grid.shape.order * grid.rows in
        (factors.new ≡ made_at (factor_of grid.shape.order) at grid.shape.order grid.rows
        (between 0 count room.now) node_polynomials.now factors.old) ×
        (slopes.new ≡ made_at (slope_of grid.shape.order grid.side) at grid.shape.order grid.rows
        (between count (count + count) room.now) node_polynomials.now slopes.old) ×
        (bends.new ≡ made_at (bend_of grid.shape.order grid.side) at grid.shape.order grid.rows
        (between (count + count) (count + count + count) room.now) node_polynomials.now bends.old) }
{
    let count = grid.on_axis();
    let twice = count + count;
    let thrice = twice + count;
    fill_factors(grid, &room[0..count], node_polynomials, at, factors);
    fill_slopes(grid, &room[count..twice], node_polynomials, at, slopes);
    fill_bends(grid, &room[twice..thrice], node_polynomials, at, bends);
}

// S, S' and S'' of one axis. T, T' and T'' are found where these will stand, and kept in the room.
fn fill_bent_axis(
    grid: Grid,
    points: &[f64],
    node_polynomials: &[f64],
    at: usize,
    room: &mut [f64],
    factors: &mut [f64],
    slopes: &mut [f64],
    bends: &mut [f64],
)
    requires fits { AxisFit grid.shape.order grid.rows at (length points.now) (length factors.old) (length slopes.old)
        (length bends.old) }
    requires polynomials { length node_polynomials.now ≡ grid.shape.order * grid.shape.order }
    requires room { length room.old ≡ 3 * grid.shape.order * grid.rows }
    ensures { (room.new ≡ room_of grid.shape.order grid.rows (λ i. get_or points.now i nan)) ×
        (factors.new ≡ columns_at at grid.shape.order grid.rows (S grid.shape.order node_polynomials.now)
        points.now factors.old) ×
        (slopes.new ≡ columns_at at grid.shape.order grid.rows (S' grid.shape.order grid.side node_polynomials.now)
        points.now slopes.old) ×
        (bends.new ≡ columns_at at grid.shape.order grid.rows (S'' grid.shape.order grid.side node_polynomials.now)
        points.now bends.old) }
{
    evaluate_axis(grid, points, at, factors, slopes, bends);
    keep_three(at, at + grid.on_axis(), factors, slopes, bends, room);
    sum_axis(grid, node_polynomials, at, room, factors, slopes, bends);
}

// S, S' and S'' of all axes. The room ends as T, T' and T'' of the last axis.
pub fn fill_bent_axes(
    grid: Grid,
    points: &[f64],
    node_polynomials: &[f64],
    room: &mut [f64],
    factors: &mut [f64],
    slopes: &mut [f64],
    bends: &mut [f64],
)
    requires { BendsFit grid.shape.dimension grid.shape.order grid.rows (length points.now) (length node_polynomials.now)
        (length room.old) (length factors.old) (length slopes.old) (length bends.old) }
    ensures { (room.new ≡ room_of grid.shape.order grid.rows
        (λ i. matrix grid.rows points.now i (grid.shape.dimension - 1))) ×
        (factors.new ≡ column_major grid.rows (grid.shape.dimension * grid.shape.order)
        (on_axes (S grid.shape.order node_polynomials.now) grid.shape.order (matrix grid.rows points.now))) ×
        (slopes.new ≡ column_major grid.rows (grid.shape.dimension * grid.shape.order)
        (on_axes (S' grid.shape.order grid.side node_polynomials.now) grid.shape.order
        (matrix grid.rows points.now))) ×
        (bends.new ≡ column_major grid.rows (grid.shape.dimension * grid.shape.order)
        (on_axes (S'' grid.shape.order grid.side node_polynomials.now) grid.shape.order
        (matrix grid.rows points.now))) }
{
    let count = grid.on_axis();
    for axis in 0..grid.shape.dimension {
        let from = axis * grid.rows;
        let end = from + grid.rows;
        fill_bent_axis(
            grid,
            &points[from..end],
            node_polynomials,
            axis * count,
            room,
            factors,
            slopes,
            bends,
        );
    }
}
