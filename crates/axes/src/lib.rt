// What the coefficients need of each axis: S and S' at reference coordinates. They are the coefficients of a cell with one dimension,
// column a*p + n for node n of axis a.
#![tactic(auto)]

mod grids;

ghost use Rattle.std.specs.Prelude.{◌≡◌, cond, Float, ◌+◌, ◌*◌, ◌<◌, ◌≤◌, length, get_or};
ghost use Rattle.std.specs.Float.{nan};
ghost use Rattle.common.specs.Lists.{stretch};
ghost use Rattle.common.specs.Matrices.{matrix, column_major};
ghost use Rattle.axes.specs.Axes.{factor_of, slope_of, S, S', on_axes, sum_of, sums_of, made_at, ColumnsFit, AxesFit};
ghost use Rattle.axes.specs.Working.{at_nodes, AxisFit};

use chebyshev::evaluate_chebyshev_polynomials;
pub use grids::Grid;

// The cell that the points lie in: its dimension, how many nodes it has an axis, its side, and how many points lie in it. A call that
// takes one tests it.
#[derive(Clone, Copy)]
pub struct Cell {
    pub dimension: usize,
    pub order: usize,
    pub side: f64,
    pub rows: usize,
}

// The sums of one node's column, at place `at`: term k is polynomial k at each point times that at the node.
fn sum_column(
    order: usize,
    rows: usize,
    polynomials: &[f64],
    node: usize,
    node_polynomials: &[f64],
    at: usize,
    out: &mut [f64],
)
    requires { (length polynomials.now ≡ order * rows) × (node < order) × (length node_polynomials.now ≡ order * order) ×
        (at + rows ≤ length out.old) }
    ensures { out.new ≡
        stretch at rows (λ i. sum_of order rows polynomials.now node_polynomials.now i node) out.old }
{
    common::fill_with(0.0, rows, at, out);
    for k in 0..order {
        let factor = node_polynomials[k * order + node];
        common::add_scaled(rows, polynomials, k * rows, factor, at, out);
    }
}

// The sums of all nodes' columns, from place `at` on.
pub fn sum_columns(
    order: usize,
    rows: usize,
    polynomials: &[f64],
    node_polynomials: &[f64],
    at: usize,
    out: &mut [f64],
)
    requires { (length polynomials.now ≡ order * rows) × (length node_polynomials.now ≡ order * order) ×
        (at + order * rows ≤ length out.old) }
    ensures { out.new ≡
        stretch at (order * rows) (sums_of order rows polynomials.now node_polynomials.now) out.old }
{
    for node in 0..order {
        let to = at + node * rows;
        sum_column(order, rows, polynomials, node, node_polynomials, to, out);
    }
}

// Each of so many sums, from place `at` on, becomes what a function makes of it.
fn finish<F: Fn(f64) -> f64>(made_of: F, count: usize, at: usize, sums: &mut [f64])
    requires can { F.IsAlwaysCallable made_of }
    requires room { at + count ≤ length sums.old }
    ensures { (f : Float → Float) → ((x y : Float) → F.post made_of x y → y ≡ f x) →
        sums.new ≡ stretch at count (λ k. f (get_or sums.old (at + k) nan)) sums.old }
{
    for k in 0..count {
        sums[at + k] = made_of(sums[at + k]);
    }
}

// What a function makes of the sums of all nodes' columns, from place `at` on.
pub fn fill_columns<F: Fn(f64) -> f64>(
    made_of: F,
    grid: Grid,
    polynomials: &[f64],
    node_polynomials: &[f64],
    at: usize,
    out: &mut [f64],
)
    requires can { F.IsAlwaysCallable made_of }
    requires fits { ColumnsFit grid.shape.order grid.rows at (length polynomials.now) (length node_polynomials.now) (length out.old) }
    ensures { (f : Float → Float) → ((x y : Float) → F.post made_of x y → y ≡ f x) →
        out.new ≡ made_at f at grid.shape.order grid.rows polynomials.now node_polynomials.now out.old }
{
    let order = grid.shape.order;
    sum_columns(order, grid.rows, polynomials, node_polynomials, at, out);
    finish(made_of, grid.on_axis(), at, out);
}

// S of an axis, of sums over T, from place `at` on.
pub fn fill_factors(
    grid: Grid,
    tn: &[f64],
    node_polynomials: &[f64],
    at: usize,
    factors: &mut [f64],
)
    requires { ColumnsFit grid.shape.order grid.rows at (length tn.now) (length node_polynomials.now) (length factors.old) }
    ensures { factors.new ≡
        made_at (factor_of grid.shape.order) at grid.shape.order grid.rows tn.now node_polynomials.now factors.old }
{
    let nodes = common::float_of(grid.shape.order);
    let factor = |sum: f64| (sum * 2.0 - 1.0) / nodes;
    fill_columns(factor, grid, tn, node_polynomials, at, factors);
}

// S' of an axis, of sums over T', from place `at` on.
pub fn fill_slopes(grid: Grid, dtn: &[f64], node_polynomials: &[f64], at: usize, slopes: &mut [f64])
    requires { ColumnsFit grid.shape.order grid.rows at (length dtn.now) (length node_polynomials.now) (length slopes.old) }
    ensures { slopes.new ≡
        made_at (slope_of grid.shape.order grid.side) at grid.shape.order grid.rows dtn.now node_polynomials.now slopes.old }
{
    let share = 2.0 / common::float_of(grid.shape.order);
    let per_side = 2.0 / grid.side;
    let slope = |sum: f64| (sum * share) * per_side;
    fill_columns(slope, grid, dtn, node_polynomials, at, slopes);
}

// S of one axis, and S' if gradients are wanted. The polynomials and their derivatives on the axis stand in two buffers meanwhile.
fn fill_axis(
    grid: Grid,
    with_gradients: bool,
    points: &[f64],
    node_polynomials: &[f64],
    at: usize,
    tn: &mut [f64],
    dtn: &mut [f64],
    factors: &mut [f64],
    slopes: &mut [f64],
)
    requires { AxisFit grid.shape.order grid.rows with_gradients at (length points.now) (length node_polynomials.now)
        (length tn.old) (length dtn.old) (length factors.old) (length slopes.old) }
    ensures { (factors.new ≡ stretch at (grid.shape.order * grid.rows)
        (at_nodes (S grid.shape.order node_polynomials.now) grid.rows points.now) factors.old) ×
        (slopes.new ≡ cond with_gradients (stretch at (grid.shape.order * grid.rows)
        (at_nodes (S' grid.shape.order grid.side node_polynomials.now) grid.rows points.now)
        slopes.old) slopes.old) }
{
    let order = grid.shape.order;
    evaluate_chebyshev_polynomials(order, grid.rows, points, with_gradients, tn, dtn).unwrap();
    fill_factors(grid, tn, node_polynomials, at, factors);
    if with_gradients {
        fill_slopes(grid, dtn, node_polynomials, at, slopes);
    }
}

// S of all axes, and S' if gradients are wanted. The room of the values and of the gradients is worked in meanwhile.
pub fn fill_axes(
    grid: Grid,
    with_gradients: bool,
    points: &[f64],
    node_polynomials: &[f64],
    values: &mut [f64],
    gradients: &mut [f64],
    factors: &mut [f64],
    slopes: &mut [f64],
)
    requires { AxesFit grid.shape.dimension grid.shape.order grid.rows with_gradients (length points.now)
        (length node_polynomials.now) (length values.old) (length gradients.old) (length factors.old) (length slopes.old) }
    ensures { (factors.new ≡ column_major grid.rows (grid.shape.dimension * grid.shape.order)
        (on_axes (S grid.shape.order node_polynomials.now) grid.shape.order (matrix grid.rows points.now))) ×
        (slopes.new ≡ cond with_gradients (column_major grid.rows (grid.shape.dimension * grid.shape.order)
        (on_axes (S' grid.shape.order grid.side node_polynomials.now) grid.shape.order
        (matrix grid.rows points.now))) slopes.old) }
{
    let rows = grid.rows;
    let count = grid.on_axis();
    let derived = common::size_if(with_gradients, count);
    for axis in 0..grid.shape.dimension {
        let from = axis * rows;
        let end = from + rows;
        fill_axis(
            grid,
            with_gradients,
            &points[from..end],
            node_polynomials,
            axis * count,
            &mut values[..count],
            &mut gradients[..derived],
            factors,
            slopes,
        );
    }
}
