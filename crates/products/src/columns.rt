// Columns that are products of one column an axis, each written straight into its own stretch.
ghost use Rattle.std.specs.Prelude.{◌≡◌, ◌-◌, ◌*◌, ◌^◌, ◌<◌, ◌≤◌, length, get_or};
ghost use Rattle.std.specs.Float.{nan};
ghost use Rattle.common.specs.Floats.{times};
ghost use Rattle.common.specs.Lists.{tabulate};
ghost use Rattle.common.specs.Matrices.{column_major};
ghost use Rattle.products.specs.Products.{three, chain, place_of, product_of, started_of, Sources};
ghost use Rattle.products.specs.Working.{second_axis, third_axis};

use axes::Grid;

// The axes of a product's sources, in their order; those past the dimension are not read.
#[derive(Clone, Copy, PartialEq, Eq)]
pub struct ThreeAxes {
    pub first: usize,
    pub second: usize,
    pub third: usize,
}

// Where the column of a node's index on an axis begins in a buffer.
fn place_of(grid: Grid, axis: usize, node: usize) -> usize
    requires { axis < grid.shape.dimension }
    ensures { result ≡ place_of grid.shape.dimension grid.shape.order grid.rows node axis }
{
    let shape = grid.shape;
    (axis * shape.order + shape.index_on(axis, node)) * grid.rows
}

fn multiply_two(rows: usize, first: &[f64], second: &[f64], column: &mut [f64])
    requires { (length first.now ≡ rows) × (length second.now ≡ rows) × (length column.old ≡ rows) }
    ensures { column.new ≡
        tabulate rows (λ i. times (get_or first.now i nan) (get_or second.now i nan)) }
{
    for i in 0..rows {
        column[i] = first[i] * second[i];
    }
}

// One pass for three, and not two of two: each row is loaded and stored once.
fn multiply_three(rows: usize, first: &[f64], second: &[f64], third: &[f64], column: &mut [f64])
    requires { (length first.now ≡ rows) × (length second.now ≡ rows) × (length third.now ≡ rows) ×
        (length column.old ≡ rows) }
    ensures { column.new ≡ tabulate rows
        (λ i. times (times (get_or first.now i nan) (get_or second.now i nan)) (get_or third.now i nan)) }
{
    for i in 0..rows {
        column[i] = (first[i] * second[i]) * third[i];
    }
}

// The product of as many columns as the dimension says.
fn multiply(
    dimension: usize,
    rows: usize,
    first: &[f64],
    second: &[f64],
    third: &[f64],
    column: &mut [f64],
)
    requires { (1 ≤ dimension) × (dimension ≤ 3) × (length first.now ≡ rows) × (length second.now ≡ rows) ×
        (length third.now ≡ rows) × (length column.old ≡ rows) }
    ensures { column.new ≡ tabulate rows
        (λ i. chain (dimension - 1) (λ m. get_or (three first.now second.now third.now m) i nan)) }
{
    if dimension == 1 {
        common::copy_column(rows, first, 0, column);
    } else if dimension == 2 {
        multiply_two(rows, first, second, column);
    } else {
        multiply_three(rows, first, second, third, column);
    }
}

// The column of one node.
fn fill_product(
    grid: Grid,
    axes: ThreeAxes,
    node: usize,
    first: &[f64],
    second: &[f64],
    third: &[f64],
    column: &mut [f64],
)
    requires { Sources grid.shape.dimension grid.shape.order grid.rows (three axes.first axes.second axes.third)
        (three first.now second.now third.now) × (length column.old ≡ grid.rows) }
    ensures { column.new ≡ tabulate grid.rows
        (λ i. product_of grid.shape.dimension grid.shape.order grid.rows (three axes.first axes.second axes.third)
        (three first.now second.now third.now) i node) }
{
    let rows = grid.rows;
    let a = place_of(grid, axes.first, node);
    let b = place_of(grid, axes.second, node);
    let c = place_of(grid, axes.third, node);
    let a_end = a + rows;
    let b_end = b + rows;
    let c_end = c + rows;
    multiply(
        grid.shape.dimension,
        rows,
        &first[a..a_end],
        &second[b..b_end],
        &third[c..c_end],
        column,
    );
}

// The columns of all nodes, the last axis fastest.
pub fn fill_products(
    grid: Grid,
    axes: ThreeAxes,
    first: &[f64],
    second: &[f64],
    third: &[f64],
    out: &mut [f64],
)
    requires { Sources grid.shape.dimension grid.shape.order grid.rows (three axes.first axes.second axes.third)
        (three first.now second.now third.now) × (length out.old ≡ grid.shape.order ^ grid.shape.dimension * grid.rows) }
    ensures { out.new ≡ column_major grid.rows (grid.shape.order ^ grid.shape.dimension)
        (product_of grid.shape.dimension grid.shape.order grid.rows (three axes.first axes.second axes.third)
        (three first.now second.now third.now)) }
{
    for node in 0..grid.shape.nodes() {
        let at = node * grid.rows;
        let end = at + grid.rows;
        fill_product(grid, axes, node, first, second, third, &mut out[at..end]);
    }
}

// The second axis of a product that starts with another, and the third.
fn second_axis(dimension: usize, axis: usize) -> usize
    ensures { result ≡ second_axis dimension axis }
{
    if dimension <= 1 || axis != 0 {
        return 0;
    }
    1
}

fn third_axis(dimension: usize, axis: usize) -> usize
    requires { 1 ≤ dimension }
    ensures { result ≡ third_axis dimension axis }
{
    if dimension <= 2 {
        return dimension - 1;
    }
    if axis == 2 { 1 } else { 2 }
}

// The columns of all nodes, for products that start with one axis of one buffer and go on with the others of another.
pub fn fill_started(grid: Grid, axis: usize, starts: &[f64], factors: &[f64], out: &mut [f64])
    requires { (axis < grid.shape.dimension) ×
        (length starts.now ≡ grid.shape.dimension * grid.shape.order * grid.rows) ×
        (length factors.now ≡ grid.shape.dimension * grid.shape.order * grid.rows) ×
        (length out.old ≡ grid.shape.order ^ grid.shape.dimension * grid.rows) }
    ensures { out.new ≡ column_major grid.rows (grid.shape.order ^ grid.shape.dimension)
        (started_of grid.shape.dimension grid.shape.order grid.rows axis starts.now factors.now) }
{
    let axes = ThreeAxes {
        first: axis,
        second: second_axis(grid.shape.dimension, axis),
        third: third_axis(grid.shape.dimension, axis),
    };
    fill_products(grid, axes, starts, factors, factors, out);
}
