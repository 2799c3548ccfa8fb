// The block, column by column: squares of differences, axis after axis, and then their roots. Each loop runs over one column.
ghost use Rattle.std.specs.Prelude.{◌≡◌, ◌+◌, ◌*◌, ◌<◌, ◌≤◌, length, get_or};
ghost use Rattle.std.specs.Float.{nan};
ghost use Rattle.common.specs.Floats.{plus};
ghost use Rattle.common.specs.Lists.{tabulate};
ghost use Rattle.common.specs.Matrices.{column_major};
ghost use Rattle.roots.specs.Values.{root};
ghost use Rattle.distances.specs.Distances.{apart};
ghost use Rattle.distances.specs.Working.{between, Points};

// The squares on the first axis, between the sources and one target.
fn square_column(rows: usize, sources: &[f64], coordinate: f64, column: &mut [f64])
    requires { (rows ≤ length sources.now) × (length column.old ≡ rows) }
    ensures { column.new ≡ tabulate rows (λ i. apart (get_or sources.now i nan) coordinate) }
{
    for i in 0..rows {
        let difference = sources[i] - coordinate;
        column[i] = difference * difference;
    }
}

// Adds those on a further axis, whose sources begin at a place.
fn add_square_column(rows: usize, sources: &[f64], from: usize, coordinate: f64, column: &mut [f64])
    requires { (from + rows ≤ length sources.now) × (length column.old ≡ rows) }
    ensures { column.new ≡
        tabulate rows (λ i. plus (get_or column.old i nan) (apart (get_or sources.now (from + i) nan) coordinate)) }
{
    for i in 0..rows {
        let difference = sources[from + i] - coordinate;
        column[i] = column[i] + difference * difference;
    }
}

// Sums become distances.
fn root_column(rows: usize, column: &mut [f64])
    requires { length column.old ≡ rows }
    ensures { column.new ≡ tabulate rows (λ i. root (get_or column.old i nan)) }
{
    for i in 0..rows {
        column[i] = roots::square_root(column[i]);
    }
}

// The distances from all sources to one target.
fn fill_column(
    dimension: usize,
    rows: usize,
    sources: &[f64],
    targets: &[f64],
    target: usize,
    column: &mut [f64],
)
    requires { Points dimension rows (length sources.now) (length targets.now) × (target < rows) × (length column.old ≡ rows) }
    ensures { column.new ≡
        tabulate rows (λ i. between dimension rows sources.now targets.now i target) }
{
    square_column(rows, sources, targets[target], column);
    let mut at = rows;
    for axis in 1..dimension {
        add_square_column(rows, sources, at, targets[at + target], column);
        at += rows;
    }
    root_column(rows, column);
}

// The distances from all sources to all targets, a column a target, each written into its own stretch.
pub(crate) fn fill_block(
    dimension: usize,
    rows: usize,
    sources: &[f64],
    targets: &[f64],
    block: &mut [f64],
)
    requires { Points dimension rows (length sources.now) (length targets.now) × (length block.old ≡ rows * rows) }
    ensures { block.new ≡
        column_major rows rows (between dimension rows sources.now targets.now) }
{
    let mut at = 0;
    for target in 0..rows {
        let end = at + rows;
        fill_column(
            dimension,
            rows,
            sources,
            targets,
            target,
            &mut block[at..end],
        );
        at = end;
    }
}
