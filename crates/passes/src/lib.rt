// One pass of the tensor transfer: data of p rows times an operator, a few rows of the operator at a time.
#![tactic(auto)]

ghost use Rattle.std.specs.Prelude.{◌≡◌, ℕ, ◌+◌, ◌*◌, ◌-◌, ◌<◌, ◌≤◌, length};
ghost use Rattle.common.specs.Floats.{zero₆₄, spaced};
ghost use Rattle.common.specs.Lists.{tabulate, stores};
ghost use Rattle.common.specs.Matrices.{matrix, column_major};
ghost use Rattle.passes.specs.Passes.{directed, passed};
ghost use Rattle.passes.specs.Working.{Spaced, StripOf, added, summed};

// How many rows of the operator a pass takes at a time: so few that their sums stay in registers and their entries take 512 bytes
// of stack, and enough that an entry of the values is read once for all of them.
const LANES: usize = 4;

// As many entries as that many rows of the highest order have.
const STRIP: usize = 64;

// Entries that stand `step` apart, stored `gap` apart: a row of the operator in its lane, or the sums of a column in the result.
fn copy_spaced(
    count: usize,
    source: &[f64],
    from: usize,
    step: usize,
    at: usize,
    gap: usize,
    out: &mut [f64],
)
    requires { Spaced count from step (length source.now) × Spaced count at gap (length out.old) }
    ensures { out.new ≡ stores (λ k. at + gap * k) (spaced source.now from step) count out.old }
{
    for k in 0..count {
        out[at + gap * k] = source[from + step * k];
    }
}

// Row r of the operator, as it stands or transposed, in one lane of the strip.
fn lay_row(
    order: usize,
    block: &[f64],
    transpose: bool,
    r: usize,
    lane: usize,
    strip: &mut [f64; STRIP],
)
    requires { (order ≤ 16) × (r < order) × (lane < 4) × (length block.now ≡ order * order) }
    ensures { strip.new ≡
        stores (λ s. lane + 4 * s) (directed transpose (matrix order block.now) r) order strip.old }
{
    if transpose {
        copy_spaced(order, block, r * order, 1, lane, LANES, strip);
    } else {
        copy_spaced(order, block, r, order, lane, LANES, strip);
    }
}

// Some rows of the operator, from row `first` on, side by side.
fn lay_strip(
    order: usize,
    block: &[f64],
    transpose: bool,
    first: usize,
    rows: usize,
    strip: &mut [f64; STRIP],
)
    requires { (order ≤ 16) × (first + rows ≤ order) × (rows ≤ 4) × (length block.now ≡ order * order) }
    ensures { StripOf order (directed transpose (matrix order block.now)) first rows strip.new }
{
    for k in 0..rows {
        lay_row(order, block, transpose, first + k, k, strip);
    }
}

// Adds one entry of the values, times its column of the strip, to the sums.
fn add_column(value: f64, strip: &[f64; STRIP], at: usize, sums: &mut [f64; LANES])
    requires { at + 4 ≤ 64 }
    ensures { sums.new ≡ tabulate 4 (added value strip.now at sums.old) }
{
    for k in 0..LANES {
        sums[k] = sums[k] + value * strip[at + k];
    }
}

// The sums of one column of the values with the strip's rows.
fn sum_strip(
    order: usize,
    values: &[f64],
    from: usize,
    strip: &[f64; STRIP],
    sums: &mut [f64; LANES],
)
    requires { (order ≤ 16) × (from + order ≤ length values.now) × (sums.old ≡ tabulate 4 (λ k. zero₆₄)) }
    ensures { sums.new ≡ tabulate 4 (summed order values.now from strip.now) }
{
    for s in 0..order {
        add_column(values[from + s], strip, s * LANES, sums);
    }
}

// The rows of a pass's result that the strip's rows give, column by column.
fn pass_strip(
    order: usize,
    width: usize,
    values: &[f64],
    strip: &[f64; STRIP],
    rows: usize,
    out: &mut [f64],
)
    requires { (order ≤ 16) × (rows ≤ 4) × (length values.now ≡ width * order) × (length out.old ≡ rows * width) }
    ensures { out.new ≡
        column_major width rows (λ c. summed order values.now (c * order) strip.now) }
{
    for c in 0..width {
        let mut sums = [0.0; LANES];
        sum_strip(order, values, c * order, strip, &mut sums);
        copy_spaced(rows, &sums, 0, 1, c, width, out);
    }
}

// One pass: a few rows of the operator at a time, as it stands or transposed.
pub fn pass(
    order: usize,
    width: usize,
    values: &[f64],
    block: &[f64],
    transpose: bool,
    out: &mut [f64],
)
    requires { (order ≤ 16) × (length values.now ≡ width * order) × (length block.now ≡ order * order) ×
        (length out.old ≡ order * width) }
    ensures { out.new ≡
        passed order width (matrix order values.now) (directed transpose (matrix order block.now)) }
{
    let mut strip = [0.0; STRIP];
    let mut at = 0;
    let mut r = 0;
    while r < order {
        let rows = LANES.min(order - r);
        let end = at + rows * width;
        lay_strip(order, block, transpose, r, rows, &mut strip);
        pass_strip(order, width, values, &strip, rows, &mut out[at..end]);
        at = end;
        r += rows;
    }
}
