// The terms of a run, u in one matrix and v in another, a column a term: their sums, their weight, and one more.
ghost use Rattle.std.specs.Prelude.{◌≡◌, ◌+◌, ◌*◌, ◌<◌, ◌≤◌, length, get_or};
ghost use Rattle.std.specs.Float.{nan};
ghost use Rattle.common.specs.Floats.{inner};
ghost use Rattle.aca_lines.specs.Lines.{entry, multiplied, as_column, norm as norm_of, cross as cross_of};
ghost use Rattle.aca_lines.specs.Working.{summed};

// Writes the sum of the first k columns of a matrix, each times a factor: entry `at` of each column of another.
pub(crate) fn sum_terms(
    k: usize,
    terms: &[f64],
    factors: &[f64],
    at: usize,
    stride: usize,
    line: &mut [f64],
)
    requires { (at < stride) × (k * stride ≤ length factors.now) × (k * length line.old ≤ length terms.now) }
    ensures { line.new ≡ summed (length line.old) k terms.now stride factors.now at }
{
    let n = line.len();
    common::fill_with(0.0, n, 0, line);
    for l in 0..k {
        common::add_scaled(n, terms, l * n, factors[l * stride + at], 0, line);
    }
}

pub fn multiply(factor: f64, line: &mut [f64])
    ensures { line.new ≡ multiplied factor line.old }
{
    for x in line.iter_mut() {
        *x = *x * factor;
    }
}

pub fn norm(column: &[f64], row: &[f64]) -> f64
    ensures { result ≡ norm_of column.now row.now }
{
    let a = common::dot(column.len(), column, 0, 1, column, 0, 1);
    let b = common::dot(row.len(), row, 0, 1, row, 0, 1);
    a * b
}

// The product of a line with the column of a matrix that begins at place `at`: as a stretch of its own, so that the compiler takes
// several entries a turn.
fn dot_with(terms: &[f64], at: usize, line: &[f64]) -> f64
    requires { at + length line.now ≤ length terms.now }
    ensures { result ≡ inner (length line.now) (λ i. get_or terms.now (at + i) nan) (entry line.now) }
{
    let n = line.len();
    let end = at + n;
    common::dot(n, &terms[at..end], 0, 1, line, 0, 1)
}

// What the new term has in common with the k earlier ones.
pub fn cross(k: usize, u: &[f64], v: &[f64], column: &[f64], row: &[f64]) -> f64
    requires { (k * length column.now ≤ length u.now) × (k * length row.now ≤ length v.now) }
    ensures { result ≡ cross_of k u.now v.now column.now row.now }
{
    let m = column.len();
    let n = row.len();
    let mut sum = 0.0;
    for l in 0..k {
        let a = dot_with(u, l * m, column);
        let b = dot_with(v, l * n, row);
        sum = sum + a * b;
    }
    sum
}

// Stores the column and the row as u and v of term k.
pub fn store(k: usize, u: &mut [f64], v: &mut [f64], column: &[f64], row: &[f64])
    requires column_in_bounds { k * length column.now + length column.now ≤ length u.old }
    requires row_in_bounds { k * length row.now + length row.now ≤ length v.old }
    ensures u_after { u.new ≡ as_column k column.now u.old }
    ensures v_after { v.new ≡ as_column k row.now v.old }
{
    let m = column.len();
    let n = row.len();
    common::copy_column(m, column, k * m, u);
    common::copy_column(n, row, k * n, v);
}
