// One column of the Chebyshev polynomials T at a list of points, of T with T', or of T, T' and T'': from the two columns before it.
#![tactic(auto)]

ghost use Rattle.std.specs.Prelude.{◌≡◌, ◌+◌, ◌*◌, ◌≤◌, length};
ghost use Rattle.common.specs.Lists.{stretch};
ghost use Rattle.polynomial_columns.specs.Working.{later_T, later_T', later_T'', column_T, column_T', column_T''};

// The next column of T, at place `at`, from the two columns before it.
fn next_polynomials(points: &[f64], at: usize, tn: &mut [f64])
    requires { let rows = length points.now in (rows + rows ≤ at) × (at + rows ≤ length tn.old) }
    ensures { let rows = length points.now in tn.new ≡ stretch at rows (later_T rows points.now tn.old at) tn.old }
{
    let rows = points.len();
    let before = at - rows;
    let last = before - rows;
    for i in 0..rows {
        tn[at + i] = (2.0 * points[i]) * tn[before + i] - tn[last + i];
    }
}

// The next columns of T and T', at place `at`, from the columns before them; 2x and T before are read once for both.
fn next_columns(points: &[f64], at: usize, tn: &mut [f64], dtn: &mut [f64])
    requires { let rows = length points.now in
        (rows + rows ≤ at) × (at + rows ≤ length tn.old) × (at + rows ≤ length dtn.old) }
    ensures { let rows = length points.now in
        (tn.new ≡ stretch at rows (later_T rows points.now tn.old at) tn.old) ×
        (dtn.new ≡ stretch at rows (later_T' rows points.now tn.old dtn.old at) dtn.old) }
{
    let rows = points.len();
    let before = at - rows;
    let last = before - rows;
    for i in 0..rows {
        let twice = 2.0 * points[i];
        let t = tn[before + i];
        tn[at + i] = twice * t - tn[last + i];
        dtn[at + i] = ((2.0 * t) + (twice * dtn[before + i])) - dtn[last + i];
    }
}

// The next columns of T, T' and T'', at place `at`, from the columns before them; 2x, T and T' before are read once for all.
fn next_three(points: &[f64], at: usize, tn: &mut [f64], dtn: &mut [f64], ddtn: &mut [f64])
    requires { let rows = length points.now in
        (rows + rows ≤ at) × (at + rows ≤ length tn.old) × (at + rows ≤ length dtn.old) ×
        (at + rows ≤ length ddtn.old) }
    ensures { let rows = length points.now in
        (tn.new ≡ stretch at rows (later_T rows points.now tn.old at) tn.old) ×
        (dtn.new ≡ stretch at rows (later_T' rows points.now tn.old dtn.old at) dtn.old) ×
        (ddtn.new ≡ stretch at rows (later_T'' rows points.now dtn.old ddtn.old at) ddtn.old) }
{
    let rows = points.len();
    let before = at - rows;
    let last = before - rows;
    for i in 0..rows {
        let twice = 2.0 * points[i];
        let t = tn[before + i];
        let d = dtn[before + i];
        tn[at + i] = twice * t - tn[last + i];
        dtn[at + i] = ((2.0 * t) + (twice * d)) - dtn[last + i];
        ddtn[at + i] = ((4.0 * d) + (twice * ddtn[before + i])) - ddtn[last + i];
    }
}

// Column j of T.
pub fn polynomial_column(j: usize, points: &[f64], tn: &mut [f64])
    requires { (j + 1) * length points.now ≤ length tn.old }
    ensures { let rows = length points.now in let at = j * rows in
        tn.new ≡ stretch at rows (column_T j rows points.now tn.old at) tn.old }
{
    let rows = points.len();
    let at = j * rows;
    if j == 0 {
        common::fill_with(1.0, rows, at, tn);
    } else if j == 1 {
        common::copy_column(rows, points, at, tn);
    } else {
        next_polynomials(points, at, tn);
    }
}

// Column j of T and of T'.
pub fn both_columns(j: usize, points: &[f64], tn: &mut [f64], dtn: &mut [f64])
    requires { let end = (j + 1) * length points.now in (end ≤ length tn.old) × (end ≤ length dtn.old) }
    ensures { let rows = length points.now in let at = j * rows in
        (tn.new ≡ stretch at rows (column_T j rows points.now tn.old at) tn.old) ×
        (dtn.new ≡ stretch at rows (column_T' j rows points.now tn.old dtn.old at) dtn.old) }
{
    let rows = points.len();
    let at = j * rows;
    if j == 0 {
        common::fill_with(1.0, rows, at, tn);
        common::fill_with(0.0, rows, at, dtn);
    } else if j == 1 {
        common::copy_column(rows, points, at, tn);
        common::fill_with(1.0, rows, at, dtn);
    } else {
        next_columns(points, at, tn, dtn);
    }
}

// Column j of T, T' and T''. T'' begins with two columns of zeros.
pub fn three_columns(j: usize, points: &[f64], tn: &mut [f64], dtn: &mut [f64], ddtn: &mut [f64])
    requires { let end = (j + 1) * length points.now in
        (end ≤ length tn.old) × (end ≤ length dtn.old) × (end ≤ length ddtn.old) }
    ensures { let rows = length points.now in let at = j * rows in
        (tn.new ≡ stretch at rows (column_T j rows points.now tn.old at) tn.old) ×
        (dtn.new ≡ stretch at rows (column_T' j rows points.now tn.old dtn.old at) dtn.old) ×
        (ddtn.new ≡ stretch at rows (column_T'' j rows points.now dtn.old ddtn.old at) ddtn.old) }
{
    let rows = points.len();
    let at = j * rows;
    if j < 2 {
        both_columns(j, points, tn, dtn);
        common::fill_with(0.0, rows, at, ddtn);
    } else {
        next_three(points, at, tn, dtn, ddtn);
    }
}
