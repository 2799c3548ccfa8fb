// The block that is approximated: its entries, and its rows and columns less what earlier terms say of them.
ghost use Rattle.std.specs.Prelude.{◌≡◌, ℕ, ◌+◌, ◌*◌, ◌<◌, ◌≤◌, length};
ghost use Rattle.common.specs.Matrices.{matrix};
ghost use Rattle.aca_lines.specs.Lines.{row_less, column_less};
ghost use Rattle.aca_lines.specs.Working.{less_these};

use crate::reader::sample;
use crate::terms::sum_terms;

// Each entry of a line of the block, less what stands in its place. A line's entries stand so far apart, from the first on: a row's
// by a column's length, and a column's by 1, as if each column had a row alone.
fn subtract_from(samples: &[f64], apart: usize, first: usize, line: &mut [f64])
    requires { (c : ℕ) → c < length line.old → c * apart + first < length samples.now }
    ensures { line.new ≡ less_these (matrix apart samples.now first) line.old }
{
    for c in 0..line.len() {
        line[c] = sample(samples, apart, first, c) - line[c];
    }
}

// Row i of the block, of so many rows, less the first k terms.
pub fn read_row(
    samples: &[f64],
    rows: usize,
    i: usize,
    k: usize,
    u: &[f64],
    v: &[f64],
    row: &mut [f64],
)
    requires i_lt_rows { (i < rows) × (length row.old * rows ≤ length samples.now) }
    requires rows_in_bounds { (k * rows ≤ length u.now) × (k * length row.old ≤ length v.now) }
    ensures { row.new
        ≡ row_less rows (length row.old) samples.now u.now v.now k i }
{
    sum_terms(k, v, u, i, rows, row);
    subtract_from(samples, rows, i, row);
}

// Column j of the block, of so many columns, less the first k terms.
pub fn read_column(
    samples: &[f64],
    columns: usize,
    j: usize,
    k: usize,
    u: &[f64],
    v: &[f64],
    column: &mut [f64],
)
    requires j_lt_columns { (j < columns) × (columns * length column.old ≤ length samples.now) }
    requires column_in_bounds { (k * length column.old ≤ length u.now) × (k * columns ≤ length v.now) }
    ensures { column.new
        ≡ column_less (length column.old) columns samples.now u.now v.now k j }
{
    sum_terms(k, u, v, j, columns, column);
    subtract_from(samples, 1, j * column.len(), column);
}
