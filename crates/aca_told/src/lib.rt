// What cross approximation answers, told in two lent slices.
#![tactic(auto)]

ghost use Rattle.std.specs.Prelude.{◌≡◌, length};
ghost use Rattle.common.specs.Numbers.{number, told_number};
ghost use Rattle.aca.specs.Reports.{told};
ghost use Rattle.aca_steps.specs.Memories.{behind};
ghost use Rattle.aca_told.specs.Told.{crossed, cross_told};
ghost use Rattle.aca_told.specs.Working.{unfit_number, report_told};

use aca::{Report, aca_partial_pivoting};
use common::Refusal;

// The refusal of a call whose report does not fit: more rows or columns than there may be are refused first.
fn unfit(rows: usize, columns: usize) -> Refusal
    ensures { number result ≡ unfit_number rows columns }
{
    if common::MOST_ENTRIES < rows || common::MOST_ENTRIES < columns {
        return Refusal::NoCount;
    }
    Refusal::WrongLength
}

// A report in the lent slices, or a refusal.
fn tell_report(
    made: Result<Report, Refusal>,
    counts: &mut [usize],
    numbers: &mut [f64],
) -> Result<(), Refusal>
    requires { (length counts.old ≡ 3) × (length numbers.old ≡ 2) }
    ensures { (told_number result, counts.new, numbers.new)
        ≡ report_told (told made) counts.old numbers.old }
{
    let report = made?;
    counts[0] = report.rank;
    counts[1] = report.stop.number() as usize;
    counts[2] = report.rows_read;
    numbers[0] = report.estimate;
    numbers[1] = report.smallest;
    Ok(())
}

// The block as U times the transpose of V, with the rows and columns that were read for it, in either mode; rank, stop and rows read
// in `counts`, the estimate and the smallest pivot's size in `numbers`.
pub fn aca_partial_pivoting_told(
    rows: usize,
    columns: usize,
    samples: &[f64],
    epsilon: f64,
    restart: bool,
    u: &mut [f64],
    v: &mut [f64],
    row_list: &mut [u16],
    column_list: &mut [u16],
    row: &mut [f64],
    column: &mut [f64],
    counts: &mut [usize],
    numbers: &mut [f64],
) -> Result<(), Refusal>
    ensures { crossed (told_number result) (behind u.new v.new row_list.new column_list.new row.new column.new)
        counts.new numbers.new
        ≡ cross_told rows columns samples.now epsilon «restart»
        (behind u.old v.old row_list.old column_list.old row.old column.old)
        counts.old numbers.old }
{
    if counts.len() != 3 || numbers.len() != 2 {
        return Err(unfit(rows, columns));
    }
    let made = aca_partial_pivoting(
        rows,
        columns,
        samples,
        epsilon,
        restart,
        u,
        v,
        row_list,
        column_list,
        row,
        column,
    );
    tell_report(made, counts, numbers)
}
