// Cross approximation, with its report in two lent slices.
ghost use Rattle.std.specs.Prelude.{◌≡◌};
ghost use Rattle.aca_steps.specs.Memories.{behind};
ghost use Rattle.aca_told.specs.Told.{crossed, cross_told};

use aca_told::aca_partial_pivoting_told;
use common::told_number;

// The block as U times the transpose of V, with the rows and columns that were read for it, in either mode; rank, stop and rows read
// in `counts`, the estimate and the smallest pivot's size in `numbers`.
#[unsafe(no_mangle)]
pub extern "C" fn bbfmm_aca_partial_pivoting(
    rows: usize,
    columns: usize,
    samples: &[f64],
    epsilon: f64,
    restart: bool,
    u: &mut [f64],
    v: &mut [f64],
    row_list: &mut [u16],
    column_list: &mut [u16],
    row: &mut [f64],
    column: &mut [f64],
    counts: &mut [usize],
    numbers: &mut [f64],
) -> u8
    ensures { crossed result (behind u.new v.new row_list.new column_list.new row.new column.new)
        counts.new numbers.new
        ≡ cross_told rows columns samples.now epsilon «restart»
        (behind u.old v.old row_list.old column_list.old row.old column.old)
        counts.old numbers.old }
{
    told_number(aca_partial_pivoting_told(
        rows,
        columns,
        samples,
        epsilon,
        restart,
        u,
        v,
        row_list,
        column_list,
        row,
        column,
        counts,
        numbers,
    ))
}
