// Cross approximation of a block: the run of its steps, and the call.
ghost use Rattle.std.specs.Prelude.{◌≡◌, length};
ghost use Rattle.aca_steps.specs.Memories.{behind};
ghost use Rattle.aca_progress.specs.Working.{RowsKnown};
ghost use Rattle.aca_progress.specs.Steps.{stop_number};
ghost use Rattle.aca.specs.Reports.{told_report, told};
ghost use Rattle.aca.specs.Runs.{reported, steps_of, call, aca_call};
ghost use Rattle.aca.specs.Working.{Begun, ran, Ran};

use crate::limits::check_aca;
use crate::{Lengths, Report};
use aca_pivots::Flags;
use aca_progress::{Progress, Reading, Stop};
use aca_steps::advance;
use common::Refusal;
use std::ops::ControlFlow;

fn report(stop: Stop, s: Progress, rows_read: usize) -> Report
    ensures { told_report result ≡ reported (stop_number stop) s rows_read }
{
    Report {
        rank: s.rank,
        estimate: s.estimate,
        smallest: s.smallest,
        stop,
        rows_read,
    }
}

// A row is read a step, and none where there can be no term.
fn steps_of(places: usize, terms: usize) -> usize
    ensures { result ≡ steps_of places terms }
{
    if terms == 0 {
        return 0;
    }
    places
}

// The row below which all are read: asked on from where it was, so that no row is passed twice in a run.
fn risen(restart: bool, low: usize, rows: usize, row_flags: &Flags) -> usize
    requires { RowsKnown low rows row_flags.now.words }
    ensures { RowsKnown result rows row_flags.now.words }
{
    if restart {
        return row_flags.lowest_on(low, rows);
    }
    low
}

// At most as many steps as the row list has places: a row is read a step.
fn run(
    samples: &[f64],
    tolerance: f64,
    restart: bool,
    u: &mut [f64],
    v: &mut [f64],
    row_flags: &mut Flags,
    column_flags: &mut Flags,
    row_list: &mut [u16],
    column_list: &mut [u16],
    row: &mut [f64],
    column: &mut [f64],
) -> Report
    requires { Begun (length samples.now) (behind u.old v.old row_list.old column_list.old row.old column.old)
        row_flags.old.words column_flags.old.words }
    ensures { Ran (ran samples.now tolerance «restart»
        (behind u.old v.old row_list.old column_list.old row.old column.old))
        (behind u.old v.old row_list.old column_list.old row.old column.old)
        (told_report result) (behind u.new v.new row_list.new column_list.new row.new column.new) }
{
    let rows = column.len();
    let most = steps_of(row_list.len(), column_list.len());
    let mut s = Progress {
        estimate: 0.0,
        cross: 0.0,
        smallest: 0.0,
        rank: 0,
        next: 0,
    };
    let mut low = 0;
    for read in 0..most {
        let made = advance(
            samples,
            tolerance,
            Reading { restart, read, low },
            s,
            u,
            v,
            row_flags,
            column_flags,
            row_list,
            column_list,
            row,
            column,
        );
        match made {
            ControlFlow::Continue(after) => s = after,
            ControlFlow::Break((why, after)) => return report(why, after, read + 1),
        }
        low = risen(restart, low, rows, row_flags);
    }
    report(Stop::UsedUp, s, most)
}

// Terms whose sum, U by V, approximates the block until the run's own test stops it; and the rows and columns that were read for it.
// With `restart` a row without a usable pivot does not end the run: the lowest row that is unread comes next.
pub fn aca_partial_pivoting(
    rows: usize,
    columns: usize,
    samples: &[f64],
    epsilon: f64,
    restart: bool,
    u: &mut [f64],
    v: &mut [f64],
    row_list: &mut [u16],
    column_list: &mut [u16],
    row: &mut [f64],
    column: &mut [f64],
) -> Result<Report, Refusal>
    ensures { call (told result) (behind u.new v.new row_list.new column_list.new row.new column.new)
        ≡ aca_call rows columns samples.now epsilon «restart»
        (behind u.old v.old row_list.old column_list.old row.old column.old) }
{
    let lent = Lengths {
        samples: samples.len(),
        u: u.len(),
        v: v.len(),
        row_list: row_list.len(),
        column_list: column_list.len(),
        row: row.len(),
        column: column.len(),
    };
    check_aca(restart, rows, columns, lent)?;
    let mut row_flags = Flags::all_on();
    let mut column_flags = Flags::all_on();
    Ok(run(
        samples,
        epsilon * epsilon,
        restart,
        u,
        v,
        &mut row_flags,
        &mut column_flags,
        row_list,
        column_list,
        row,
        column,
    ))
}
