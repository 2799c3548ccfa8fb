// One step of cross approximation: a row is read, and where it has a pivot, the column through it and one more term.
#![tactic(auto)]

ghost use Rattle.std.specs.Prelude.{◌≡◌, ◌<◌, length, set};
ghost use Rattle.common.specs.Refusals.{most_entries};
ghost use Rattle.aca_pivots.specs.Flags.{is_on, cleared};
ghost use Rattle.aca_pivots.specs.Largest.{argmax, pivot};
ghost use Rattle.aca_lines.specs.Lines.{row_less};
ghost use Rattle.aca_progress.specs.Steps.{step_of};
ghost use Rattle.aca_progress.specs.Working.{RowsKnown};
ghost use Rattle.aca_steps.specs.Memories.{behind};
ghost use Rattle.aca_steps.specs.Standing.{Ready, made, Stepped};
ghost use Rattle.aca_steps.specs.Working.{RowFits, lent, TermFits, ColumnTaken, TermStored};

use aca_lines::{cross, multiply, norm, read_column, read_row, store};
use aca_pivots::{Flags, Pivot, pick_on, place_on};
use aca_progress::{Progress, Reading, Step, grow, is_usable, judge, note, without};

// Row or column i is used, and is number k of those read.
fn mark(i: usize, k: usize, flags: &mut Flags, list: &mut [u16])
    requires { (i < most_entries) × (k < length list.old) }
    ensures flags_after { flags.new.words ≡ cleared flags.old.words i }
    ensures list_after { list.new ≡ set list.old k i }
{
    flags.clear(i);
    list[k] = i as u16;
}

// Reads row i, and answers its pivot.
fn take_row(
    samples: &[f64],
    rows: usize,
    i: usize,
    k: usize,
    read: usize,
    u: &[f64],
    v: &[f64],
    row_flags: &mut Flags,
    column_flags: &Flags,
    row_list: &mut [u16],
    row: &mut [f64],
) -> Pivot
    requires { RowFits (length samples.now) rows i k read u.now v.now row.old row_list.old }
    ensures value { result ≡ pivot row.new (is_on column_flags.now.words) }
    ensures row_after { row.new
        ≡ row_less rows (length row.old) samples.now u.now v.now k i }
    ensures row_flags_after { row_flags.new.words ≡ cleared row_flags.old.words i }
    ensures row_list_after { row_list.new ≡ set row_list.old read i }
{
    read_row(samples, rows, i, k, u, v, row);
    mark(i, read, row_flags, row_list);
    pick_on(row, column_flags)
}

// Reads column j and multiplies the row to 1 there, and answers the row to read next.
fn take_column(
    samples: &[f64],
    j: usize,
    k: usize,
    u: &[f64],
    v: &[f64],
    row_flags: &Flags,
    column_flags: &mut Flags,
    column_list: &mut [u16],
    row: &mut [f64],
    column: &mut [f64],
) -> usize
    requires { TermFits (length samples.now) k j (lent u.now v.now column_flags.old.words column_list.old row.old column.old) }
    ensures value { result ≡ argmax column.new (is_on row_flags.now.words) }
    ensures column_taken { ColumnTaken samples.now k j
        (lent u.now v.now column_flags.old.words column_list.old row.old column.old)
        row.new column.new column_flags.new.words column_list.new }
{
    let columns = row.len();
    multiply(1.0 / row[j], row);
    read_column(samples, columns, j, k, u, v, column);
    mark(j, k, column_flags, column_list);
    place_on(column, row_flags)
}

// The row has a pivot, in column j: the column is read, and the two are one more term.
fn accept(
    samples: &[f64],
    tolerance: f64,
    reading: Reading,
    s: Progress,
    j: usize,
    u: &mut [f64],
    v: &mut [f64],
    row_flags: &Flags,
    column_flags: &mut Flags,
    column_list: &mut [u16],
    row: &mut [f64],
    column: &mut [f64],
) -> Step
    requires { TermFits (length samples.now) s.rank j (lent u.old v.old column_flags.old.words column_list.old row.old column.old) ×
        RowsKnown reading.low (length column.old) row_flags.now.words }
    ensures { TermStored samples.now tolerance reading.restart s j row_flags.now.words
        (lent u.old v.old column_flags.old.words column_list.old row.old column.old)
        (step_of result) (lent u.new v.new column_flags.new.words column_list.new row.new column.new) }
{
    let k = s.rank;
    let next = take_column(
        samples,
        j,
        k,
        u,
        v,
        row_flags,
        column_flags,
        column_list,
        row,
        column,
    );
    let weight = norm(column, row);
    let shared = cross(k, u, v, column, row);
    store(k, u, v, column, row);
    judge(
        reading,
        column.len(),
        column_list.len(),
        tolerance,
        weight,
        row_flags,
        grow(s, weight, shared, next),
    )
}

// The step: it answers the state to go on with, or why the run stops.
pub fn advance(
    samples: &[f64],
    tolerance: f64,
    reading: Reading,
    s: Progress,
    u: &mut [f64],
    v: &mut [f64],
    row_flags: &mut Flags,
    column_flags: &mut Flags,
    row_list: &mut [u16],
    column_list: &mut [u16],
    row: &mut [f64],
    column: &mut [f64],
) -> Step
    requires { Ready (length samples.now) (behind u.old v.old row_list.old column_list.old row.old column.old) reading s
        row_flags.old.words column_flags.old.words }
    ensures { Stepped reading.low (made samples.now tolerance reading s
        (behind u.old v.old row_list.old column_list.old row.old column.old))
        (behind u.old v.old row_list.old column_list.old row.old column.old)
        (step_of result) (behind u.new v.new row_list.new column_list.new row.new column.new)
        row_flags.new.words column_flags.new.words }
{
    let k = s.rank;
    let i = s.next;
    let rows = column.len();
    let pivot = take_row(
        samples,
        rows,
        i,
        k,
        reading.read,
        u,
        v,
        row_flags,
        column_flags,
        row_list,
        row,
    );
    if !is_usable(reading.restart, pivot, s, column_flags) {
        return without(reading, rows, row_flags, s);
    }
    let with_pivot = note(s, pivot.size);
    let j = pivot.place;
    accept(
        samples,
        tolerance,
        reading,
        with_pivot,
        j,
        u,
        v,
        row_flags,
        column_flags,
        column_list,
        row,
        column,
    )
}
