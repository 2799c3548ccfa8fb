// What a step decides: whether a pivot is usable, what a term adds to the state, how the run goes on, and why it stops.
ghost use Rattle.std.specs.Prelude.{◌≡◌, ◌<◌};
ghost use Rattle.common.specs.Refusals.{most_entries};
ghost use Rattle.aca_pivots.specs.Flags.{is_on};
ghost use Rattle.aca_progress.specs.Steps.{step_of};
ghost use Rattle.aca_progress.specs.Crosses.{lesser as lesser_of, noted, grown, elsewhere as elsewhere_of, onward as onward_of};
ghost use Rattle.aca_progress.specs.Crosses.{without as without_of, judged};
ghost use Rattle.aca_progress.specs.Working.{RowsKnown, usable_here};

use crate::{Progress, Reading, Step, Stop};
use aca_pivots::{Flags, Pivot};
use std::ops::ControlFlow;

// The size below which a pivot is none: 2^-52.
const TINY: f64 = 2.220446049250313e-16;

// A pivot below 2^-52 is none; in restart mode one that is not at least that, and one in a column that was used. The state is at hand
// and is not asked: the test is absolute, however large the block is.
pub fn is_usable(restart: bool, pivot: Pivot, s: Progress, column_flags: &Flags) -> bool
    requires { pivot.place < most_entries }
    ensures { result ≡ usable_here «restart» (is_on column_flags.now.words) pivot }
{
    if restart {
        return column_flags.is_on(pivot.place) && TINY <= pivot.size;
    }
    !(pivot.size < TINY)
}

// The lesser of the smallest size so far, of which +0.0 says that there is none, and one size more. A NaN is below nothing. Pivots
// mostly fall, so that is asked first; 0.0 at the end, and not what was held, keeps the compiler from asking all three at each step.
fn lesser(smallest: f64, size: f64) -> f64
    ensures { result ≡ lesser_of smallest size }
{
    if size < smallest {
        return size;
    }
    if 0.0 < smallest {
        return smallest;
    }
    if !size.is_nan() {
        return size;
    }
    0.0
}

// The state with a pivot of this size accepted.
pub fn note(s: Progress, size: f64) -> Progress
    ensures { result ≡ noted s size }
{
    Progress {
        smallest: lesser(s.smallest, size),
        ..s
    }
}

pub fn grow(s: Progress, norm: f64, cross: f64, next: usize) -> Progress
    requires { s.rank < most_entries }
    ensures { result ≡ grown s norm cross next }
{
    Progress {
        estimate: s.estimate + (norm + 2.0 * cross),
        cross,
        rank: s.rank + 1,
        next,
        ..s
    }
}

// The run goes on at the lowest unread row, if there is one.
fn elsewhere(low: usize, rows: usize, row_flags: &Flags, s: Progress) -> Step
    requires { RowsKnown low rows row_flags.now.words }
    ensures { step_of result ≡ elsewhere_of rows (is_on row_flags.now.words) s }
{
    let next = row_flags.lowest_on(low, rows);
    if next == rows {
        return ControlFlow::Break((Stop::AllTried, s));
    }
    ControlFlow::Continue(Progress { next, ..s })
}

// After a row without a usable pivot.
pub fn without(reading: Reading, rows: usize, row_flags: &Flags, s: Progress) -> Step
    requires { RowsKnown reading.low rows row_flags.now.words }
    ensures { step_of result ≡ without_of reading.restart rows (is_on row_flags.now.words) s }
{
    if reading.restart {
        return elsewhere(reading.low, rows, row_flags, s);
    }
    ControlFlow::Break((Stop::Spent, s))
}

// After a term that is not the last.
fn onward(reading: Reading, rows: usize, row_flags: &Flags, s: Progress) -> Step
    requires { RowsKnown reading.low rows row_flags.now.words × (s.next < rows) }
    ensures { step_of result ≡ onward_of reading.restart rows (is_on row_flags.now.words) s }
{
    if reading.restart && !row_flags.is_on(s.next) {
        return elsewhere(reading.low, rows, row_flags, s);
    }
    ControlFlow::Continue(s)
}

// After a term: the tolerance is asked first, then whether there can be more, and then which row comes next.
pub fn judge(
    reading: Reading,
    rows: usize,
    most: usize,
    tolerance: f64,
    norm: f64,
    row_flags: &Flags,
    s: Progress,
) -> Step
    requires { RowsKnown reading.low rows row_flags.now.words × (s.next < rows) }
    ensures { step_of result ≡ judged reading.restart rows most tolerance norm (is_on row_flags.now.words) s }
{
    if norm <= tolerance * s.estimate {
        return ControlFlow::Break((Stop::Tolerable, s));
    }
    if s.rank == most {
        return ControlFlow::Break((Stop::UsedUp, s));
    }
    onward(reading, rows, row_flags, s)
}
