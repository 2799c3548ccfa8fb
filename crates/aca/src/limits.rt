// The refusals of the cross approximation's call.
ghost use Rattle.std.specs.Prelude.{◌≡◌, cond, ◌≤◌};
ghost use Rattle.common.specs.Refusals.{most_entries};
ghost use Rattle.common.specs.Numbers.{told_number};
ghost use Rattle.aca.specs.Runs.{fits as fits_of, aca_number};

use crate::Lengths;
use common::Refusal;

// How many places the row list has, for a block that can give so many terms.
fn listed(restart: bool, rows: usize, most: usize) -> usize
    ensures { result ≡ cond «restart» rows most }
{
    if restart { rows } else { most }
}

// Every buffer has its length.
fn fits(restart: bool, rows: usize, columns: usize, lent: Lengths) -> bool
    requires { (rows ≤ most_entries) × (columns ≤ most_entries) }
    ensures { result ≡ fits_of «restart» rows columns lent }
{
    let most = rows.min(columns);
    let wanted = Lengths {
        samples: columns * rows,
        u: most * rows,
        v: most * columns,
        row_list: listed(restart, rows, most),
        column_list: most,
        row: columns,
        column: rows,
    };
    lent == wanted
}

pub(crate) fn check_aca(
    restart: bool,
    rows: usize,
    columns: usize,
    lent: Lengths,
) -> Result<(), Refusal>
    ensures { told_number result ≡ aca_number «restart» rows columns lent }
{
    if common::MOST_ENTRIES < rows || common::MOST_ENTRIES < columns {
        return Err(Refusal::NoCount);
    }
    if fits(restart, rows, columns, lent) {
        return Ok(());
    }
    Err(Refusal::WrongLength)
}
