// The Chebyshev polynomials T and their derivatives T' at a list of points, column by column.
ghost use Rattle.std.specs.Prelude.{◌≡◌, ◌*◌, length};
ghost use Rattle.common.specs.Numbers.{told_number};
ghost use Rattle.polynomial_columns.specs.Recurrence.{T, T'};
ghost use Rattle.chebyshev.specs.Polynomials.{at_points, polynomials_number, polynomials_call};

use common::{MOST_POINTS, Refusal, check_order, size_if};
use polynomial_columns::{both_columns, polynomial_column};

fn fill_polynomials(order: usize, points: &[f64], tn: &mut [f64])
    requires { length tn.old ≡ order * length points.now }
    ensures { tn.new ≡ at_points T order (length points.now) points.now }
{
    for j in 0..order {
        polynomial_column(j, points, tn);
    }
}

fn fill_both(order: usize, points: &[f64], tn: &mut [f64], dtn: &mut [f64])
    requires { let size = order * length points.now in (length tn.old ≡ size) × (length dtn.old ≡ size) }
    ensures { let rows = length points.now in
        (tn.new ≡ at_points T order rows points.now) × (dtn.new ≡ at_points T' order rows points.now) }
{
    for j in 0..order {
        both_columns(j, points, tn, dtn);
    }
}

// The lowest refusal. A product of counts is made once they are in range.
pub(crate) fn check_polynomials(
    order: usize,
    rows: usize,
    with_derivatives: bool,
    points: usize,
    tn: usize,
    dtn: usize,
) -> Result<(), Refusal>
    ensures { told_number result ≡ polynomials_number order rows with_derivatives points tn dtn }
{
    check_order(order)?;
    if MOST_POINTS < rows {
        return Err(Refusal::NoCount);
    }
    if points != rows || tn != order * rows || dtn != size_if(with_derivatives, tn) {
        return Err(Refusal::WrongLength);
    }
    Ok(())
}

// T, and T' where they are asked for, of the columns below the order, one row a point. Without derivatives `dtn` is empty.
pub fn evaluate_chebyshev_polynomials(
    order: usize,
    rows: usize,
    points: &[f64],
    with_derivatives: bool,
    tn: &mut [f64],
    dtn: &mut [f64],
) -> Result<(), Refusal>
    ensures { (told_number result, tn.new, dtn.new) ≡
        polynomials_call order rows with_derivatives points.now tn.old dtn.old }
{
    check_polynomials(
        order,
        rows,
        with_derivatives,
        points.len(),
        tn.len(),
        dtn.len(),
    )?;
    if with_derivatives {
        fill_both(order, points, tn, dtn);
    } else {
        fill_polynomials(order, points, tn);
    }
    Ok(())
}
