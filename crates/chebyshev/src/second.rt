// The second derivatives T'' of the Chebyshev polynomials, with T and T', at a list of points, column by column.
ghost use Rattle.std.specs.Prelude.{◌≡◌, ◌*◌, length};
ghost use Rattle.common.specs.Numbers.{told_number};
ghost use Rattle.polynomial_columns.specs.Recurrence.{T, T', T''};
ghost use Rattle.chebyshev.specs.Polynomials.{at_points};
ghost use Rattle.chebyshev.specs.Second.{second_number, second_call};

use crate::polynomials::check_polynomials;
use common::Refusal;
use polynomial_columns::three_columns;

fn fill_three(order: usize, points: &[f64], tn: &mut [f64], dtn: &mut [f64], ddtn: &mut [f64])
    requires { let size = order * length points.now in
        (length tn.old ≡ size) × (length dtn.old ≡ size) × (length ddtn.old ≡ size) }
    ensures { let rows = length points.now in
        (tn.new ≡ at_points T order rows points.now) × (dtn.new ≡ at_points T' order rows points.now) ×
        (ddtn.new ≡ at_points T'' order rows points.now) }
{
    for j in 0..order {
        three_columns(j, points, tn, dtn, ddtn);
    }
}

// The lowest refusal.
fn check_second(
    order: usize,
    rows: usize,
    points: usize,
    tn: usize,
    dtn: usize,
    ddtn: usize,
) -> Result<(), Refusal>
    ensures { told_number result ≡ second_number order rows points tn dtn ddtn }
{
    check_polynomials(order, rows, true, points, tn, dtn)?;
    if ddtn != tn {
        return Err(Refusal::WrongLength);
    }
    Ok(())
}

// T, T' and T'' of the columns below the order, one row a point.
pub fn evaluate_second_derivatives(
    order: usize,
    rows: usize,
    points: &[f64],
    tn: &mut [f64],
    dtn: &mut [f64],
    ddtn: &mut [f64],
) -> Result<(), Refusal>
    ensures { (told_number result, (tn.new, dtn.new, ddtn.new)) ≡
        second_call order rows points.now (tn.old, dtn.old, ddtn.old) }
{
    check_second(order, rows, points.len(), tn.len(), dtn.len(), ddtn.len())?;
    fill_three(order, points, tn, dtn, ddtn);
    Ok(())
}
