// How many singular values to keep.
ghost use Rattle.std.specs.Prelude.{◌≡◌};
ghost use Rattle.common.specs.Numbers.{told};
ghost use Rattle.choices.specs.Cutoff.{squares, first_below, cutoff_call};

use common::Refusal;

// The squares, summed from the end.
fn sum_squares(values: &[f64]) -> f64
    ensures { result ≡ squares values.now }
{
    values.iter().rev().fold(0.0, |sum, x| sum + *x * *x)
}

// The first place from which on the squares sum up to less than a bound, or the length. From the end the sums never fall, so the
// first that is not below the bound ends the search.
fn first_below(bound: f64, values: &[f64]) -> usize
    ensures { result ≡ first_below bound values.now }
{
    let mut sum = 0.0;
    for at in (0..values.len()).rev() {
        sum = sum + values[at] * values[at];
        if !(sum < bound) {
            return at + 1;
        }
    }
    0
}

// The first place from which on the singular values matter less than the tolerance, by their squares; or how many there are.
pub fn calculate_singular_values_cutoff(values: &[f64], epsilon: f64) -> Result<usize, Refusal>
    ensures { told result ≡ cutoff_call values.now epsilon }
{
    let n = values.len();
    if n == 0 || common::MOST_ENTRIES < n {
        return Err(Refusal::NoCount);
    }
    let bound = sum_squares(values) * epsilon * epsilon;
    Ok(first_below(bound, values))
}
