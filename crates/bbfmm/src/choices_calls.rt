// Masked argmax and rank cutoff.
ghost use Rattle.std.specs.Prelude.{◌≡◌};
ghost use Rattle.choices_told.specs.Told.{argmax_told, cutoff_told};

use choices_told::{argmax_masked_told, calculate_singular_values_cutoff_told};
use common::told_number;

// The first place of the largest size among the entries whose mask byte is 1, or 0.
#[unsafe(no_mangle)]
pub extern "C" fn bbfmm_argmax_masked(entries: &[f64], mask: &[u8], place: &mut [usize]) -> u8
    ensures { (result, place.new) ≡ argmax_told entries.now mask.now place.old }
{
    told_number(argmax_masked_told(entries, mask, place))
}

// The first place from which on the singular values matter less than the tolerance, or how many there are.
#[unsafe(no_mangle)]
pub extern "C" fn bbfmm_calculate_singular_values_cutoff(
    values: &[f64],
    epsilon: f64,
    place: &mut [usize],
) -> u8
    ensures { (result, place.new) ≡ cutoff_told values.now epsilon place.old }
{
    told_number(calculate_singular_values_cutoff_told(values, epsilon, place))
}
