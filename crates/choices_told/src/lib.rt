// What masked argmax and rank cutoff answer, told in a lent slice.
#![tactic(auto)]

ghost use Rattle.std.specs.Prelude.{◌≡◌};
ghost use Rattle.common.specs.Numbers.{told, told_number};
ghost use Rattle.choices_told.specs.Told.{argmax_told, cutoff_told};
ghost use Rattle.choices_told.specs.Working.{place_told};

use answers::with_length;
use choices::{argmax_masked, calculate_singular_values_cutoff};
use common::Refusal;

// A place in the lent answer, or a refusal.
fn tell_place(found: Result<usize, Refusal>, place: &mut [usize]) -> Result<(), Refusal>
    ensures { (told_number result, place.new) ≡ place_told (told found) place.old }
{
    let is_fit = place.len() == 1;
    let at = with_length(found, is_fit)?;
    place[0] = at;
    Ok(())
}

// The first place of the largest size among the entries whose mask byte is 1, or 0.
pub fn argmax_masked_told(entries: &[f64], mask: &[u8], place: &mut [usize]) -> Result<(), Refusal>
    ensures { (told_number result, place.new) ≡ argmax_told entries.now mask.now place.old }
{
    tell_place(argmax_masked(entries, mask), place)
}

// The first place from which on the singular values matter less than the tolerance, or how many there are.
pub fn calculate_singular_values_cutoff_told(
    values: &[f64],
    epsilon: f64,
    place: &mut [usize],
) -> Result<(), Refusal>
    ensures { (told_number result, place.new) ≡ cutoff_told values.now epsilon place.old }
{
    tell_place(calculate_singular_values_cutoff(values, epsilon), place)
}
