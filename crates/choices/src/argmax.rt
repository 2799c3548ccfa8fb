// Masked argmax: the limits of the call, around the search itself.
ghost use Rattle.std.specs.Prelude.{◌≡◌};
ghost use Rattle.common.specs.Numbers.{told};
ghost use Rattle.choices.specs.Argmax.{is_mask, argmax_call};

use common::Refusal;

// Every byte is 0 or 1. Going on after a wrong byte lets the compiler take many bytes at a time.
fn is_mask(mask: &[u8]) -> bool
    ensures { result ≡ is_mask mask.now }
{
    let mut are = true;
    for byte in mask {
        are = are & (*byte <= 1);
    }
    are
}

// The first place of the largest size among the entries whose byte in the mask is 1; 0 where none has a size above 0.
pub fn argmax_masked(entries: &[f64], mask: &[u8]) -> Result<usize, Refusal>
    ensures { told result ≡ argmax_call entries.now mask.now }
{
    let n = entries.len();
    if common::MOST_ENTRIES < n {
        return Err(Refusal::NoCount);
    }
    if mask.len() != n {
        return Err(Refusal::WrongLength);
    }
    if !is_mask(mask) {
        return Err(Refusal::NoMask);
    }
    Ok(aca_pivots::pick(entries, mask).place)
}
