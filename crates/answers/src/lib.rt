// What calls for C share whose answer is more than a number: the test of the slices that are lent for it.
#![tactic(auto)]

ghost use Rattle.std.specs.Prelude.{◌≡◌, true, IfOk, Ok};
ghost use Rattle.common.specs.Numbers.{told_number};
ghost use Rattle.answers.specs.Answers.{with_length};

use common::{Refusal, lower_of};

// What a call answers, where the slice that is lent for it has the right length; else the lower of its own refusal and the one for that.
pub fn with_length<T: Drop>(found: Result<T, Refusal>, is_fit: bool) -> Result<T, Refusal>
    ensures number { told_number result ≡ with_length (told_number found) is_fit }
    ensures values { IfOk result (λ x. (found ≡ Ok x) × (is_fit ≡ true)) }
{
    if is_fit {
        return found;
    }
    lower_of(found, Err(Refusal::WrongLength))
}
