// The root of a whole number of 53 or 54 digits, to 53 digits: by one step of Newton's from a guess, and one division.
ghost use Rattle.std.specs.Prelude.{◌+◌, ◌*◌, ◌^◌, ◌≤◌, ◌<◌};
ghost use Rattle.roots.specs.Roots.{Nearest};
ghost use Rattle.roots.specs.Working.{Even};

use crate::guesses::guess;

// The largest whole number whose square is at most m, from one that is no smaller.
fn lowered(m: u64, from: u64) -> u64
    requires above { m < (from + 1) * (from + 1) }
    requires small { from < 2 ^ 29 }
    ensures below { result * result ≤ m }
    ensures above { m < (result + 1) * (result + 1) }
{
    let mut root = from;
    while m < root * root {
        root -= 1;
    }
    root
}

// The same from a guess: a step of Newton's gives that number, or seldom the next one. The guess is halved with m, so that the
// digits are divided, of which the compiler knows that they are large.
fn floor_root(m: u64, digits: u64, odd: u64, bits: u64) -> u64
    requires { Even m digits odd }
    ensures below { result * result ≤ m }
    ensures above { m < (result + 1) * (result + 1) }
{
    let near = guess(digits, bits);
    let root = ((near << odd) + digits / near) / 2;
    if root * root <= m {
        return root;
    }
    lowered(m, root)
}

// The whole number nearest to the root of m * 2 ^ 52: 27 digits of it by `floor_root`, 26 by a division, and one more where what
// is then left is above half. What is divided by is 64 * high, in words by which the compiler sees that it passes 32 bits.
pub(crate) fn nearest_root(m: u64, digits: u64, odd: u64, bits: u64) -> u64
    requires { Even m digits odd }
    ensures { Nearest (m * 2 ^ 52) result }
{
    let high = floor_root(m, digits, odd, bits);
    let divisor = high * 64 % 0x1_0000_0000 + 0x1_0000_0000;
    let rest = (m - high * high) * 0x8000_0000;
    let low = rest / divisor;
    let left = rest % divisor;
    let whole = divisor * 0x10_0000 + low;
    if low * low + whole < left * 0x20_0000 {
        return whole + 1;
    }
    whole
}
