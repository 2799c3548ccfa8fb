// The square root of an f64, rounded to the nearest one. The language has no root of its own, so it is worked out on whole numbers.
#![tactic(auto)]

mod guesses;
mod whole;

ghost use Rattle.std.specs.Prelude.{◌≡◌, false, ◌+◌, ◌%◌, ◌^◌, ◌≤◌, ◌<◌, T};
ghost use Rattle.std.specs.Float.Ieee.{le};
ghost use Rattle.std.specs.Float.Ieee.Positive.{positive};
ghost use Rattle.roots.specs.Roots.{Rounded};
ghost use Rattle.roots.specs.Values.{SquareRoot};
ghost use Rattle.roots.specs.Working.{least_normal, Scaled};

use crate::whole::nearest_root;

// 2^52, the leading digit of 53.
const LEADING: u64 = 0x10_0000_0000_0000;

// The root of digits * 2 ^ (scale - 2096), for the 53 digits that end in the last 52 of `bits`. At an odd scale one more digit is
// taken, so that the scale can be halved.
fn scaled_root(bits: u64, scale: u64) -> f64
    requires least { 900 ≤ scale }
    requires most { scale < 3070 }
    ensures { Scaled (bits % 2 ^ 52 + 2 ^ 52) scale result }
{
    let digits = bits % LEADING + LEADING;
    let odd = scale % 2;
    let n = nearest_root(digits << odd, digits, odd, bits);
    f64::from_bits(scale / 2 * LEADING + n)
}

// The root of a number that is not subnormal.
fn normal_root(x: f64) -> f64
    requires above { T (positive x) }
    requires normal { T (le least_normal x) }
    ensures { Rounded x result }
{
    let bits = x.to_bits();
    scaled_root(bits, bits / LEADING + 1021)
}

// The root of a subnormal number: its digits, with the first one moved to the front, and above them what the guess asks of an
// exponent.
fn subnormal_root(x: f64) -> f64
    requires above { T (positive x) }
    requires subnormal { le least_normal x ≡ false }
    ensures { Rounded x result }
{
    let bits = x.to_bits();
    let zeros = bits.leading_zeros() as u64 - 11;
    scaled_root((bits << zeros) + zeros % 2 * LEADING, 1022 - zeros)
}

// The square root of x, rounded to the nearest f64. A zero and +infinity are their own roots; a NaN and what is below 0 have a NaN.
pub fn square_root(x: f64) -> f64
    ensures { SquareRoot x result }
{
    if f64::MIN_POSITIVE <= x {
        if x < f64::INFINITY {
            return normal_root(x);
        }
        return x;
    }
    if 0.0 < x {
        return subnormal_root(x);
    }
    if x < 0.0 {
        return f64::NAN;
    }
    x
}
