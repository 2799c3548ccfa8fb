// The whole number that a float is, and how long its line is.
ghost use Rattle.std.specs.Prelude.{◌≡◌, ℕ, ◌<◌, length};
ghost use Rattle.text.specs.Text.{decimal};
ghost use Rattle.exchange_format.specs.Faults.{found};
ghost use Rattle.exchange_format.specs.Writing.{whole_of};
ghost use Rattle.exchange_writing.specs.Working.{size_in, number_of, signed_line};

// A whole number, by its size.
#[derive(Clone, Copy)]
pub(crate) struct Whole {
    pub is_negative: bool,
    pub size: u64,
}

// 2^53 and 2^64.
const MOST_SIZE: u64 = 9007199254740992;

const BEYOND: f64 = 18446744073709551616.0;

// A float that is a whole number up to 2^53 and has no minus. A cast there and back tells, bit for bit.
fn size_in(x: f64) -> Option<u64>
    ensures { found (λ (n : ℕ). n) result ≡ size_in x }
{
    if x > -1.0 && x < BEYOND {
        let n = std::num::truncating_f64_to_u64(x);
        if n <= MOST_SIZE && (n as f64).to_bits() == x.to_bits() {
            return Some(n);
        }
    }
    None
}

// The whole number that a float is.
pub(crate) fn whole_of(x: f64) -> Option<Whole>
    ensures { result ≡ number_of (whole_of x) }
{
    if x < 0.0 {
        let size = size_in(-x)?;
        return Some(Whole {
            is_negative: true,
            size,
        });
    }
    let size = size_in(x)?;
    Some(Whole {
        is_negative: false,
        size,
    })
}

// How many digits a number has, of which there are four at most.
fn few_digits(n: u64) -> usize
    requires { n < 10000 }
    ensures { result ≡ length (decimal n) }
{
    match n {
        0..=9 => 1,
        10..=99 => 2,
        100..=999 => 3,
        _ => 4,
    }
}

// How many digits a number has: four are counted at a time, since a division costs as much as several tests.
pub fn digit_count(n: u64) -> usize
    ensures { result ≡ length (decimal n) }
{
    let mut rest = n;
    let mut count = 0;
    while 10000 <= rest {
        rest = rest / 10000;
        count += 4;
    }
    count + few_digits(rest)
}

// How long a number's line is, with its minus and its newline.
pub(crate) fn line_length(whole: Whole) -> usize
    ensures { result ≡ length (signed_line whole.is_negative whole.size) }
{
    let digits = digit_count(whole.size);
    if whole.is_negative {
        digits + 2
    } else {
        digits + 1
    }
}
