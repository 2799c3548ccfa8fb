// First guesses at a root, by a line for each of 32 stretches; tools/guesses makes the two tables. What the root is does not turn
// on them, only how long it takes, so nothing is proved of them but how large they are.
// A match becomes a table in memory that is read, where no two arms are alike. A constant array would be copied to the stack.
ghost use Rattle.std.specs.Prelude.{◌^◌, ◌≤◌, ◌<◌};

// Where the line of a stretch begins.
fn base(stretch: u64) -> u64
    ensures low { 2 ^ 24 ≤ result }
    ensures high { result < 2 ^ 26 }
{
    match stretch {
        0 => 24058217,
        1 => 24823649,
        2 => 25486811,
        3 => 26186657,
        4 => 26841425,
        5 => 27529621,
        6 => 28161645,
        7 => 28726995,
        8 => 29315213,
        9 => 29928435,
        10 => 30567449,
        11 => 31121494,
        12 => 31695661,
        13 => 32170489,
        14 => 32784664,
        15 => 33293239,
        16 => 34082881,
        17 => 35056997,
        18 => 36088667,
        19 => 37022370,
        20 => 38005356,
        21 => 38865570,
        22 => 39765550,
        23 => 40707758,
        24 => 41494892,
        25 => 42312480,
        26 => 43163443,
        27 => 43935995,
        28 => 44737145,
        29 => 45568225,
        30 => 46305220,
        _ => 47066572,
    }
}

// How steep it is.
fn slope(stretch: u64) -> u64
    ensures { result < 512 }
{
    match stretch {
        0 => 357,
        1 => 346,
        2 => 337,
        3 => 328,
        4 => 320,
        5 => 312,
        6 => 305,
        7 => 299,
        8 => 293,
        9 => 287,
        10 => 281,
        11 => 276,
        12 => 271,
        13 => 267,
        14 => 262,
        15 => 258,
        16 => 504,
        17 => 490,
        18 => 476,
        19 => 464,
        20 => 452,
        21 => 442,
        22 => 432,
        23 => 422,
        24 => 414,
        25 => 406,
        26 => 398,
        27 => 391,
        28 => 384,
        29 => 377,
        30 => 371,
        _ => 365,
    }
}

// The root of the digits, or of half of them where the lowest place of the exponent in `bits` is 0, within 7 parts in 100,000.
// The stretch is that place and the first four digits after the leading one.
pub(crate) fn guess(digits: u64, bits: u64) -> u64
    requires { digits < 2 ^ 53 }
    ensures low { 2 ^ 24 ≤ result }
    ensures high { result < 2 ^ 28 }
{
    let stretch = bits / 0x1_0000_0000_0000 % 32;
    base(stretch) + slope(stretch) * (digits / 0x10_0000_0000)
}
