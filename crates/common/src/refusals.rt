// Why a call refuses, and the tests that many calls begin with. A refusal's number is what programs in C are told.
ghost use Rattle.std.specs.Prelude.{◌≡◌, IfOk, Ok};
ghost use Rattle.common.specs.Refusals.{lower, order_number};
ghost use Rattle.common.specs.Numbers.{number, told_number};

use std::error::Error;
use std::fmt;

// Calls test from the first of these on, so the lowest number wins; 0 is done.
#[derive(Clone, Copy, Debug, PartialEq, Eq)]
pub enum Refusal {
    NoDimension = 1,
    NoOrder = 2,
    NoCount = 3,
    NoEntry = 4,
    NoCase = 5,
    NotZero = 6,
    WrongLength = 7,
    NoCell = 8,
    NotFinite = 9,
    NoMask = 10,
    OutOfCell = 11,
    NoFloor = 12,
    NoFirstLine = 13,
    NoSize = 14,
    BadEntry = 15,
    WrongCount = 16,
    NoSet = 17,
}

impl Refusal {
    pub fn number(self) -> u8
        ensures { result ≡ number self }
    {
        self as u8
    }
}

impl fmt::Display for Refusal {
    fn fmt<W: fmt::Write>(&self, f: &mut fmt::Formatter<W>) -> fmt::Result {
        f.write_str(match self {
            Refusal::NoDimension => "the dimension is not 1, 2 or 3",
            Refusal::NoOrder => "the order is not 1 to 16",
            Refusal::NoCount => "a count is out of range",
            Refusal::NoEntry => "an entry of the vector is outside -3 to 3",
            Refusal::NoCase => "a case, a reference number, a child or a node is too large",
            Refusal::NotZero => "an entry past the vector's dimension is not 0",
            Refusal::WrongLength => "a lent buffer's length is not exactly the stated one",
            Refusal::NoCell => "a cell's side is not from 2^-20 to 2^30",
            Refusal::NotFinite => "a coordinate is not finite",
            Refusal::NoMask => "a byte of the mask is not 0 or 1",
            Refusal::OutOfCell => "a point is out of its cell",
            Refusal::NoFloor => "the floor is not finite and above 0",
            Refusal::NoFirstLine => "the text's first line is not the format's",
            Refusal::NoSize => "the text has no size line, or a bad one",
            Refusal::BadEntry => "an entry is not a whole number up to 2^53",
            Refusal::WrongCount => "the text has too few or too many entries",
            Refusal::NoSet => "the set of nodes is not 0 or 1",
        })
    }
}

impl Error for Refusal {}

// What a program in C is told of a call that answers nothing else.
pub fn told_number(done: Result<(), Refusal>) -> u8
    ensures { result ≡ told_number done }
{
    match done {
        Ok(()) => 0,
        Err(refusal) => refusal.number(),
    }
}

// What was found, where neither test refuses; else the lower of the two refusals.
pub fn lower_of<T: Drop>(
    found: Result<T, Refusal>,
    other: Result<(), Refusal>,
) -> Result<T, Refusal>
    ensures number { told_number result ≡ lower (told_number found) (told_number other) }
    ensures values { IfOk result (λ x. (found ≡ Ok x) × (told_number other ≡ 0)) }
{
    let Err(second) = other else {
        return found;
    };
    match found {
        Ok(_) => Err(second),
        Err(first) => {
            if second.number() < first.number() {
                Err(second)
            } else {
                Err(first)
            }
        }
    }
}

// An order is 1 to 16.
pub fn check_order(order: usize) -> Result<(), Refusal>
    ensures { told_number result ≡ order_number order }
{
    if order < 1 || 16 < order {
        return Err(Refusal::NoOrder);
    }
    Ok(())
}
