// Looking up a vector: its index, its case and its reference. An entry is held as a digit, three more than it is.
#![tactic(auto)]

ghost use Rattle.std.specs.Prelude.{◌≡◌, ◌+◌, ◌*◌, ◌<◌, ◌≤◌, min, max, IfOk};
ghost use Rattle.common.specs.Digits.{from_digits};
ghost use Rattle.common.specs.Threes.{three, Small};
ghost use Rattle.common.specs.Factorials.{factorial};
ghost use Rattle.vectors.specs.Order.{axis_order};
ghost use Rattle.vectors.specs.Vectors.{reference_of};
ghost use Rattle.common.specs.Numbers.{told, told_number};
ghost use Rattle.vectors.specs.LookUps.{look_up, known_of, turn_of, turning_call, reference_call};
ghost use Rattle.vectors.specs.Working.{shifted as shifted_to, size_of, sign_of, vector_of, each_of, swap};
ghost use Rattle.vectors.specs.Working.{digits_of, digits_number, are_entries, are_zeros, Past};

use common::{Refusal, Three};

// A vector between two blocks: one whole number an axis, 0 past the dimension.
#[derive(Clone, Copy)]
pub struct Vector(pub i32, pub i32, pub i32);

// What is known of a vector.
#[derive(Clone, Copy)]
pub struct Known {
    pub index: usize,
    pub case: usize,
    pub reference: usize,
    pub near: bool,
}

// How a vector turns its reference: which of its entries are negative, so that the axis is reversed, and the number of the order of
// its axes by falling size.
#[derive(Clone, Copy)]
pub struct Turn {
    pub first: bool,
    pub second: bool,
    pub third: bool,
    pub order: usize,
}

const REFERENCES_1: [Vector; 2] = [Vector(2, 0, 0), Vector(3, 0, 0)];

const REFERENCES_2: [Vector; 7] = [
    Vector(2, 0, 0),
    Vector(2, 1, 0),
    Vector(2, 2, 0),
    Vector(3, 0, 0),
    Vector(3, 1, 0),
    Vector(3, 2, 0),
    Vector(3, 3, 0),
];

const REFERENCES_3: [Vector; 16] = [
    Vector(2, 0, 0),
    Vector(2, 1, 0),
    Vector(2, 1, 1),
    Vector(2, 2, 0),
    Vector(2, 2, 1),
    Vector(2, 2, 2),
    Vector(3, 0, 0),
    Vector(3, 1, 0),
    Vector(3, 1, 1),
    Vector(3, 2, 0),
    Vector(3, 2, 1),
    Vector(3, 2, 2),
    Vector(3, 3, 0),
    Vector(3, 3, 1),
    Vector(3, 3, 2),
    Vector(3, 3, 3),
];

// An entry from -3 to 3 as a digit, three more than it is; 7 for any other.
fn shifted(e: i32) -> usize
    ensures { result ≡ shifted_to e }
{
    match e {
        -3 => 0,
        -2 => 1,
        -1 => 2,
        0 => 3,
        1 => 4,
        2 => 5,
        3 => 6,
        _ => 7,
    }
}

fn size_of(d: usize) -> usize
    ensures { result ≡ size_of d }
{
    d.abs_diff(3)
}

fn sign_of(d: usize) -> usize
    ensures { result ≡ sign_of d }
{
    usize::from(3 <= d)
}

fn sizes_of(d: Three) -> Three
    ensures { result ≡ each_of size_of d }
{
    Three(size_of(d.0), size_of(d.1), size_of(d.2))
}

fn signs_of(d: Three) -> Three
    ensures { result ≡ each_of sign_of d }
{
    Three(sign_of(d.0), sign_of(d.1), sign_of(d.2))
}

// 1 where the second of two sizes comes before the first, as the larger.
fn swapped(a: usize, b: usize) -> usize
    ensures { result ≡ swap a b }
{
    usize::from(a < b)
}

// The number of the order by falling size, equals by axis number.
fn axis_order_of(dimension: usize, s: Three) -> usize
    requires { Small dimension 4 s }
    ensures { result ≡ axis_order dimension (three s) }
{
    if dimension < 2 {
        return 0;
    }
    if dimension < 3 {
        return swapped(s.0, s.1);
    }
    if s.0 < s.1 {
        if s.1 < s.2 {
            return 5;
        }
        return 2 + swapped(s.0, s.2);
    }
    if s.0 < s.2 {
        return 4;
    }
    swapped(s.1, s.2)
}

fn case_of(dimension: usize, d: Three, s: Three) -> usize
    requires { Small dimension 7 d × Small dimension 4 s }
    ensures { result ≡ from_digits 2 dimension (three (each_of sign_of d)) * factorial dimension + axis_order dimension (three s) }
{
    let signs = common::number_of(2, dimension, signs_of(d));
    signs * common::factorial_of(dimension) + axis_order_of(dimension, s)
}

fn largest_of(s: Three) -> usize
    ensures { result ≡ max (max s.0 s.1) s.2 }
{
    s.0.max(s.1).max(s.2)
}

fn smallest_of(s: Three) -> usize
    ensures { result ≡ min (min s.0 s.1) s.2 }
{
    s.0.min(s.1).min(s.2)
}

// The number of the reference with these sizes: how many references come before it. Those that begin with 2 number
// 1, 3 or 6, by the dimension; those that begin alike, and go on with a smaller entry m, number m, or m (m + 1) / 2.
fn reference_of(dimension: usize, s: Three) -> usize
    requires { Small dimension 4 s × Past dimension 0 s }
    ensures { result ≡ reference_of dimension (three s) }
{
    let large = largest_of(s);
    if large < 2 {
        return 0;
    }
    if dimension < 2 {
        return large - 2;
    }
    let small = smallest_of(s);
    let middle = s.0 + s.1 + s.2 - large - small;
    if dimension < 3 {
        return (large - 2) * 3 + middle;
    }
    (large - 2) * 6 + middle * (middle + 1) / 2 + small
}

fn known_of(dimension: usize, d: Three) -> Known
    requires { Small dimension 7 d × Past dimension 3 d }
    ensures { result ≡ known_of dimension (vector_of d) }
{
    let s = sizes_of(d);
    Known {
        index: common::number_of(7, dimension, d),
        case: case_of(dimension, d, s),
        reference: reference_of(dimension, s),
        near: largest_of(s) < 2,
    }
}

// The first digits, as many as the dimension, are those of entries. All are looked at, so that there is no branch.
fn are_entries(dimension: usize, d: Three) -> bool
    ensures { result ≡ are_entries dimension d }
{
    (d.0 < 7) & ((dimension < 2) | (d.1 < 7)) & ((dimension < 3) | (d.2 < 7))
}

// The digits past them are those of 0.
fn are_zeros(dimension: usize, d: Three) -> bool
    ensures { result ≡ are_zeros dimension d }
{
    ((2 <= dimension) | (d.1 == 3)) & ((3 <= dimension) | (d.2 == 3))
}

// The digits of a vector that is taken: those of entries on the axes, and of 0 past them.
fn check_digits(dimension: usize, d: Three) -> Result<(), Refusal>
    requires { (d.0 < 8) × (d.1 < 8) × (d.2 < 8) }
    ensures { told_number result ≡ digits_number dimension (three d) }
{
    if dimension < 1 || 3 < dimension {
        return Err(Refusal::NoDimension);
    }
    if !are_entries(dimension, d) {
        return Err(Refusal::NoEntry);
    }
    if !are_zeros(dimension, d) {
        return Err(Refusal::NotZero);
    }
    Ok(())
}

// A vector as three digits.
fn digits_of(dimension: usize, vector: Vector) -> Result<Three, Refusal>
    ensures number { told_number result ≡ digits_number dimension (three (digits_of vector)) }
    ensures digits { IfOk result (λ d. d ≡ digits_of vector) }
{
    let digits = Three(shifted(vector.0), shifted(vector.1), shifted(vector.2));
    check_digits(dimension, digits)?;
    Ok(digits)
}

// What is known of a vector: its index, its case, its reference and whether it is near.
pub fn look_up(dimension: usize, vector: Vector) -> Result<Known, Refusal>
    ensures { told result ≡ look_up dimension vector }
{
    let digits = digits_of(dimension, vector)?;
    Ok(known_of(dimension, digits))
}

fn turn_of(dimension: usize, d: Three) -> Turn
    requires { Small dimension 7 d }
    ensures { result ≡ turn_of dimension (vector_of d) }
{
    Turn {
        first: d.0 < 3,
        second: d.1 < 3,
        third: d.2 < 3,
        order: axis_order_of(dimension, sizes_of(d)),
    }
}

// How a vector turns its reference, without what else is known of it.
pub fn find_turn(dimension: usize, vector: Vector) -> Result<Turn, Refusal>
    ensures { told result ≡ turning_call dimension vector }
{
    let digits = digits_of(dimension, vector)?;
    Ok(turn_of(dimension, digits))
}

// The reference vector with that number.
pub fn reference_vector(dimension: usize, number: usize) -> Result<Vector, Refusal>
    ensures { told result ≡ reference_call dimension number }
{
    let references: &[Vector] = match dimension {
        1 => &REFERENCES_1,
        2 => &REFERENCES_2,
        3 => &REFERENCES_3,
        _ => return Err(Refusal::NoDimension),
    };
    references.get(number).copied().ok_or(Refusal::NoCase)
}
