// Pairs of axes, in lexicographic order.
ghost use Rattle.std.specs.Prelude.{◌≡◌, ◌<◌, ◌≤◌};
ghost use Rattle.curvatures.specs.Curvatures.{pair_at, pair_count};

#[derive(Clone, Copy, PartialEq, Eq)]
pub struct Pair {
    pub first: usize,
    pub second: usize,
}

pub(crate) fn pair_count(dimension: usize) -> usize
    requires { dimension ≤ 3 }
    ensures { result ≡ pair_count dimension }
{
    dimension * (dimension + 1) / 2
}

// There are as many pairs that begin with axis 0 as there are axes, and one fewer that begin with axis 1.
pub(crate) fn pair_at(dimension: usize, q: usize) -> Pair
    requires { (1 ≤ dimension) × (dimension ≤ 3) × (q < pair_count dimension) }
    ensures { result ≡ pair_at dimension q }
{
    if q < dimension {
        return Pair {
            first: 0,
            second: q,
        };
    }
    if q + 1 < dimension + dimension {
        return Pair {
            first: 1,
            second: q + 1 - dimension,
        };
    }
    Pair {
        first: 2,
        second: 2,
    }
}
