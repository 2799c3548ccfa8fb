// The place of the largest entry, among those that a mask lets count, and its size.
ghost use Rattle.std.specs.Prelude.{◌≡◌, ◌+◌, ◌<◌, ◌≤◌, length};
ghost use Rattle.aca_pivots.specs.Largest.{best, counts, pivot_at, pivot};

use crate::Pivot;

// The largest of the entries before some place, and its size.
#[derive(Drop)]
pub(crate) struct Best {
    pub place: usize,
    pub worth: f64,
}

// The pivot that is found at a place; there is no entry there where the line has none.
pub(crate) fn pivot_at(entries: &[f64], place: usize) -> Pivot
    ensures { result ≡ pivot_at entries.now place }
{
    if place < entries.len() {
        return Pivot {
            place,
            size: common::size_of(entries[place]),
        };
    }
    Pivot { place, size: 0.0 }
}

// The best of the first k + 1 entries, given that of the first k. Few entries are larger than all before them, so that is asked
// first: the mask is seldom read. What is held is handed back early, so that it is not copied in the loop.
fn better(entries: &[f64], mask: &[u8], k: usize, held: Best) -> Best
    requires entries_in_bounds { length entries.now ≤ length mask.now }
    requires k_in_bounds { k < length entries.now }
    requires held_value { held ≡ best k entries.now (counts mask.now) }
    ensures { result ≡ best (k + 1) entries.now (counts mask.now) }
{
    let s = common::size_of(entries[k]);
    if !(held.worth < s) || mask[k] != 1 {
        return held;
    }
    Best { place: k, worth: s }
}

// Two entries a turn: half the turns are half the counting.
pub fn pick(entries: &[f64], mask: &[u8]) -> Pivot
    requires { length entries.now ≤ length mask.now }
    ensures { result ≡ pivot entries.now (counts mask.now) }
{
    let n = entries.len();
    let mut largest = Best {
        place: 0,
        worth: 0.0,
    };
    for turn in 0..n / 2 {
        let k = turn * 2;
        largest = better(entries, mask, k, largest);
        largest = better(entries, mask, k + 1, largest);
    }
    if n % 2 == 1 {
        largest = better(entries, mask, n - 1, largest);
    }
    pivot_at(entries, largest.place)
}
