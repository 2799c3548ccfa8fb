// Flags of the rows or columns of a block: what is still unused. They are made, asked, cleared and searched here alone, so that
// nothing else knows how they are stored: 64 of them a word, so that a run's two sets take 256 bytes of the stack.
ghost use Rattle.std.specs.Prelude.{◌≡◌, false, ℕ, ◌+◌, ◌<◌, ◌≤◌, length};
ghost use Rattle.common.specs.Refusals.{most_entries};
ghost use Rattle.common.specs.Tests.{lowest};
ghost use Rattle.aca_pivots.specs.Flags.{is_on, all_on, cleared};
ghost use Rattle.aca_pivots.specs.Largest.{argmax, pivot};
ghost use Rattle.aca_pivots.specs.Working.{next_place, Extended};

use crate::Pivot;
use crate::search::{Best, pivot_at};

const WORDS: usize = 16;

const WORD_BITS: usize = 64;

// A flag for each row or column that a block may have.
#[derive(Clone, Copy, Debug, Default, PartialEq, Eq, PartialOrd, Ord, Hash)]
pub struct Flags {
    pub words: [u64; WORDS],
}

impl Flags {
    pub fn all_on() -> Self
        ensures { result.words ≡ all_on }
    {
        Flags {
            words: [u64::MAX; WORDS],
        }
    }

    pub fn is_on(&self, k: usize) -> bool
        requires { k < most_entries }
        ensures { result ≡ is_on self.now.words k }
    {
        let at = k / WORD_BITS;
        (self.words[at] >> (k % WORD_BITS)) & 1 == 1
    }

    pub fn clear(&mut self, k: usize)
        requires { k < most_entries }
        ensures { self.new.words ≡ cleared self.old.words k }
    {
        let at = k / WORD_BITS;
        let place = k % WORD_BITS;
        self.words[at] &= u64::MAX - (1 << place);
    }

    // Where to look after place k, whose flag is off: at the next place or, where no later flag of the word is on, at the next word.
    fn next_place(&self, k: usize) -> usize
        requires { k < most_entries }
        ensures { result ≡ next_place self.now.words k }
    {
        let at = k / WORD_BITS;
        if self.words[at] >> (k % WORD_BITS) == 0 {
            return at * WORD_BITS + WORD_BITS;
        }
        k + 1
    }

    // The lowest place below `most` whose flag is on, or `most` where there is none. Those below `from` are known to be off.
    pub fn lowest_on(&self, from: usize, most: usize) -> usize
        requires { (from ≤ most) × (most ≤ most_entries) × ((k : ℕ) → k < from → is_on self.now.words k ≡ false) }
        ensures { result ≡ lowest most (is_on self.now.words) }
    {
        let mut k = from;
        while k < most {
            if self.is_on(k) {
                return k;
            }
            k = self.next_place(k);
        }
        most
    }
}

// The best of the first k + 1 entries, given that of the first k; entry k counts where its bit of the word is 1.
fn better_in(entries: &[f64], word: u64, k: usize, held: Best) -> Best
    requires { k < length entries.now }
    ensures { Extended entries.now word k (k + 1) held result }
{
    let s = common::size_of(entries[k]);
    if !(held.worth < s) || (word >> (k % WORD_BITS)) & 1 != 1 {
        return held;
    }
    Best { place: k, worth: s }
}

// The same over four entries: a turn of the search, since fewer turns are less counting.
fn better_in_four(entries: &[f64], word: u64, k: usize, held: Best) -> Best
    requires { k + 4 ≤ length entries.now }
    ensures { Extended entries.now word k (k + 4) held result }
{
    let one = better_in(entries, word, k, held);
    let two = better_in(entries, word, k + 1, one);
    let three = better_in(entries, word, k + 2, two);
    better_in(entries, word, k + 3, three)
}

// The best of the first `end` entries, given that of the first `from`, where one word has the flags between: an entry a turn.
fn best_of_few(entries: &[f64], word: u64, from: usize, end: usize, held: Best) -> Best
    requires { (from ≤ end) × (end ≤ length entries.now) }
    ensures { Extended entries.now word from end held result }
{
    let mut largest = held;
    for k in from..end {
        largest = better_in(entries, word, k, largest);
    }
    largest
}

// The same, four entries a turn. A word with no flag on is passed over.
fn best_in(entries: &[f64], word: u64, from: usize, end: usize, held: Best) -> Best
    requires { (from ≤ end) × (end ≤ length entries.now) }
    ensures { Extended entries.now word from end held result }
{
    if word == 0 {
        return held;
    }
    let fours = end - (end - from) % 4;
    let mut largest = held;
    let mut k = from;
    while k < fours {
        largest = better_in_four(entries, word, k, largest);
        k += 4;
    }
    best_of_few(entries, word, fours, end, largest)
}

// The place of the largest entry whose flag is on: a word of flags at a time.
pub fn place_on(entries: &[f64], flags: &Flags) -> usize
    requires { length entries.now ≤ most_entries }
    ensures { result ≡ argmax entries.now (is_on flags.now.words) }
{
    let n = entries.len();
    let mut largest = Best {
        place: 0,
        worth: 0.0,
    };
    let mut from = 0;
    while from < n {
        let at = from / WORD_BITS;
        let end = (from + WORD_BITS).min(n);
        largest = best_in(entries, flags.words[at], from, end, largest);
        from = end;
    }
    largest.place
}

// The pivot of a line among the entries whose flags are on.
pub fn pick_on(entries: &[f64], flags: &Flags) -> Pivot
    requires { length entries.now ≤ most_entries }
    ensures { result ≡ pivot entries.now (is_on flags.now.words) }
{
    pivot_at(entries, place_on(entries, flags))
}
