// Numbers in decimal, and the size line: two numbers parted by spaces.
ghost use Rattle.std.specs.Prelude.{◌≡◌, ℕ};
ghost use Rattle.common.specs.Refusals.{most_entries};
ghost use Rattle.exchange_format.specs.Faults.{found};
ghost use Rattle.exchange_format.specs.Words.{numeral as Words·numeral, size};
ghost use Rattle.exchange_lines.specs.Working.{size_of};

use crate::{Sizes, lines};

// A number in decimal, of any number of digits, that is at most 1,024. One that is larger is refused at once, so nothing overflows.
fn numeral(s: &[u8]) -> Option<usize>
    ensures { found (λ n. n) result ≡ Words·numeral most_entries s.now }
{
    if s.is_empty() {
        return None;
    }
    let mut n = 0;
    for b in s {
        if !b.is_ascii_digit() {
            return None;
        }
        n = n * 10 + (*b - b'0') as usize;
        if common::MOST_ENTRIES < n {
            return None;
        }
    }
    Some(n)
}

pub(crate) fn size_of(line: &[u8]) -> Option<Sizes>
    ensures { found size_of result ≡ size line.now }
{
    let end = lines::find(line, b' ')?;
    let spaces = lines::skip(&line[end..], b' ')?;
    let rows = numeral(&line[..end])?;
    let columns = numeral(&line[end + spaces..])?;
    Some(Sizes { rows, columns })
}
