// The entries of a Matrix Market text, one a line: tested, and taken into a block.
#![tactic(auto)]

ghost use Rattle.std.specs.Prelude.{◌≡◌, true, [], ℕ, ◌≤◌, ◌<◌, length, drop, get_or};
ghost use Rattle.common.specs.Lists.{tabulate};
ghost use Rattle.exchange_format.specs.Faults.{outcome};
ghost use Rattle.exchange_format.specs.Lines.{lines};
ghost use Rattle.exchange_format.specs.Words.{entry};
ghost use Rattle.exchange_format.specs.Reading.{entries};
ghost use Rattle.exchange_lines.specs.Working.{Stands};
ghost use Rattle.exchange_entries.specs.Working.{is_fit, value_at, checked};

use common::Refusal;
use exchange_format::Fault;
use exchange_lines::Cursor;

mod entries;

// The first fault among so many entries, one a line.
pub fn check_entries(text: &[u8], from: Cursor, count: usize) -> Result<(), Fault>
    requires { Stands text.now from }
    ensures { outcome result ≡ checked (entries from.line count (lines (drop from.at text.now))) }
{
    let mut at = from.at;
    for i in 0..count {
        if text.len() <= at {
            return Err(Fault {
                refusal: Refusal::WrongCount,
                line: from.line + i,
            });
        }
        let Some(next) = entries::scan_entry(text, at) else {
            return Err(Fault {
                refusal: Refusal::BadEntry,
                line: from.line + i,
            });
        };
        at = next;
    }
    if at < text.len() {
        return Err(Fault {
            refusal: Refusal::WrongCount,
            line: from.line + count,
        });
    }
    Ok(())
}

// The value of a line in each place of the block.
pub fn fill_block(text: &[u8], from: usize, block: &mut [f64])
    requires { (from ≤ length text.now) × ((j : ℕ) → j < length block.old →
        is_fit (entry (get_or (lines (drop from text.now)) j [])) ≡ true) }
    ensures { block.new ≡ tabulate (length block.old) (value_at (lines (drop from text.now))) }
{
    let mut at = from;
    for place in block.iter_mut() {
        let entry = entries::read_entry(text, at);
        *place = entry.value;
        at = entry.next;
    }
}
