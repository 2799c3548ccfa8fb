// What writing a Matrix Market text is made of: how long the lines of its entries are, its first lines, and its entries.
#![tactic(auto)]

ghost use Rattle.std.specs.Prelude.{◌≡◌, ◌≤◌, length};
ghost use Rattle.exchange_format.specs.Faults.{outcome};
ghost use Rattle.exchange_format.specs.Writing.{wholes};
ghost use Rattle.exchange_writing.specs.Working.{measured};

use common::Refusal;
use exchange_format::Fault;

mod putting;
mod wholes;

pub use putting::{put_entries, put_head};
pub use wholes::digit_count;

// How long the lines of all entries are, of which the first is the third of the text; or the first entry's fault.
pub fn measure(block: &[f64]) -> Result<usize, Fault>
    requires { length block.now ≤ 1048576 }
    ensures { outcome result ≡ measured (wholes 3 block.now) }
{
    let mut sum = 0;
    for (i, x) in block.iter().enumerate() {
        let Some(whole) = wholes::whole_of(*x) else {
            return Err(Fault {
                refusal: Refusal::BadEntry,
                line: 3 + i,
            });
        };
        sum += wholes::line_length(whole);
    }
    Ok(sum)
}
