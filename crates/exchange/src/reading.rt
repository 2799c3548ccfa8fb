// Reading: the entries are all tested before the first is stored, so that a refusal leaves the block as it was lent.
ghost use Rattle.std.specs.Prelude.{◌≡◌};
ghost use Rattle.exchange_format.specs.Calls.{size_call, read_call};
ghost use Rattle.exchange.specs.Told.{told_sizes};

use crate::{Fault, Sizes};
use common::Refusal;

// Reads a text into a block that is lent.
pub fn read_block(text: &[u8], block: &mut [f64]) -> Result<Sizes, Fault>
    ensures { (told_sizes result, block.new) ≡ read_call text.now block.old }
{
    let found = exchange_lines::open(text)?;
    let sizes = found.sizes;
    let count = sizes.rows * sizes.columns;
    exchange_entries::check_entries(text, found.rest, count)?;
    if block.len() != count {
        return Err(Fault {
            refusal: Refusal::WrongLength,
            line: 0,
        });
    }
    exchange_entries::fill_block(text, found.rest.at, block);
    Ok(sizes)
}

// The size of the block in a text, so that a caller knows how much to lend. What stands after the size line is not looked at.
pub fn block_size(text: &[u8]) -> Result<Sizes, Fault>
    ensures { told_sizes result ≡ size_call text.now }
{
    let found = exchange_lines::open(text)?;
    Ok(found.sizes)
}
