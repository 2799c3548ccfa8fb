// What the calls on Matrix Market texts answer, told in one number and lent slices: a refusal with its line.
#![tactic(auto)]

ghost use Rattle.std.specs.Prelude.{◌≡◌, ℕ, List, length};
ghost use Rattle.std.proofs.Math.Option.{some};
ghost use Rattle.common.specs.Numbers.{number};
ghost use Rattle.exchange.specs.Told.{told_sizes, told_written};
ghost use Rattle.exchange_told.specs.Exchanged.{with_line, size_values, size_told, read_told, write_told};
ghost use Rattle.exchange_told.specs.Working.{values_or_none, values_told, count_values};

use common::Refusal;
use exchange::{Fault, Sizes, block_size, read_block, write_block};

// 2^55. No text has as many lines, and with it the sum fits.
const MOST_LINE: usize = 36028797018963968;

const WRONG_LENGTH: Fault = Fault {
    refusal: Refusal::WrongLength,
    line: 0,
};

// A refusal's number and its line in one number.
fn with_line(fault: Fault) -> u64
    ensures { result ≡ with_line (number fault.refusal) fault.line }
{
    let told = fault.line.min(MOST_LINE);
    fault.refusal.number() as u64 + 256 * told as u64
}

// Values in a lent slice, which has to be just as long.
fn tell(values: &[usize], lent: &mut [usize]) -> u64
    ensures { (result, lent.new) ≡ values_or_none (λ (l : List ℕ). l) (length values.now) 0 0 (some values.now) lent.old }
{
    if lent.len() != values.len() {
        return with_line(WRONG_LENGTH);
    }
    lent.copy_from_slice(values);
    0
}

// Rows and columns in the lent slice, or a refusal.
fn tell_sizes(found: Result<Sizes, Fault>, sizes: &mut [usize]) -> u64
    ensures { (result, sizes.new) ≡ values_told size_values 2 (told_sizes found) sizes.old }
{
    match found {
        Err(fault) => with_line(fault),
        Ok(size) => tell(&[size.rows, size.columns], sizes),
    }
}

// How many bytes were written in the lent slice, or a refusal.
fn tell_written(found: Result<usize, Fault>, written: &mut [usize]) -> u64
    ensures { (result, written.new) ≡ values_told count_values 1 (told_written found) written.old }
{
    match found {
        Err(fault) => with_line(fault),
        Ok(count) => tell(&[count], written),
    }
}

// The size of the block in a text, so that a caller knows how much to lend.
pub fn block_size_told(text: &[u8], sizes: &mut [usize]) -> u64
    ensures { (result, sizes.new) ≡ size_told text.now sizes.old }
{
    tell_sizes(block_size(text), sizes)
}

// A text as a block. Where the sizes have no room, the text is read into a block of no entries: so its own faults are still told
// first, and nothing is written.
pub fn read_block_told(text: &[u8], block: &mut [f64], sizes: &mut [usize]) -> u64
    ensures { (result, block.new, sizes.new) ≡
        read_told text.now block.old sizes.old }
{
    if sizes.len() == 2 {
        return tell_sizes(read_block(text, block), sizes);
    }
    tell_sizes(read_block(text, &mut []), sizes)
}

// A block as a text. Where the count has no room, the block is written into a text of no bytes, for the same reason.
pub fn write_block_told(
    rows: usize,
    columns: usize,
    block: &[f64],
    text: &mut [u8],
    written: &mut [usize],
) -> u64
    ensures { (result, text.new, written.new) ≡
        write_told rows columns block.now text.old written.old }
{
    if written.len() == 1 {
        return tell_written(write_block(rows, columns, block, text), written);
    }
    tell_written(write_block(rows, columns, block, &mut []), written)
}
