// Blocks as Matrix Market array files: a refusal is told with its line, in one number.
ghost use Rattle.std.specs.Prelude.{◌≡◌};
ghost use Rattle.exchange_told.specs.Exchanged.{size_told, read_told, write_told};

use exchange_told::{block_size_told, read_block_told, write_block_told};

// The size of the block in a text, so that a caller knows how much to lend.
#[unsafe(no_mangle)]
pub extern "C" fn bbfmm_block_size(text: &[u8], sizes: &mut [usize]) -> u64
    ensures { (result, sizes.new) ≡ size_told text.now sizes.old }
{
    block_size_told(text, sizes)
}

// A text as a block. Where the sizes have no room, the text is read into a block of no entries: so its own faults are still told
// first, and nothing is written.
#[unsafe(no_mangle)]
pub extern "C" fn bbfmm_read_block(text: &[u8], block: &mut [f64], sizes: &mut [usize]) -> u64
    ensures { (result, block.new, sizes.new) ≡
        read_told text.now block.old sizes.old }
{
    read_block_told(text, block, sizes)
}

// A block as a text. Where the count has no room, the block is written into a text of no bytes, for the same reason.
#[unsafe(no_mangle)]
pub extern "C" fn bbfmm_write_block(
    rows: usize,
    columns: usize,
    block: &[f64],
    text: &mut [u8],
    written: &mut [usize],
) -> u64
    ensures { (result, text.new, written.new) ≡
        write_told rows columns block.now text.old written.old }
{
    write_block_told(rows, columns, block, text, written)
}
