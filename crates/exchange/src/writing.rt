// Writing: one pass over the block tests its entries and adds up the text's length, so that a refusal leaves the text as it was lent.
ghost use Rattle.std.specs.Prelude.{◌≡◌, ◌++◌, ◌≤◌, length};
ghost use Rattle.exchange_format.specs.Writing.{fitting_text};
ghost use Rattle.exchange_format.specs.Calls.{written_of, write_call};
ghost use Rattle.exchange_writing.specs.Working.{spelled, head_text};
ghost use Rattle.exchange.specs.Told.{told_written};

use crate::Fault;
use common::Refusal;
use text::Line;

// All lines, where they fit; those of the entries are so long together.
fn write_lines(
    rows: usize,
    columns: usize,
    block: &[f64],
    long: usize,
    text: &mut [u8],
) -> Result<usize, Fault>
    requires { (long ≡ length (spelled block.now)) × (long ≤ 23068672) }
    ensures { (told_written result, text.new) ≡ written_of text.old
        (fitting_text (length text.old) (head_text rows columns ++ spelled block.now)) }
{
    let head = exchange_writing::digit_count(rows as u64)
        + exchange_writing::digit_count(columns as u64)
        + 46;
    if text.len() < head + long {
        return Err(Fault {
            refusal: Refusal::WrongLength,
            line: 0,
        });
    }
    let mut line = Line::new(text);
    exchange_writing::put_head(&mut line, rows, columns);
    exchange_writing::put_entries(&mut line, block);
    Ok(line.to)
}

// Writes a block into a text that is lent, whose bytes past what is written stay.
pub fn write_block(
    rows: usize,
    columns: usize,
    block: &[f64],
    text: &mut [u8],
) -> Result<usize, Fault>
    ensures { (told_written result, text.new) ≡ write_call rows columns block.now text.old }
{
    if common::MOST_ENTRIES < rows || common::MOST_ENTRIES < columns {
        return Err(Fault {
            refusal: Refusal::NoSize,
            line: 2,
        });
    }
    if block.len() != rows * columns {
        return Err(Fault {
            refusal: Refusal::WrongLength,
            line: 0,
        });
    }
    let long = exchange_writing::measure(block)?;
    write_lines(rows, columns, block, long, text)
}
