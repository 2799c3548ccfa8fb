// Lines that are put into a lent text, one after the other.
ghost use Rattle.std.specs.Prelude.{◌≡◌, ◌+◌, ◌≤◌, length};
ghost use Rattle.std.proofs.lemmas.List.Edits.{sets};
ghost use Rattle.text.specs.Text.{decimal, put as Text·put};
ghost use Rattle.exchange_writing.specs.Working.{minus, signed_line, spelt, spelled, head_text};

use crate::wholes;
use crate::wholes::Whole;
use text::Line;

// A minus, where it is asked.
fn put_minus(line: &mut Line, is_negative: bool)
    ensures same { line.new.bytes.ghost_name ≡ line.old.bytes.ghost_name }
    ensures put { (line.new.to, line.new.bytes.now) ≡ Text·put line.old.to (minus is_negative) line.old.bytes.now }
{
    if is_negative {
        line.put_byte(b'-');
    }
}

// The digits of a number, of which there are so many, each stored where it belongs, from the last on.
fn put_digits(text: &mut [u8], to: usize, count: usize, n: u64)
    requires { (count ≡ length (decimal n)) × (to + count ≤ length text.old) }
    ensures { text.new ≡ sets text.old to (decimal n) }
{
    let mut rest = n;
    let mut i = to + count - 1;
    while 10 <= rest {
        text[i] = b'0' + (rest % 10) as u8;
        rest = rest / 10;
        i -= 1;
    }
    text[i] = b'0' + rest as u8;
}

// A number in decimal, as `text` puts it, but with no copy where all its digits have room.
fn put_decimal(line: &mut Line, n: u64)
    ensures same { line.new.bytes.ghost_name ≡ line.old.bytes.ghost_name }
    ensures put { (line.new.to, line.new.bytes.now) ≡ Text·put line.old.to (decimal n) line.old.bytes.now }
{
    let count = wholes::digit_count(n);
    let to = line.to;
    if to <= line.bytes.len() && count <= line.bytes.len() - to {
        put_digits(line.bytes, to, count, n);
        line.to += count;
    } else {
        line.put_number(n);
    }
}

// A number with its sign, and the line's end.
fn put_signed(line: &mut Line, whole: Whole)
    ensures same { line.new.bytes.ghost_name ≡ line.old.bytes.ghost_name }
    ensures put { (line.new.to, line.new.bytes.now) ≡
        Text·put line.old.to (signed_line whole.is_negative whole.size) line.old.bytes.now }
{
    put_minus(line, whole.is_negative);
    put_decimal(line, whole.size);
    line.put_byte(b'\n');
}

// An entry's line.
fn put_entry(line: &mut Line, x: f64)
    ensures same { line.new.bytes.ghost_name ≡ line.old.bytes.ghost_name }
    ensures put { (line.new.to, line.new.bytes.now) ≡ Text·put line.old.to (spelt x) line.old.bytes.now }
{
    if let Some(whole) = wholes::whole_of(x) {
        put_signed(line, whole);
    }
}

// A line an entry.
pub fn put_entries(line: &mut Line, block: &[f64])
    ensures same { line.new.bytes.ghost_name ≡ line.old.bytes.ghost_name }
    ensures put { (line.new.to, line.new.bytes.now) ≡ Text·put line.old.to (spelled block.now) line.old.bytes.now }
{
    for x in block {
        put_entry(line, *x);
    }
}

// The first line and the size line.
pub fn put_head(line: &mut Line, rows: usize, columns: usize)
    ensures same { line.new.bytes.ghost_name ≡ line.old.bytes.ghost_name }
    ensures put { (line.new.to, line.new.bytes.now) ≡ Text·put line.old.to (head_text rows columns) line.old.bytes.now }
{
    line.put(b"%%MatrixMarket matrix array integer general\n");
    line.put_number(rows as u64);
    line.put_byte(b' ');
    line.put_number(columns as u64);
    line.put_byte(b'\n');
}
