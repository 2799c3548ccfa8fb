// Mending lookup files: records of eight bytes, a dimension, three signed entries, the case, the reference and two zeros. Each is made
// right, and a line says what became of it.
#![tactic(auto)]

ghost use Rattle.std.specs.Prelude.{◌≡◌, ◌+◌, ◌*◌, ◌≤◌, leb, length, drop};
ghost use Rattle.common.specs.Numbers.{told};
ghost use Rattle.text.specs.Text.{put as Text·put};
ghost use Rattle.mending_lines.specs.Records.{verdict, line as line_of};
ghost use Rattle.mending.specs.Mending.{whole, mended_file, mend_call, text as text_of};
ghost use Rattle.mending.specs.Tallies.{tally_of};

use common::Refusal;
use text::Line;

// How many records were kept, mended and blanked.
#[derive(Clone, Copy, Default)]
pub struct Totals {
    pub kept: usize,
    pub mended: usize,
    pub blanked: usize,
}

// Writes the mended records of `input` into `output`, and a line for each, and for a tail that is no whole record, over the start of
// `text`, and answers how many bytes of text it wrote. An output that has not exactly the bytes of the whole records is refused with 7,
// and so is a text that does not fit.
pub fn mend(input: &[u8], output: &mut [u8], text: &mut [u8]) -> Result<usize, Refusal>
    ensures { (told result, output.new, text.new) ≡ mend_call input.now output.old text.old }
{
    if output.len() != input.len() / RECORD * RECORD || !fits(input, text.len()) {
        return Err(Refusal::WrongLength);
    }
    Ok(mend_records(input, output, text))
}

// How many records a text says were kept, mended and blanked: each of these words has a letter that stands nowhere else in a text.
pub fn tally(text: &[u8]) -> Totals
    ensures { result ≡ tally_of text.now }
{
    Totals {
        kept: mending_counts::count_of(text, b'p'),
        mended: mending_counts::count_of(text, b'm'),
        blanked: mending_counts::count_of(text, b'b'),
    }
}

// The bytes of a record.
const RECORD: usize = 8;

// A line has at most so many bytes, and that of a tail half of them.
const MOST: usize = 16;

// The text has no more bytes than there is room for. Where the room suffices for any records, none is looked at.
fn fits(input: &[u8], room: usize) -> bool
    ensures { result ≡ leb (length (text_of input.now)) room }
{
    if 8 <= room && input.len() / RECORD <= (room - 8) / MOST {
        return true;
    }
    measure(input, room)
}

// The same, by the text itself: what is left of the room is counted.
fn measure(input: &[u8], room: usize) -> bool
    ensures { result ≡ leb (length (text_of input.now)) room }
{
    let mut left = room;
    for i in 0..input.len() / RECORD {
        let size = size_of(input, i * RECORD);
        if left < size {
            return false;
        }
        left -= size;
    }
    if input.len() % RECORD != 0 {
        return 8 <= left;
    }
    true
}

// How many bytes the line of the record at a place has: it is put together to be measured.
fn size_of(input: &[u8], at: usize) -> usize
    requires { at + 8 ≤ length input.now }
    ensures { result ≡ length (line_of (verdict (drop at input.now))) }
{
    let mut room = [0u8; MOST];
    let mut line = Line::new(&mut room);
    mending_records::put_verdict(&mut line, mending_records::look(input, at), input, at);
    line.to
}

// Answers how many bytes the text has.
fn mend_records(input: &[u8], output: &mut [u8], text: &mut [u8]) -> usize
    requires { length output.old ≡ 8 * whole input.now }
    ensures { (output.new ≡ mended_file input.now) ×
        ((result, text.new) ≡ Text·put 0 (text_of input.now) text.old) }
{
    let mut line = Line::new(text);
    put_records(input, output, &mut line);
    line.to
}

fn put_records(input: &[u8], output: &mut [u8], line: &mut Line)
    requires { length output.old ≡ 8 * whole input.now }
    ensures mended { output.new ≡ mended_file input.now }
    ensures same { line.new.bytes.ghost_name ≡ line.old.bytes.ghost_name }
    ensures put { (line.new.to, line.new.bytes.now) ≡ Text·put line.old.to (text_of input.now) line.old.bytes.now }
{
    for i in 0..input.len() / RECORD {
        let at = i * RECORD;
        let found = mending_records::look(input, at);
        mending_records::store_right(output, at, found, input);
        mending_records::put_verdict(line, found, input, at);
    }
    let tail = input.len() % RECORD;
    if tail != 0 {
        line.put_counted(b"short", tail as u64);
    }
}
