// The text that the lookup program answers to records: a line for each record of four bytes, a
// dimension and three signed bytes.
#![tactic(auto)]

ghost use Rattle.std.specs.Prelude.{◌≡◌, leb, length, get_or};
ghost use Rattle.common.specs.Numbers.{told};
ghost use Rattle.text.specs.Text.{put as Text·put};
ghost use Rattle.vectors.specs.LookUps.{look_up};
ghost use Rattle.records.specs.Text.{vector, known_line, line as line_of, short, record_line, answer_call};
ghost use Rattle.records.specs.Text.{signed as Text·signed, text as Text·text};

use common::Refusal;
use text::Line;
use vectors::{Known, Vector};

// Writes the answer to the records of `input` over the start of `output`, and answers how many bytes it wrote. Too little room for it
// is refused with 7.
pub fn answer(input: &[u8], output: &mut [u8]) -> Result<usize, Refusal>
    ensures { (told result, output.new) ≡ answer_call input.now output.old }
{
    if !fits(input, output.len()) {
        return Err(Refusal::WrongLength);
    }
    Ok(put_text(output, input))
}

// The room of the longest line: three numbers of twenty digits and "near".
const ROOM: usize = 68;

// The text has no more bytes than there is room for. What is left of the room is counted, since the bytes of all lines together might
// not fit a number.
fn fits(input: &[u8], room: usize) -> bool
    ensures { result ≡ leb (length (Text·text input.now)) room }
{
    let (records, tail) = input.as_chunks::<4>();
    let mut spare = [0u8; ROOM];
    let mut left = room;
    for record in records {
        let size = size_of(record, &mut spare);
        if left < size {
            return false;
        }
        left -= size;
    }
    if !tail.is_empty() {
        return short_size(tail.len()) <= left;
    }
    true
}

// How many bytes the line of a record has: it is put together to be measured, in room that is lent once for all records.
fn size_of(bytes: &[u8; 4], spare: &mut [u8; ROOM]) -> usize
    ensures { result ≡ length (record_line (get_or bytes.now 0 0) (get_or bytes.now 1 0) (get_or bytes.now 2 0) (get_or bytes.now 3 0)) }
{
    let mut line = Line::new(spare);
    put_record(&mut line, bytes);
    line.to
}

// The same of the line of a record that is not finished.
fn short_size(count: usize) -> usize
    ensures { result ≡ length (short count) }
{
    let mut room = [0u8; ROOM];
    let mut line = Line::new(&mut room);
    line.put_counted(b"short", count as u64);
    line.to
}

// The text, from the output's first byte on, and how many bytes it has.
fn put_text(output: &mut [u8], input: &[u8]) -> usize
    ensures { (result, output.new) ≡ Text·put 0 (Text·text input.now) output.old }
{
    let mut line = Line::new(output);
    put_records(&mut line, input);
    line.to
}

fn put_records(line: &mut Line, input: &[u8])
    ensures same { line.new.bytes.ghost_name ≡ line.old.bytes.ghost_name }
    ensures put { (line.new.to, line.new.bytes.now) ≡ Text·put line.old.to (Text·text input.now) line.old.bytes.now }
{
    let (records, rest) = input.as_chunks::<4>();
    for record in records {
        put_record(line, record);
    }
    if !rest.is_empty() {
        line.put_counted(b"short", rest.len() as u64);
    }
}

// The line of a record.
fn put_record(line: &mut Line, bytes: &[u8; 4])
    ensures same { line.new.bytes.ghost_name ≡ line.old.bytes.ghost_name }
    ensures put { (line.new.to, line.new.bytes.now) ≡ Text·put line.old.to
        (record_line (get_or bytes.now 0 0) (get_or bytes.now 1 0) (get_or bytes.now 2 0) (get_or bytes.now 3 0))
        line.old.bytes.now }
{
    let [dimension, x, y, z] = *bytes;
    put_line(line, look_up_bytes(dimension, x, y, z));
}

// What is known of the vector that three signed bytes are, in the dimension that an unsigned one is.
pub fn look_up_bytes(dimension: u8, x: u8, y: u8, z: u8) -> Result<Known, Refusal>
    ensures { told result ≡ look_up dimension (vector x y z) }
{
    vectors::look_up(dimension as usize, Vector(signed(x), signed(y), signed(z)))
}

// A byte as a signed number.
fn signed(b: u8) -> i32
    ensures { result ≡ Text·signed b }
{
    if b < 128 { b as i32 } else { b as i32 - 256 }
}

fn put_line(line: &mut Line, found: Result<Known, Refusal>)
    ensures same { line.new.bytes.ghost_name ≡ line.old.bytes.ghost_name }
    ensures put { (line.new.to, line.new.bytes.now) ≡ Text·put line.old.to (line_of (told found)) line.old.bytes.now }
{
    match found {
        Ok(known) => put_known(line, known),
        Err(refusal) => line.put_counted(b"refused", refusal.number() as u64),
    }
}

fn put_known(line: &mut Line, known: Known)
    ensures same { line.new.bytes.ghost_name ≡ line.old.bytes.ghost_name }
    ensures put { (line.new.to, line.new.bytes.now) ≡ Text·put line.old.to (known_line known) line.old.bytes.now }
{
    line.put_number(known.index as u64);
    line.put_next(known.case as u64);
    line.put_next(known.reference as u64);
    if known.near {
        line.put(b" near\n");
    } else {
        line.put(b" far\n");
    }
}
