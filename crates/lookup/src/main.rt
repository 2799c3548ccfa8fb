// Looks up records: reads records of four bytes, a dimension and three signed bytes, from standard
// input, and writes a line of text for each to standard output.
#![tactic(auto)]

use std::io::{Read, Write};

// A block has whole records, so none stands in two.
const BLOCK: usize = 1024;

// Room for the text of a block: a line has at most 68 bytes.
const ROOM: usize = 17408;

// Answers one block, and whether to go on: a block that is not full is the last, as where a read failed, and so is one whose answer
// cannot be written.
// Keeping the loop out of it lets Rattle prove it with no loop.
fn answer_block<R: Read, W: Write>(from: &mut R, to: &mut W) -> bool {
    let mut input = [0u8; BLOCK];
    let mut output = [0u8; ROOM];
    let (count, _) = streams::fill(from, &mut input);
    let Ok(written) = records::answer(&input[..count], &mut output) else {
        return false;
    };
    let is_written = to.write_all(&output[..written]).is_ok();
    is_written && count == BLOCK
}

// No contract can say what is read or written; tests/lookup runs it. A proved loop has to end, and nothing says that the
// input does, so the loop counts its turns up to a number that no run reaches.
fn main(rt: HostRuntime) {
    let mut from = rt.stdin();
    let mut to = rt.stdout();
    for _ in 0..u64::MAX {
        if !answer_block(&mut from, &mut to) {
            return;
        }
    }
}
