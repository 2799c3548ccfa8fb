// What programs share that read block by block.
#![tactic(auto)]

ghost use Rattle.io.specs.Counts.{IsPrefixLen};

use std::io;
use std::io::Read;

// Reads until the block is full, the input ends or a read fails. Answers how many bytes it put at the start of the block, and whether a
// read failed.
pub fn fill<R: Read>(from: &mut R, block: &mut [u8]) -> (usize, io::Result<()>)
    ensures { IsPrefixLen result.0 block.new }
{
    let mut count = 0;
    while count < block.len() {
        match from.read(&mut block[count..]) {
            Err(why) => return (count, Err(why)),
            Ok(0) => return (count, Ok(())),
            Ok(more) => count += more,
        }
    }
    (count, Ok(()))
}
