// Reads each file that its arguments name as a Matrix Market file, and writes what came of it: the block written anew, or the refusal's
// number and line. A file that cannot be opened is named on standard error.
#![tactic(auto)]

ghost use Rattle.std.specs.Prelude.{◌≤◌};

use exchange::{Fault, Sizes};
use std::env::Env;
use std::fs::File;
use std::io::{Error, Write};

// Room for a file, and for the text of a block that was read from one.
const ROOM: usize = 2048;

// The most rows and the most columns of a block.
const MOST: usize = 12;

// The system's number for text that is no text: a name has to be UTF-8.
const NO_TEXT: i32 = 84;

// What cannot be written is left out.
fn say(rt: &HostRuntime, words: &[u8]) {
    let _ = rt.stdout().write_all(words);
}

fn write_name(rt: &HostRuntime, path: &[u8]) {
    say(rt, path);
    say(rt, b":\n");
}

// How much of our room a block takes. One that is larger is lent none of it, and refused with 7.
fn room_for(sizes: Sizes) -> usize
    ensures { result ≤ 144 }
{
    if sizes.rows <= MOST && sizes.columns <= MOST {
        sizes.rows * sizes.columns
    } else {
        0
    }
}

// Reads a text as a block, and writes the block anew.
fn write_again(rt: &HostRuntime, text: &[u8]) -> Result<(), Fault> {
    let count = room_for(exchange::block_size(text)?);
    let mut room = [0.0; MOST * MOST];
    let block = &mut room[..count];
    let sizes = exchange::read_block(text, block)?;
    let mut bytes = [0u8; ROOM];
    let long = exchange::write_block(sizes.rows, sizes.columns, block, &mut bytes)?;
    if long <= ROOM {
        say(rt, &bytes[..long]);
    }
    Ok(())
}

fn read_text(rt: &HostRuntime, text: &[u8]) {
    if let Err(fault) = write_again(rt, text) {
        let number = fault.refusal.number();
        let line = fault.line;
        let _ = println!(rt; "refused with {number} at line {line}");
    }
}

// Why a call failed, in the system's words.
fn put_reason(rt: &HostRuntime, why: Error) -> Result<(), Error> {
    let reason = format!(in rt.alloc(); "{why}")?;
    if let Some(code) = why.raw_os_error() {
        let tail = format!(in rt.alloc(); " (os error {code})")?;
        if let Some(words) = reason.as_str().strip_suffix(tail.as_str()) {
            return rt.stderr().write_all(words.as_bytes());
        }
    }
    rt.stderr().write_all(reason.as_str().as_bytes())
}

// Says on standard error what could not be opened, and why.
fn fail(rt: &HostRuntime, what: &[u8], why: Error) {
    let _ = rt.stderr().write_all(what);
    let _ = rt.stderr().write_all(b": ");
    let _ = put_reason(rt, why);
    let _ = rt.stderr().write_all(b"\n");
}

fn open(rt: &HostRuntime, path: &[u8]) -> Result<File, Error> {
    match std::str::from_utf8(path) {
        Ok(name) => File::open(rt, name),
        Err(_) => Err(Error::from_raw_os_error(NO_TEXT)),
    }
}

fn read_file(rt: &HostRuntime, path: &[u8]) {
    let mut bytes = [0u8; ROOM];
    match open(rt, path) {
        Err(why) => fail(rt, path, why),
        Ok(mut file) => {
            let (count, _) = streams::fill(&mut file, &mut bytes);
            drop(file);
            write_name(rt, path);
            read_text(rt, &bytes[..count]);
        }
    }
}

// Whether there was an argument with this number.
fn read_argument(rt: &HostRuntime, number: usize) -> bool {
    let mut path = [0u8; 64];
    let count = rt.arg(number, &mut path).unwrap_or(0);
    if count == 0 {
        return false;
    }
    read_file(rt, &path[..count]);
    true
}

// A proved loop has to end, so it counts up to more arguments than are given.
fn main(rt: HostRuntime) {
    for number in 1..1000 {
        if !read_argument(&rt, number) {
            break;
        }
    }
}
