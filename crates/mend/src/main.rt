// Mends a lookup file: mend IN OUT BESIDE reads the file IN block by block, writes what it mends to BESIDE, which must not exist, and
// says to standard output what became of each record. At the end BESIDE takes the name OUT. A file that cannot be opened, read or
// written is named on standard error; BESIDE is then removed, all else is as it was, and the status is 1.
#![tactic(auto)]

ghost use Rattle.std.specs.Prelude.{◌≤◌, length};

use mending::Totals;
use std::env::Env;
use std::fs;
use std::fs::{File, OpenOptions};
use std::io::{Error, ErrorKind, IsTerminal, Write};
use std::process::ExitCode;
use text::Line;

// A block has whole records, so none stands in two.
const BLOCK: usize = 65536;

// Room for the text of a block: sixteen bytes a record and eight for the tail.
const ROOM: usize = 131080;

// The longest name of a file that is read; a longer one counts as empty, and no file has that name.
const LONGEST: usize = 4096;

// How many blocks go by between two counts on a terminal.
const PAUSE: u64 = 16;

// The system's number for text that is no text: a name has to be UTF-8.
const NO_TEXT: i32 = 84;

// What could not be read, written or said, and why.
#[derive(Drop)]
enum Fault {
    Unread(Error),
    Unwritten(Error),
    Unsaid(Error),
}

// The file that is read, the one that is made, and the name that it goes by until it is whole.
#[derive(Clone, Copy)]
struct Names<'a> {
    from: &'a str,
    to: &'a str,
    beside: &'a str,
}

// Writes what was mended of a block and what is said of it.
fn deliver(rt: &HostRuntime, to: &mut File, output: &[u8], text: &[u8]) -> Result<Totals, Fault> {
    to.write_all(output).map_err(Fault::Unwritten)?;
    rt.stdout().write_all(text).map_err(Fault::Unsaid)?;
    Ok(mending::tally(text))
}

// Mends the bytes of a block.
fn mend_bytes(
    rt: &HostRuntime,
    input: &[u8],
    to: &mut File,
    output: &mut [u8],
    text: &mut [u8],
) -> Result<Totals, Fault>
    requires { length input.now ≤ length output.old }
{
    let whole = input.len() / 8 * 8;
    let Ok(said) = mending::mend(input, &mut output[..whole], text) else {
        return Err(Fault::Unsaid(Error::from(ErrorKind::InvalidInput)));
    };
    deliver(rt, to, &output[..whole], &text[..said])
}

// Mends one block, and says whether it is the last: one that is not full is.
fn mend_block(
    rt: &HostRuntime,
    from: &mut File,
    to: &mut File,
    input: &mut [u8],
    output: &mut [u8],
    text: &mut [u8],
) -> Result<(Totals, bool), Fault>
    requires { length input.old ≤ length output.old }
{
    let (count, read) = streams::fill(from, input);
    read.map_err(Fault::Unread)?;
    let totals = mend_bytes(rt, &input[..count], to, output, text)?;
    Ok((totals, count < BLOCK))
}

fn sum(a: Totals, b: Totals) -> Totals {
    Totals {
        kept: a.kept.wrapping_add(b.kept),
        mended: a.mended.wrapping_add(b.mended),
        blanked: a.blanked.wrapping_add(b.blanked),
    }
}

fn put_total(line: &mut Line, n: usize, word: &[u8]) {
    line.put_number(n as u64);
    line.put(word);
}

// How many records were kept, mended and blanked, to standard error. On a terminal a count stands on one line and is written over.
fn show(rt: &HostRuntime, totals: Totals, end: u8) {
    let mut room = [0u8; 96];
    let mut line = Line::new(&mut room);
    put_total(&mut line, totals.kept, b" kept, ");
    put_total(&mut line, totals.mended, b" mended, ");
    put_total(&mut line, totals.blanked, b" blanked");
    line.put_byte(end);
    let count = line.to.min(line.bytes.len());
    let _ = rt.stderr().write_all(&line.bytes[..count]);
}

// Mends block by block to the end of the input, or to a fault. A proved loop has to end, and nothing says that the input does, so the
// loop counts its turns up to a number that no run reaches.
fn mend_blocks(
    rt: &HostRuntime,
    from: &mut File,
    to: &mut File,
    input: &mut [u8],
    output: &mut [u8],
    text: &mut [u8],
) -> Result<Totals, Fault>
    requires { length input.old ≤ length output.old }
{
    let is_watched = rt.stderr().is_terminal();
    let mut totals = Totals::default();
    for turn in 0..u64::MAX {
        let (more, is_last) = mend_block(rt, from, to, input, output, text)?;
        totals = sum(totals, more);
        if is_last {
            return Ok(totals);
        }
        if is_watched && turn % PAUSE == PAUSE - 1 {
            show(rt, totals, b'\r');
        }
    }
    Err(Fault::Unread(Error::from(ErrorKind::Other)))
}

// The room to work in, once for all blocks.
fn mend_all(rt: &HostRuntime, from: &mut File, to: &mut File) -> Result<Totals, Fault> {
    let mut input = [0u8; BLOCK];
    let mut output = [0u8; BLOCK];
    let mut text = [0u8; ROOM];
    mend_blocks(rt, from, to, &mut input, &mut output, &mut text)
}

// What was written has reached the disk, and the mended file takes its name.
fn finish(rt: &HostRuntime, made: File, names: &Names) -> Result<(), Error> {
    made.sync_all()?;
    drop(made);
    fs::rename(rt, names.beside, names.to)
}

// Why a call failed, in the system's words.
fn put_reason(rt: &HostRuntime, why: Error) -> Result<(), Error> {
    let reason = format!(in rt.alloc(); "{why}")?;
    if let Some(code) = why.raw_os_error() {
        let tail = format!(in rt.alloc(); " (os error {code})")?;
        if let Some(words) = reason.as_str().strip_suffix(tail.as_str()) {
            return rt.stderr().write_all(words.as_bytes());
        }
    }
    rt.stderr().write_all(reason.as_str().as_bytes())
}

// Says on standard error what could not be opened, read or written, and why.
fn fail(rt: &HostRuntime, what: &[u8], why: Error) {
    let _ = rt.stderr().write_all(what);
    let _ = rt.stderr().write_all(b": ");
    let _ = put_reason(rt, why);
    let _ = rt.stderr().write_all(b"\n");
}

// Says what could not be done of a file that has these names.
fn say(rt: &HostRuntime, names: &Names, fault: Fault) {
    match fault {
        Fault::Unread(why) => fail(rt, names.from.as_bytes(), why),
        Fault::Unsaid(why) => fail(rt, b"standard output", why),
        Fault::Unwritten(why) => fail(rt, names.to.as_bytes(), why),
    }
}

fn open(rt: &HostRuntime, names: &Names) -> Result<(File, File), Fault> {
    let file = File::open(rt, names.from).map_err(Fault::Unread)?;
    let made = OpenOptions::new()
        .write(true)
        .create_new(true)
        .open(rt, names.beside)
        .map_err(Fault::Unwritten)?;
    Ok((file, made))
}

// Mends a file into one that was made, which takes its name.
fn mend_into(rt: &HostRuntime, mut file: File, mut made: File, names: &Names) -> Result<(), Fault> {
    let totals = mend_all(rt, &mut file, &mut made)?;
    finish(rt, made, names).map_err(Fault::Unwritten)?;
    show(rt, totals, b'\n');
    Ok(())
}

// Whether all was done.
fn mend_file(rt: &HostRuntime, names: &Names) -> bool {
    let (file, made) = match open(rt, names) {
        Ok(files) => files,
        Err(fault) => {
            say(rt, names, fault);
            return false;
        }
    };
    if let Err(fault) = mend_into(rt, file, made, names) {
        say(rt, names, fault);
        let _ = fs::remove_file(rt, names.beside);
        return false;
    }
    true
}

// A name as text, or a fault that names it.
fn text_of<'a>(rt: &HostRuntime, name: &'a [u8]) -> Option<&'a str> {
    match std::str::from_utf8(name) {
        Ok(text) => Some(text),
        Err(_) => {
            fail(rt, name, Error::from_raw_os_error(NO_TEXT));
            None
        }
    }
}

fn mend_named(rt: &HostRuntime, from: &[u8], to: &[u8], beside: &[u8]) -> Option<bool> {
    let from = text_of(rt, from)?;
    let to = text_of(rt, to)?;
    let beside = text_of(rt, beside)?;
    Some(mend_file(rt, &Names { from, to, beside }))
}

fn main(rt: HostRuntime) -> ExitCode {
    let mut from = [0u8; LONGEST];
    let mut to = [0u8; LONGEST];
    let mut beside = [0u8; LONGEST];
    let from_count = rt.arg(1, &mut from).unwrap_or(0);
    let to_count = rt.arg(2, &mut to).unwrap_or(0);
    let beside_count = rt.arg(3, &mut beside).unwrap_or(0);
    let is_done = mend_named(
        &rt,
        &from[..from_count],
        &to[..to_count],
        &beside[..beside_count],
    );
    if is_done.unwrap_or(false) {
        ExitCode::SUCCESS
    } else {
        ExitCode::FAILURE
    }
}
