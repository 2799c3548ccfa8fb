// One record of a lookup file: what is known of its vector, its right bytes, and the line that says what became of it.
#![tactic(auto)]

ghost use Rattle.std.specs.Prelude.{◌≡◌, [], ◌∷◌, ◌+◌, ◌≤◌, length, drop};
ghost use Rattle.common.specs.Numbers.{told};
ghost use Rattle.text.specs.Text.{put as Text·put};
ghost use Rattle.mending_lines.specs.Records.{right, taken, verdict, line as line_of, found as found_of};
ghost use Rattle.mending_lines.specs.Working.{changed_later, no_place};

use common::Refusal;
use mending_lines::{is_same, put_kept, put_places};
use text::Line;
use vectors::Known;

// What is known of the vector of the record at a place.
pub fn look(input: &[u8], at: usize) -> Result<Known, Refusal>
    requires { at + 8 ≤ length input.now }
    ensures { told result ≡ found_of (drop at input.now) }
{
    records::look_up_bytes(input[at], input[at + 1], input[at + 2], input[at + 3])
}

// Stores the right bytes of the record at a place.
pub fn store_right(output: &mut [u8], at: usize, found: Result<Known, Refusal>, input: &[u8])
    requires { (at + 8 ≤ length output.old) × (at + 8 ≤ length input.now) × (told found ≡ found_of (drop at input.now)) }
    ensures { (at + 8, output.new) ≡ Text·put at (right (drop at input.now)) output.old }
{
    let dimension = input[at];
    match found {
        Err(_) => {
            store_four(output, at, [0, 0, 0, 0]);
            store_four(output, at + 4, [0, 0, 0, 0]);
        }
        Ok(known) => {
            store_four(
                output,
                at,
                [dimension, input[at + 1], input[at + 2], input[at + 3]],
            );
            store_four(
                output,
                at + 4,
                [known.case as u8, known.reference as u8, 0, 0],
            );
        }
    }
}

// Stores four bytes.
fn store_four(output: &mut [u8], at: usize, bytes: [u8; 4])
    requires { at + 4 ≤ length output.old }
    ensures { (at + 4, output.new) ≡ Text·put at bytes output.old }
{
    output[at..at + 4].copy_from_slice(&bytes);
}

// The line of the record at a place.
pub fn put_verdict(line: &mut Line, found: Result<Known, Refusal>, input: &[u8], at: usize)
    requires { (at + 8 ≤ length input.now) × (told found ≡ found_of (drop at input.now)) }
    ensures same { line.new.bytes.ghost_name ≡ line.old.bytes.ghost_name }
    ensures put { (line.new.to, line.new.bytes.now) ≡
        Text·put line.old.to (line_of (verdict (drop at input.now))) line.old.bytes.now }
{
    match found {
        Err(refusal) => line.put_counted(b"blanked", refusal.number() as u64),
        Ok(known) => put_taken(line, known, input, at),
    }
}

// The line of a record whose vector is taken.
fn put_taken(line: &mut Line, known: Known, input: &[u8], at: usize)
    requires { at + 8 ≤ length input.now }
    ensures same { line.new.bytes.ghost_name ≡ line.old.bytes.ghost_name }
    ensures put { (line.new.to, line.new.bytes.now) ≡
        Text·put line.old.to (line_of (taken (changed_later known (drop at input.now)))) line.old.bytes.now }
{
    if is_kept(known, input, at) {
        put_kept(line);
    } else {
        line.put(b"mended");
        put_places(line, known, input, at);
        line.put_byte(b'\n');
    }
}

// The later bytes of the record at a place are those of the lookup. All are looked at, so that there is no branch.
fn is_kept(known: Known, input: &[u8], at: usize) -> bool
    requires { at + 8 ≤ length input.now }
    ensures { result ≡ no_place (changed_later known (drop at input.now)) }
{
    let is_case = is_same(input[at + 4], known.case);
    let is_reference = is_same(input[at + 5], known.reference);
    is_case & is_reference & is_same(input[at + 6], 0) & is_same(input[at + 7], 0)
}
