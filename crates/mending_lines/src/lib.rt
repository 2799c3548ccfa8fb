// Parts of the line that says what became of a record: that it was kept, or the places that change in it. The rule of a record stands here.
#![tactic(auto)]

ghost use Rattle.std.specs.Prelude.{◌≡◌, ◌+◌, ◌≤◌, eqb, length, drop};
ghost use Rattle.text.specs.Text.{put as Text·put};
ghost use Rattle.mending_lines.specs.Records.{kept_line, places};
ghost use Rattle.mending_lines.specs.Working.{place_if, changed_later};

use text::Line;
use vectors::Known;

// A byte is this number.
pub fn is_same(old: u8, new: usize) -> bool
    ensures { result ≡ eqb old new }
{
    usize::from(old) == new
}

// The line of a kept record. Most are: where there is room its five bytes are stored at once.
pub fn put_kept(line: &mut Line)
    ensures same { line.new.bytes.ghost_name ≡ line.old.bytes.ghost_name }
    ensures put { (line.new.to, line.new.bytes.now) ≡ Text·put line.old.to kept_line line.old.bytes.now }
{
    let to = line.to;
    if to < line.bytes.len() && 5 <= line.bytes.len() - to {
        line.bytes[to..to + 5].copy_from_slice(b"kept\n");
        line.to += 5;
    } else {
        line.put(b"kept\n");
    }
}

// A space and the number of each place that changes in the record at a place.
pub fn put_places(line: &mut Line, known: Known, input: &[u8], at: usize)
    requires { at + 8 ≤ length input.now }
    ensures same { line.new.bytes.ghost_name ≡ line.old.bytes.ghost_name }
    ensures put { (line.new.to, line.new.bytes.now) ≡
        Text·put line.old.to (places (changed_later known (drop at input.now))) line.old.bytes.now }
{
    put_place(line, 4, input[at + 4], known.case);
    put_place(line, 5, input[at + 5], known.reference);
    put_place(line, 6, input[at + 6], 0);
    put_place(line, 7, input[at + 7], 0);
}

// A space and the number of a place, where its two bytes differ.
fn put_place(line: &mut Line, place: u64, old: u8, new: usize)
    ensures same { line.new.bytes.ghost_name ≡ line.old.bytes.ghost_name }
    ensures put { (line.new.to, line.new.bytes.now) ≡ Text·put line.old.to (places (place_if place old new)) line.old.bytes.now }
{
    if !is_same(old, new) {
        line.put_next(place);
    }
}
