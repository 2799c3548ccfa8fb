// The lines of a Matrix Market array file before its entries: the first line, what is passed over, and the size line.
#![tactic(auto)]

ghost use Rattle.std.specs.Prelude.{◌-◌, ◌+◌, ◌≤◌, length, take, drop};
ghost use Rattle.exchange_format.specs.Lines.{lines};
ghost use Rattle.exchange_format.specs.Words.{size};
ghost use Rattle.exchange_format.specs.Reading.{opened, size_line, opening};
ghost use Rattle.exchange_lines.specs.Working.{Opens};

mod lines;
mod numbers;
mod sizes;
mod words;

use common::Refusal;
use exchange_format::Fault;
use lines::Line;
pub use sizes::Sizes;

// A place in a text, and the number of the line that begins there. Lines count from 1.
#[derive(Clone, Copy)]
pub struct Cursor {
    pub at: usize,
    pub line: usize,
}

// What the lines before the entries say: the block's size, and where its entries begin.
#[derive(Clone, Copy)]
pub struct Opening {
    pub sizes: Sizes,
    pub rest: Cursor,
}

// The size line, line number k, from place `at` to the end that `line` says; there too stands where the next line begins.
fn size_at(text: &[u8], at: usize, line: Line, k: usize) -> Result<Opening, Fault>
    requires { (at ≤ line.end) × (line.end ≤ length text.now) × (line.next ≤ length text.now) × (k ≤ line.next + 1) }
    ensures { Opens text.now
        (opened k (size (take (line.end - at) (drop at text.now))) (lines (drop line.next text.now))) result }
{
    let Some(sizes) = numbers::size_of(&text[at..line.end]) else {
        return Err(Fault {
            refusal: Refusal::NoSize,
            line: k,
        });
    };
    Ok(Opening {
        sizes,
        rest: Cursor {
            at: line.next,
            line: k + 1,
        },
    })
}

// The size line is the first that is not passed over, from the second line on, which begins at place `from`.
fn find_size(text: &[u8], from: usize) -> Result<Opening, Fault>
    requires { from ≤ length text.now }
    ensures { Opens text.now (size_line 2 (lines (drop from text.now))) result }
{
    let mut at = from;
    let mut k = 2;
    while at < text.len() {
        let line = lines::line_at(text, at);
        if !words::is_passed(&text[at..line.end]) {
            return size_at(text, at, line, k);
        }
        at = line.next;
        k += 1;
    }
    Err(Fault {
        refusal: Refusal::NoSize,
        line: k,
    })
}

// The first line, and the lines up to the size line.
pub fn open(text: &[u8]) -> Result<Opening, Fault>
    ensures { Opens text.now (opening (lines text.now)) result }
{
    let first = lines::line_at(text, 0);
    if !words::is_first(&text[..first.end]) {
        return Err(Fault {
            refusal: Refusal::NoFirstLine,
            line: 1,
        });
    }
    find_size(text, first.next)
}
