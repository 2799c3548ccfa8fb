// An entry's line, read by one scan from its first byte to its end: once to test it, and once to take its number.
ghost use Rattle.std.specs.Prelude.{◌≡◌, true, ◌≤◌, ◌<◌, length};
ghost use Rattle.exchange_format.specs.Words.{most_size, numeral, entry};
ghost use Rattle.exchange_entries.specs.Working.{line_at, is_fit, signed_float, Scans, Reads, Valued};

// 2^53: every whole number up to it is a float.
const MOST_SIZE: usize = 9007199254740992;

// A number, and where the next line begins.
#[derive(Clone, Copy)]
struct Number {
    size: usize,
    next: usize,
}

// An entry's float, and where the next line begins.
#[derive(Clone, Copy)]
pub(crate) struct Entry {
    pub value: f64,
    pub next: usize,
}

// Digits from place `from` to the line's end, of a number up to 2^53: where the next line begins. A larger number is known at once, so
// nothing overflows.
fn scan_digits(text: &[u8], from: usize) -> Option<usize>
    requires { from ≤ length text.now }
    ensures { Scans text.now from (numeral most_size (line_at text.now from)) result }
{
    if text.len() <= from {
        return None;
    }
    let first = text[from];
    if !first.is_ascii_digit() {
        return None;
    }
    let mut n = (first - b'0') as usize;
    for i in from + 1..text.len() {
        let b = text[i];
        if !b.is_ascii_digit() {
            if b == b'\n' {
                return Some(i + 1);
            }
            return None;
        }
        n = n * 10 + (b - b'0') as usize;
        if MOST_SIZE < n {
            return None;
        }
    }
    Some(text.len())
}

// Tests the line that begins at place `at`, an optional minus and digits: where the next begins, if it is an entry.
pub(crate) fn scan_entry(text: &[u8], at: usize) -> Option<usize>
    requires { at < length text.now }
    ensures { Scans text.now at (entry (line_at text.now at)) result }
{
    let first = text[at];
    if first == b'-' {
        return scan_digits(text, at + 1);
    }
    scan_digits(text, at)
}

// The number of digits that are known to be one: only the line's end is looked for.
fn read_digits(text: &[u8], from: usize) -> Number
    requires { (from ≤ length text.now) × (is_fit (numeral most_size (line_at text.now from)) ≡ true) }
    ensures { Reads text.now from (numeral most_size (line_at text.now from)) result }
{
    let mut n = (text[from] - b'0') as usize;
    for i in from + 1..text.len() {
        let b = text[i];
        if b == b'\n' {
            return Number {
                size: n,
                next: i + 1,
            };
        }
        n = n * 10 + (b - b'0') as usize;
    }
    Number {
        size: n,
        next: text.len(),
    }
}

// A whole number as a float: nothing rounds, and since 0 has no sign before it is a float, there is one zero.
fn float_of(n: usize, is_negative: bool) -> f64
    requires { n ≤ most_size }
    ensures { result ≡ signed_float is_negative n }
{
    let z = n as i64;
    if is_negative {
        return -z as f64;
    }
    z as f64
}

// The line that begins at place `at`, which is known to be an entry.
pub(crate) fn read_entry(text: &[u8], at: usize) -> Entry
    requires { (at < length text.now) × (is_fit (entry (line_at text.now at)) ≡ true) }
    ensures { Valued text.now at result }
{
    if text[at] == b'-' {
        let number = read_digits(text, at + 1);
        let value = float_of(number.size, true);
        return Entry {
            value,
            next: number.next,
        };
    }
    let number = read_digits(text, at);
    let value = float_of(number.size, false);
    Entry {
        value,
        next: number.next,
    }
}
