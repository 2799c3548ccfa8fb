// Lines as parts of a text: where a line ends, and where the next begins.
ghost use Rattle.std.specs.Prelude.{◌≡◌, ◌≤◌, ◌==◌, not, length, position};
ghost use Rattle.exchange_lines.specs.Working.{Cut};

// Where a line ends, and where the next begins.
#[derive(Clone, Copy)]
pub(crate) struct Line {
    pub end: usize,
    pub next: usize,
}

// The place of the first b.
pub(crate) fn find(s: &[u8], b: u8) -> Option<usize>
    ensures { result ≡ position (λ x. x == b) s.now }
{
    s.iter().position(|x| *x == b)
}

// The place of the first byte that is no b.
pub(crate) fn skip(s: &[u8], b: u8) -> Option<usize>
    ensures { result ≡ position (λ x. not (x == b)) s.now }
{
    s.iter().position(|x| *x != b)
}

// The line that begins at place `at`. The last may lack its newline.
pub(crate) fn line_at(text: &[u8], at: usize) -> Line
    requires { at ≤ length text.now }
    ensures { Cut text.now at result.end result.next }
{
    match find(&text[at..], b'\n') {
        Some(long) => Line {
            end: at + long,
            next: at + long + 1,
        },
        None => Line {
            end: text.len(),
            next: text.len(),
        },
    }
}
