// Lines of words: the first line, and the lines that are passed over before the size line.
ghost use Rattle.std.specs.Prelude.{◌≡◌, ◌==◌};
ghost use Rattle.std.specs.List.{list_all};
ghost use Rattle.exchange_format.specs.Lines.{space};
ghost use Rattle.exchange_format.specs.Words.{is_first, is_passed};

// The banner as it stands, and the other words in any case.
pub(crate) fn is_first(line: &[u8]) -> bool
    ensures { result ≡ is_first line.now }
{
    match line.strip_prefix(b"%%MatrixMarket") {
        Some(kind) => kind.eq_ignore_ascii_case(b" matrix array integer general"),
        None => false,
    }
}

// Spaces, or nothing.
fn is_blank(line: &[u8]) -> bool
    ensures { result ≡ list_all (λ x. x == space) line.now }
{
    line.iter().all(|b| *b == b' ')
}

// A comment or a blank line.
pub(crate) fn is_passed(line: &[u8]) -> bool
    ensures { result ≡ is_passed line.now }
{
    line.starts_with(b"%") || is_blank(line)
}
