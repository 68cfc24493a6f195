//! The lines of a file.
ghost use Rattle.std.specs.Prelude.{◌≡◌, ◌==◌, length, option_map, count_by, nat_le};
ghost use Rattle.client_script.specs.Lines.{lines_of};
ghost use Rattle.client_script.specs.Script.{line_limit};
ghost use Rattle.client_script.specs.inner.FirstLine.{first_line, is_ended};

/// A script has at most so many lines.
const LINE_LIMIT: usize = 100_000;

/// The first line without its line feed, and what follows it; nothing where no byte is left.
pub(crate) fn first_line(text: &str) -> Option<(&str, &str)>
    ensures { option_map (λ p. (p.0.now, p.1.now)) result ≡ first_line text.now }
{
    if text.is_empty() {
        return None;
    }
    match text.split_once('\n') {
        Some(parts) => Some(parts),
        None => Some((text, "")),
    }
}

/// How many bytes are a line feed.
fn line_feeds(bytes: &[u8]) -> usize
    ensures { result ≡ count_by (λ b. b == 10) bytes.now }
{
    bytes.iter().filter(|byte| **byte == b'\n').count()
}

/// Whether no line is left without its line feed.
fn is_ended(text: &str) -> bool
    ensures { result ≡ is_ended text.now }
{
    text.is_empty() || text.ends_with('\n')
}

/// Whether there are no more lines than a script may have. It takes no memory.
pub(crate) fn has_few_lines(text: &str) -> bool
    ensures { result ≡ nat_le (length (lines_of text.now)) line_limit }
{
    let feeds = line_feeds(text.as_bytes());
    if is_ended(text) {
        feeds <= LINE_LIMIT
    } else {
        feeds < LINE_LIMIT
    }
}
