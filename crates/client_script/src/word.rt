//! The words of a line.
ghost use Rattle.std.specs.Prelude.{◌≡◌, reverse, not};
ghost use Rattle.std.specs.List.{prefix_len};
ghost use Rattle.client_script.specs.Lines.{is_blank, after_blanks, trimmed, without_return};
ghost use Rattle.client_script.specs.Lines.{first_word};
ghost use Rattle.client_script.specs.inner.WordView.{word_of};

/// A word, and what follows it without the blanks between.
#[derive(Clone, Copy)]
pub(crate) struct Word<'a> {
    pub(crate) text: &'a str,
    pub(crate) rest: &'a str,
}

/// Whether a byte is a blank or a tab.
fn is_blank(byte: u8) -> bool
    ensures { result ≡ is_blank byte }
{
    byte == b' ' || byte == b'\t'
}

/// How many blanks a text begins with.
fn blanks_before(text: &str) -> usize
    ensures { result ≡ prefix_len is_blank text.now }
{
    let bytes = text.as_bytes();
    bytes.iter().take_while(|byte| is_blank(**byte)).count()
}

/// How many blanks a text ends with.
fn blanks_behind(text: &str) -> usize
    ensures { result ≡ prefix_len is_blank (reverse text.now) }
{
    let bytes = text.as_bytes();
    bytes
        .iter()
        .rev()
        .take_while(|byte| is_blank(**byte))
        .count()
}

/// The length of the word that a text begins with.
fn word_len(text: &str) -> usize
    ensures { result ≡ prefix_len (λ b. not (is_blank b)) text.now }
{
    let bytes = text.as_bytes();
    bytes.iter().take_while(|byte| !is_blank(**byte)).count()
}

/// A text without the blanks at its start.
fn after_blanks(text: &str) -> &str
    ensures { result.now ≡ after_blanks text.now }
{
    let (_, rest) = text.split_at(blanks_before(text));
    rest
}

/// A line without the blanks at both ends.
pub(crate) fn trimmed(line: &str) -> &str
    ensures { result.now ≡ trimmed line.now }
{
    let text = after_blanks(line);
    let (kept, _) = text.split_at(text.len() - blanks_behind(text));
    kept
}

/// A line without one carriage return at its end.
pub(crate) fn without_return(line: &str) -> &str
    ensures { result.now ≡ without_return line.now }
{
    match line.strip_suffix('\r') {
        Some(kept) => kept,
        None => line,
    }
}

/// The first word of a line that begins with no blank.
pub(crate) fn first_word(line: &str) -> Word<'_>
    ensures { word_of result ≡ first_word line.now }
{
    let (text, behind) = line.split_at(word_len(line));
    Word {
        text,
        rest: after_blanks(behind),
    }
}
