//! The words of a command.
use mdb_datum::Text;
use std::alloc::{AllocError, Global};

/// Adds a word.
fn push_word(alloc: Global, words: &mut Vec<Text>, word: &str) -> Result<(), AllocError> {
    words.push(Text::of(alloc, word)?)?;
    Ok(())
}

/// The words that a character parts in a text: none, where it is empty.
pub(crate) fn parted(alloc: Global, text: &str, by: char) -> Result<Vec<Text>, AllocError> {
    let mut words = Vec::new(alloc);
    if text.is_empty() {
        return Ok(words);
    }
    for word in text.split(by) {
        push_word(alloc, &mut words, word)?;
    }
    Ok(words)
}
