//! The rules of a line.

/// A rule that a line breaks: the first that its tests find, in their order.
#[derive(Clone, Copy)]
pub(crate) enum LineRule {
    /// Its first word, or the word of its question, is none of the commands.
    UnknownWord,
    /// It has too few or too many words, another word than `until`, or a limit of another form.
    BadShape,
    /// A name has another form.
    BadName,
    /// Its document or list can't be read, or has another form.
    BadDoc,
}
