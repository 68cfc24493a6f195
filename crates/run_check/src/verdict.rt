//! What is said of a text.

/// Whether a text is one history of some clients.
#[derive(Clone, Copy, Debug, PartialEq, Eq)]
pub enum Verdict {
    /// It is.
    Legal,
    /// It is not: the number of its first bad line, counted from 1.
    Not { line: u32 },
}
