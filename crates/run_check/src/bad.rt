//! A line that fails a test.

/// The number of a line of the text, counted from 1, that fails a test.
#[derive(Clone, Copy)]
pub(crate) struct BadLine {
    pub(crate) line: u32,
}
