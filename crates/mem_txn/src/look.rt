//! What a check of a watch finds.

/// What a check of a watch finds, after so many commits.
#[derive(Clone, Copy, Debug, PartialEq, Eq)]
pub enum Look {
    /// The answer has not changed up to the commit before this one, and up to this one where that
    /// is the caller's own.
    Quiet { at: u64 },
    /// The watch's cell has fired, and the question has another one. So its answer may have
    /// changed.
    Fired { at: u64 },
}
