//! What a poll of a session did.

/// What [`poll_session`](crate::poll::poll_session) did. A line is told by its number in the
/// client's file.
#[derive(Clone, Copy, Debug, PartialEq, Eq)]
pub enum Polled {
    /// The line was answered.
    Answered { line: u32 },
    /// The line is still to do: it is a wait, and all that it waits for was quiet behind the notes.
    Parked { line: u32 },
    /// The line is still to do: it is `write`, and another caller has the writer's turn.
    Held { line: u32 },
    /// No line is left.
    Ended,
}
