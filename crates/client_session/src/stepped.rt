//! What a step of a session did.

/// What [`Session::step`](crate::Session::step) did. A line is told by its number in the client's
/// file.
#[derive(Clone, Copy, Debug, PartialEq, Eq)]
pub enum Stepped {
    /// The line was answered.
    Answered { line: u32 },
    /// The line is still to do: it is `write`, and another caller has the writer's turn, or it is a
    /// wait, and all that it waits for was quiet.
    Blocked { line: u32 },
    /// No line is left.
    Ended,
}
