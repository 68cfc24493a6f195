//! Gates between the lines of scripts.
/// What a session passes at each line of its script. It promises nothing.
pub trait Gate {
    /// Called ahead of the command of a line.
    fn before(&self, client: u32, line: u32);

    /// Called when the answer to a line is kept.
    fn after(&self, client: u32, line: u32);
}

/// A gate that holds nobody: both calls return at once.
#[derive(Clone, Copy, Debug)]
pub struct OpenGate;

impl Gate for OpenGate {
    /// It returns at once.
    fn before(&self, _client: u32, _line: u32) {}

    /// It returns at once.
    fn after(&self, _client: u32, _line: u32) {}
}
