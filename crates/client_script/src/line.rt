//! A line that has a command.

use crate::command::Command;

/// A command, and the number of its line, counted from 1.
#[derive(Drop)]
pub struct Line {
    pub number: u32,
    pub command: Command,
}
