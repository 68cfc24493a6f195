//! What is read and what is refused, worked from the format of client files. A file is told as its
//! commands with their numbers, or as the rule that it breaks with the number of the line.

mod commands;
mod lines;
mod lists;
mod refusals;
pub mod told;
