//! The command `make`: clients that are made from three numbers, and what they leave, summed up.
//!
//! Schema and scripts are made as texts, which are read as those of files are. Each client writes
//! rows of its own, one in each of its rounds, drawn from the first number. So the summary of what
//! all leave is a function of the three numbers, in whatever order they commit.

mod drawing;
mod inputs;
mod last;
mod round;
mod schema;
mod scripts;
mod summary;
mod tally;

pub use self::summary::made_summary;
