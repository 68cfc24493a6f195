//! What these tests have in common: sessions with their outputs, worked by hand, and files and sinks
//! in memory of which chosen calls fail.
//!
//! The sessions, the check of outputs and the loading of files are each tested by these, so that a
//! session is written once and held against all of them. The programs answer the same sessions as files
//! (`.ci/runs`).
mod files;
mod rows;
mod session;
mod tables;
mod users;
mod watches;
mod words;

pub(crate) use files::{File, Part, files_of, joined, list, listed, only, sink_with};
pub(crate) use rows::{ANN_OUT, ONE_TABLE};
pub(crate) use session::{Session, Worked, sessions_of_one};
pub(crate) use users::USERS;
pub(crate) use words::parted;
