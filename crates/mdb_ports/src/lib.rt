//! The outside as traits: files that are read, a sink that is written, and a gate at each line of a
//! script. Each trait counts its faults, in contracts alone. Where an object tells its files or its
//! bytes, a call's clauses say what it read or wrote; a real file or stream tells nothing, and its
//! clauses bound the counts and name the cause of a failure. The layers above see the three traits,
//! and a program chooses the real ones.
//!
//! `MemFiles` and `MemSink` stand in memory and fail at the calls that they are told. `DirFiles`
//! and `OutSink` are the thin real ends.
#![tactic(auto)]

mod call_list;
mod dir_files;
mod failed;
mod fault;
mod file_list;
mod files;
mod gate;
mod hold_gate;
mod mem_files;
mod mem_sink;
mod named_file;
mod out_sink;
mod retry;
mod sink;

pub use call_list::CallList;
pub use dir_files::DirFiles;
pub use failed::Failed;
pub use file_list::FileList;
pub use files::Files;
pub use gate::{Gate, OpenGate};
pub use hold_gate::{Hold, HoldGate};
pub use mem_files::MemFiles;
pub use mem_sink::MemSink;
pub use out_sink::OutSink;
pub use sink::Sink;
