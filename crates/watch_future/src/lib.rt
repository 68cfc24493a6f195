//! Waits for sets of watches without a thread that waits.
//!
//! [`poll_watch`] takes notes of the watches of a set and then looks once. Where it is pending,
//! whoever goes on polls again once a watch that was noted has moved: a program with a loop of its
//! own keeps a [`NoteList`] and asks it after each commit, and a [`WatchFuture`] registers at the
//! context of its poll. Since the notes come before the look, no commit falls between them.
//!
//! The layer above may use the clauses of these calls, which say of the pass what those of
//! [`watch_set::WatchSet::look_once`] say. No clause says that a registered waker is called. A poll
//! takes time in the number of the watches.
#![tactic(auto)]

mod cx_notes;
mod future;
mod note_list;
mod noted_watch;
mod noting;
mod poll;
pub mod poll_laws;

pub use future::WatchFuture;
pub use note_list::NoteList;
pub use noting::Notes;
pub use poll::{note_all, poll_watch};
