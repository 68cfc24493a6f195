//! Cells that fire once, and the log of their firings, which only grows.
//!
//! A [`WatchCell`] is one atomic word: 0 until the cell fires, and then the number of the commit
//! that fired it. All cells of a database share a [`Book`], whose log lists the cells that have
//! fired, each once. The log stands in proofs alone: at run time there are the words and nothing
//! else. A [`Front`] is a copy of the log as far as it was seen. It has no bytes, takes no memory,
//! and is a beginning of every log that is seen later.
//!
//! [`fire`] fires a cell, and [`Watch::moved`] tells whether one has fired. Each is one atomic
//! step, waits for nobody and takes no memory. The layer above may use the clauses of these calls
//! and the definitions of `specs/Logs.antt`.
//!
//! A front, a cell and a book belong together where contracts see the same `book` in them: each
//! call asks for it. Contracts know a cell by its key in the book, which is no number of the
//! program; the id is what its maker gave it. The log has a cell's id from when its word is ready,
//! so no word is handed out under two ids.
//!
//! A cell has a mark beside its word, which says that somebody sleeps until it fires. No contract
//! speaks of it.
#![tactic(auto)]

mod book;
mod cell;
mod event;
mod front;
mod rule;
mod watch;

pub use book::{Book, open_book};
pub use cell::{Moved, WatchCell, fire, one_key_is_one_cell, open_cell};
pub use front::Front;
pub use watch::Watch;
