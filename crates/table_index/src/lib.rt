//! Tables: rows under all their indexes.
//!
//! A [`Table`] keeps one radix tree an index, and contracts see it as its rows, rising by `id` key:
//! that each tree holds the index's entries of the rows is the type's invariant. It never changes;
//! a [`TableTxn`] makes new ones: it copies the shared nodes on the paths of its writes, with new
//! cells, changes its own in place, and tells at its end which cells are gone. A write and a question take time in the length of the keys and
//! the number of the row's keys, never in the number of rows; a list of rows, and a wipe, take time
//! in the number of the entries listed.
#![tactic(auto)]

mod answer;
mod ask;
mod ask_watch;
mod cut;
mod edits;
mod free_keys;
mod full_key;
mod id_key;
mod ids_left;
mod listed;
mod lookup;
mod net;
mod net_walk;
mod notices;
mod pieces;
mod put;
mod question_key;
mod refusal;
mod remove;
mod replace;
mod row_keys;
mod stored;
mod table;
pub mod table_laws;
mod table_txn;
mod tree_edit;
mod trees;
mod txn;
mod walk;
mod watched;
mod wipe;
mod wipe_error;
mod wipe_rules;

pub use net::{Net, NetList};
pub use notices::Notices;
pub use table::Table;
pub use table_txn::TableTxn;
pub use watched::{Spot, Watched};
pub use wipe_error::WipeError;
