//! Sets of watches, as go-memdb's `WatchSet`.
//!
//! A [`WatchSet`] holds watches under names, each of another cell, and waits until one of them has
//! fired or another watch cancels the wait. A watch that is told to have fired was checked in this
//! call, after a check of each member before it that found it quiet. A look at the set ends at the
//! first member that isn't quiet, so it takes time in the number of members; a cell is looked for
//! among the members the same way. All watches of a set are of one database.
#![tactic(auto)]

mod look;
mod member;
mod set;
pub mod set_laws;
mod woken;

pub use set::WatchSet;
pub use woken::Woken;
