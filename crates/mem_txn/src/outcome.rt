//! What the calls hand back that take a pass or an item.
use crate::change_list::ChangeList;
use crate::deferred::DeferredList;
use crate::pass::Pass;
use crate::txn_error::{BeginError, CommitError};
use crate::write_txn::WriteTxn;
use watch_word::Front;

/// A write transaction that isn't begun.
pub struct BeginRefused {
    pub pass: Pass,
    pub cause: BeginError,
}

/// What one try to begin a write transaction gives.
pub enum Tried<D> {
    /// The transaction.
    Begun(WriteTxn<D>),
    /// The pass: another caller's write transaction is open.
    Taken(Pass),
}

/// A commit that is refused, which has aborted its transaction.
pub struct CommitRefused {
    pub pass: Pass,
    pub cause: CommitError,
}

/// An item that isn't deferred, for want of memory.
#[derive(Drop)]
pub struct DeferRefused<D> {
    pub item: D,
}

/// What a commit did: its number, the log of firings, which has all that the commits up to this one
/// fire, the deferred items, last deferred first, and what it changed in tracked tables.
#[derive(Drop)]
pub struct Receipt<D> {
    pub number: u64,
    pub log: Front,
    pub items: DeferredList<D>,
    pub changes: ChangeList,
}

/// A commit that was made.
pub struct Committed<D> {
    pub pass: Pass,
    pub receipt: Receipt<D>,
}
