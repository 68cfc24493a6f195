//! Transactions over one database.
//!
//! A [`Db`] is shared by its callers, on threads of their own, and a [`Pass`] is one caller's
//! token. A [`ReadTxn`] answers from the state after the commits that its caller has seen, whatever
//! is committed later. A [`WriteTxn`] owns its caller's pass, answers from the state after all
//! commits with its own writes, and ends by a commit or an abort; no other caller commits
//! meanwhile. A [`Snapshot`] of one stays as it is. A read begins in constant time, a write and a
//! commit in the number of tables; a table is copied at the first write to it, by paths.
//!
//! Each value keeps the counter of the ids that its cells have, and a transaction draws from a copy
//! of it. So an abort gives its ids back. A write is refused for want of ids only where there are
//! at least 2^36 writes.
//!
//! A commit shows its value, and then fires the cells that are gone from the trees. A question of a
//! read transaction may be asked with the watch of its answer ([`ReadTxn::ask_watch`]). The log
//! that a commit gives has the cell of each watched question whose answer has changed, whoever
//! holds the watch; what no commit fires guards its answer ([`pass_laws`]). A pass keeps the log as
//! far as its caller has seen it. [`ReadTxn::check`] tells by it whether a held watch is quiet, up
//! to the commit before the last one seen, or has fired; [`Db::check`] is a read and such a check.
//!
//! All commits are one list, of which each pass has seen a beginning, as `db_front` has it, and
//! [`Db::close`] gives the state after all of them. What the clauses say of a pass stands in
//! `specs/Database.antt`, of a check in `specs/Checked.antt`, and of a transaction in
//! `specs/Transactions.antt`. A call that takes a runtime may wait for another caller, and `write`
//! waits for an open write transaction. A pass, a list of them and a write transaction can't be let
//! go.
#![tactic(auto)]

mod accepted;
mod begin;
mod change_list;
mod check;
mod commit;
mod db;
mod db_txn;
mod deferred;
mod firing;
mod held;
mod lazy_table;
mod look;
mod outcome;
mod pass;
pub mod pass_laws;
mod passes;
mod read_txn;
mod snapshot;
mod turn;
mod txn_error;
mod txn_tables;
mod version;
mod view;
mod wipe;
mod write_txn;

pub use change_list::{Change, ChangeList};
pub use db::Db;
pub use deferred::DeferredList;
pub use held::Held;
pub use look::Look;
pub use outcome::{BeginRefused, CommitRefused, Committed, DeferRefused, Receipt, Tried};
pub use pass::Pass;
pub use passes::Passes;
pub use read_txn::ReadTxn;
pub use snapshot::Snapshot;
pub use txn_error::{BeginError, CommitError, SnapError, TxnAskError, TxnWipeError, TxnWriteError};
pub use write_txn::WriteTxn;
