//! Why a request of a write transaction is refused.
use mdb_schema::{AskError, WriteError};
use table_index::WipeError;

/// Why a question of a write transaction is refused.
#[derive(Clone, Copy, Debug, PartialEq, Eq)]
pub enum TxnAskError {
    /// An earlier write of the transaction found no memory.
    Spoiled,
    /// The question itself is refused.
    Refused(AskError),
}

/// Why an insert or a delete is refused.
#[derive(Clone, Copy, Debug, PartialEq, Eq)]
pub enum TxnWriteError {
    /// An earlier write of the transaction found no memory.
    Spoiled,
    /// No table has this name.
    UnknownTable,
    /// The table refuses the write.
    Refused(WriteError),
}

/// Why a wipe is refused.
#[derive(Clone, Copy, Debug, PartialEq, Eq)]
pub enum TxnWipeError {
    /// An earlier write of the transaction found no memory.
    Spoiled,
    /// No table has this name.
    UnknownTable,
    /// The table refuses the wipe.
    Refused(WipeError),
}

/// Why a snapshot is refused.
#[derive(Clone, Copy, Debug, PartialEq, Eq)]
pub enum SnapError {
    /// There was not enough memory.
    Memory,
    /// An earlier write of the transaction found no memory.
    Spoiled,
}

/// Why no write transaction is begun.
#[derive(Clone, Copy, Debug, PartialEq, Eq)]
pub enum BeginError {
    /// There was not enough memory.
    Memory,
    /// There were as many commits as are counted, 2^63.
    CommitsSpent,
}

/// Why a commit is refused.
#[derive(Clone, Copy, Debug, PartialEq, Eq)]
pub enum CommitError {
    /// There was not enough memory.
    Memory,
    /// An earlier write of the transaction found no memory.
    Spoiled,
}
