//! The commands of a script.

use mdb_datum::{Row, Text};
use mdb_schema::Query;

/// What a line asks for. The names are seen as they are written.
#[derive(Drop)]
pub enum Command {
    /// Begins or ends a transaction.
    Transaction(TransactionCommand),
    /// Writes rows.
    Write(WriteCommand),
    /// `defer TEXT`: hands out a text after the commit.
    Defer { text: Text },
    /// Asks for rows.
    Ask(AskCommand),
    /// Keeps a snapshot or a watch under a name.
    Name(NameCommand),
    /// `size SET`: how many watches a set has.
    Size { set: Text },
    /// Looks at watches, or adds them to sets.
    Watches(WatchesCommand),
}

/// What begins or ends a transaction.
#[derive(Drop)]
pub enum TransactionCommand {
    /// `read`: begins a read transaction.
    Read,
    /// `write`: begins a write transaction.
    Write,
    /// `end`: ends the read transaction.
    End,
    /// `commit`: commits the write transaction.
    Commit,
    /// `abort`: aborts the write transaction.
    Abort,
}

/// What writes rows, in the write transaction.
#[derive(Drop)]
pub enum WriteCommand {
    /// `insert TABLE DOC`: puts a row.
    Insert { table: Text, row: Row },
    /// `delete TABLE DOC`: removes the row that has the `id` of this one.
    Delete { table: Text, row: Row },
    /// `delete-all TABLE INDEX ARGS`: removes the rows that the question `get` gives.
    DeleteAll { query: Query },
    /// `delete-prefix TABLE INDEX ARGS`: removes the same rows, by an index's name with `_prefix`.
    DeletePrefix { query: Query },
}

/// What asks for rows.
#[derive(Drop)]
pub enum AskCommand {
    /// A question of the open transaction.
    Question { query: Query },
    /// `in NAME QUESTION`: a question of a snapshot.
    InSnapshot { name: Text, query: Query },
}

/// What keeps a snapshot or a watch under a name.
#[derive(Drop)]
pub enum NameCommand {
    /// `snapshot NAME`: keeps the present state.
    Snapshot {
        name: Text,
    },
    /// `watch NAME QUESTION`: a question of the open transaction that keeps a watch.
    Watch {
        name: Text,
        query: Query,
    },
    /// `watch NAME in NAME QUESTION`: the same of a snapshot.
    WatchIn {
        name: Text,
        snapshot: Text,
        query: Query,
    },
}

/// What looks at watches, or adds them to sets. Several answers may be allowed.
#[derive(Drop)]
pub enum WatchesCommand {
    /// `check NAME`: whether a watch has fired.
    Check {
        name: Text,
    },
    /// `add SET NAME`: adds a watch to a set.
    Add {
        set: Text,
        name: Text,
    },
    /// `add-limit SET LIMIT NAME NAME`: adds the first watch while the set is smaller than the
    /// limit, and otherwise the second.
    AddLimit {
        set: Text,
        limit: u32,
        name: Text,
        other: Text,
    },
    /// `wait SET`: waits until a watch of the set fires.
    Wait {
        set: Text,
    },
    /// `wait SET until NAME`: the same, or until that watch fires.
    WaitUntil {
        set: Text,
        until: Text,
    },
}
