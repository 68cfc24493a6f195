//! A snapshot of a session.
ghost use Rattle.mdb_schema.specs.Answer.{ask};
ghost use Rattle.mdb_schema.specs.ErrorsTold.{AnswersAsk};
ghost use Rattle.client_session.specs.inner.SnapshotView.{snapshot_view};

use mdb_schema::{Answer, AskError, Query};
use mem_txn::{ReadTxn, Snapshot};

/// A snapshot, which stays as it is.
#[derive(Drop)]
pub(crate) enum AnySnapshot {
    /// Of a read transaction.
    Committed(ReadTxn),
    /// Of a write transaction, with its writes so far.
    Uncommitted(Snapshot),
}

impl AnySnapshot {
    /// What a question is answered.
    pub(crate) fn ask(&self, query: &Query) -> Result<Answer, AskError>
        ensures { let s = snapshot_view self.now in AnswersAsk (ask s.schema s.state query.now) result }
    {
        match self {
            AnySnapshot::Committed(txn) => txn.ask(query),
            AnySnapshot::Uncommitted(snapshot) => snapshot.ask(query),
        }
    }
}
