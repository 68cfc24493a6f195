//! Snapshots of write transactions.
ghost use Rattle.std.specs.Prelude.{◌≡◌};
ghost use Rattle.mdb_schema.specs.Answer.{ask};
ghost use Rattle.mdb_schema.specs.ErrorsTold.{AnswersAsk};

use crate::view::View;
use mdb_schema::{Answer, AskError, Query};
use std::marker::Model;

/// The state of a write transaction at a moment, with its writes so far; seen as a `View`. It stays
/// as it is, whatever happens to the transaction.
#[derive(Drop)]
pub struct Snapshot {
    view: View,
}

impl Model for Snapshot {
    ghost use Rattle.mem_txn.specs.Database.{View};
    ghost use Rattle.mem_txn.specs.Codes.{view_code};

    ghost Value = { View };

    ghost coded = { view_code };

    ghost view = { λ s. s.view.view };
}

impl Snapshot {
    /// A snapshot of this state.
    pub(crate) fn of(view: View) -> Snapshot
        ensures { result ≡ view.view }
    {
        Snapshot { view }
    }

    /// The number of the commit on which its transaction stood.
    pub fn number(&self) -> u64
        ensures { result ≡ self.now.number }
    {
        self.view.number()
    }

    /// What a question is answered, or the first rule that it breaks, as [`crate::ReadTxn::ask`]
    /// does.
    pub fn ask(&self, query: &Query) -> Result<Answer, AskError>
        ensures { AnswersAsk (ask self.now.schema self.now.state query.now) result }
    {
        self.view.ask(query)
    }
}
