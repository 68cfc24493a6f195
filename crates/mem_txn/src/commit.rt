//! Commits of write transactions.
ghost use Rattle.mem_txn.specs.Database.{IsOf};
ghost use Rattle.mem_txn.specs.inner.Commits.{AnswersDbTxn};

use crate::change_list::ChangeList;
use crate::db::Db;
use crate::db_txn::{DbTxn, Next};
use crate::outcome::CommitRefused;
use crate::pass::Pass;
use crate::txn_error::CommitError;
use std::sync::Wait;
use watch_word::Front;

/// Shows the state with a transaction's writes, and gives its pass back, which has made the commit,
/// with the log that has all that it fires, and what it changed in tracked tables. All memory is
/// taken before the new state is shown.
pub(crate) fn commit<R: Wait>(
    rt: &R,
    txn: DbTxn,
    db: &Db,
) -> Result<(Pass, Front, ChangeList), CommitRefused>
    requires own { IsOf db.now txn.caller }
    ensures { AnswersDbTxn txn result }
{
    if txn.spoiled() {
        return Err(CommitRefused {
            pass: txn.abort(db),
            cause: CommitError::Spoiled,
        });
    }
    match txn.freeze(db) {
        Ok((turn, next)) => {
            let Next {
                ready,
                gone,
                changes,
            } = next;
            let (pass, log) = turn.commit(rt, db, ready, &gone);
            Ok((pass, log, changes))
        }
        Err(turn) => Err(CommitRefused {
            pass: turn.leave(db),
            cause: CommitError::Memory,
        }),
    }
}
