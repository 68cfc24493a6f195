//! The start of write transactions.
ghost use Rattle.mem_txn.specs.Database.{IsOf};
ghost use Rattle.mem_txn.specs.Transactions.{AnswersBegin, AnswersTry};
ghost use Rattle.mem_txn.specs.inner.Commits.{AnswersTurn};

use crate::db::Db;
use crate::db_txn::DbTxn;
use crate::outcome::{BeginRefused, Tried};
use crate::pass::Pass;
use crate::turn::Turn;
use crate::txn_error::BeginError;
use crate::write_txn::WriteTxn;
use std::sync::Wait;

/// As many commits as are counted.
const COMMITS: u64 = 1 << 63;

impl Db {
    /// A write transaction of the caller on all commits, which owns its pass. It waits until no
    /// other write transaction is open. It takes memory for a list of the tables. A refusal gives
    /// the pass back.
    pub fn write<D: Drop, R: Wait>(&self, rt: &R, pass: Pass) -> Result<WriteTxn<D>, BeginRefused>
        requires own { IsOf self.now pass }
        ensures { AnswersBegin pass result }
    {
        let Pass { mut token } = pass;
        match self.shared.begin(rt, &mut token) {
            Ok(shown) => begun(self, Turn::of(token, shown)),
            Err(_) => Err(BeginRefused {
                pass: Pass { token },
                cause: BeginError::Memory,
            }),
        }
    }

    /// The same, but for one try: while another write transaction is open, the pass is given back.
    pub fn try_write<D: Drop, R: Wait>(&self, rt: &R, pass: Pass) -> Result<Tried<D>, BeginRefused>
        requires own { IsOf self.now pass }
        ensures { AnswersTry self.now.callers pass result }
    {
        let Pass { mut token } = pass;
        match self.shared.try_begin(rt, &mut token) {
            Ok(Some(shown)) => match begun(self, Turn::of(token, shown)) {
                Ok(txn) => Ok(Tried::Begun(txn)),
                Err(refused) => Err(refused),
            },
            Ok(None) => Ok(Tried::Taken(Pass { token })),
            Err(_) => Err(BeginRefused {
                pass: Pass { token },
                cause: BeginError::Memory,
            }),
        }
    }
}

/// The transaction of a caller that has the turn. A refusal gives the turn back.
fn begun<D: Drop>(db: &Db, turn: Turn) -> Result<WriteTxn<D>, BeginRefused>
    requires own { IsOf db.now turn.caller }
    ensures { AnswersTurn turn.caller result }
{
    let number = turn.count();
    if number == COMMITS {
        return Err(BeginRefused {
            pass: turn.leave(db),
            cause: BeginError::CommitsSpent,
        });
    }
    match turn.tables(db.alloc) {
        Ok(tables) => Ok(WriteTxn {
            db_txn: DbTxn::begun(db.alloc, turn, number, tables),
            deferred: Vec::new(db.alloc),
        }),
        Err(_) => Err(BeginRefused {
            pass: turn.leave(db),
            cause: BeginError::Memory,
        }),
    }
}
