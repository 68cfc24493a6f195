//! Write transactions.
ghost use Rattle.std.specs.Prelude.{◌≡◌, ◌++◌, ◌∷◌, [], IfErr, OnErr, OnOk, length};
ghost use Rattle.mdb_schema.specs.Answer.{ask};
ghost use Rattle.mdb_schema.specs.Wipe.{wipe, wipe_by_prefix};
ghost use Rattle.mdb_schema.specs.Write.{put, remove};
ghost use Rattle.mem_txn.specs.DbTxn.{AnswersTxnAsk, AnswersTxnWipe, AnswersTxnWrite};
ghost use Rattle.mem_txn.specs.DbTxn.{gives_replaced, gives_row, present, present_view};
ghost use Rattle.mem_txn.specs.CellHistory.{HasFirings};
ghost use Rattle.mem_txn.specs.Database.{IsOf, cells_seen};
ghost use Rattle.mem_txn.specs.Transactions.{AnswersCommit, AnswersSnapshot, txn_of, items_of};
ghost use Rattle.watch_word.specs.Logs.{IsLater};

use crate::commit::commit;
use crate::db::Db;
use crate::db_txn::DbTxn;
use crate::deferred::DeferredList;
use crate::outcome::{CommitRefused, Committed, DeferRefused, Receipt};
use crate::pass::Pass;
use crate::snapshot::Snapshot;
use crate::txn_error::{SnapError, TxnAskError, TxnWipeError, TxnWriteError};
use mdb_datum::Row;
use mdb_schema::{Answer, Query};
use std::alloc::AllocFailed;
use std::sync::Wait;
use watch_word::Front;

/// A caller's write transaction. It owns its pass, and has to be spent by [`WriteTxn::commit`] or
/// [`WriteTxn::abort`]: one that is let go doesn't compile.
pub struct WriteTxn<D> {
    pub(crate) db_txn: DbTxn,
    pub(crate) deferred: Vec<D>,
}

impl<D: Drop> WriteTxn<D> {
    /// The number of the commit on which it stands.
    pub fn number(&self) -> u64
        ensures { result ≡ length (txn_of self.now).caller.seen }
    {
        self.db_txn.number()
    }

    /// A front of the log of firings with which it began, which has all that the commits up to its
    /// number fire. It takes no memory.
    pub fn front(&self) -> Front
        ensures fired { let p = (txn_of self.now).caller in
            HasFirings (cells_seen p) (length p.seen) result }
        ensures later { let p = (txn_of self.now).caller in IsLater p.log result }
        ensures book { let p = (txn_of self.now).caller in result.book ≡ p.book }
    {
        self.db_txn.front()
    }

    /// What a question is answered of the state with the transaction's own writes, or the first
    /// rule that it breaks. Want of memory is never told in place of a rule.
    pub fn ask(&mut self, query: &Query) -> Result<Answer, TxnAskError>
        ensures answers { let t = txn_of self.old in
            AnswersTxnAsk t.spoiled (ask t.caller.schema (present t) query.now) result }
        ensures txn { txn_of self.new ≡ txn_of self.old }
        ensures items { items_of self.new ≡ items_of self.old }
    {
        self.db_txn.ask(query)
    }

    /// Puts a row into the table of a name, and tells whether a row of its `id` key was replaced. A
    /// refusal changes nothing. Want of memory spoils the transaction.
    pub fn insert(&mut self, table: &str, row: &Row) -> Result<bool, TxnWriteError>
        ensures answers { let t = txn_of self.old in
            AnswersTxnWrite gives_replaced (put table.now row.now) t.spoiled result t
            (txn_of self.new) }
        ensures items { items_of self.new ≡ items_of self.old }
    {
        self.db_txn.insert(table, row)
    }

    /// Takes the row of another's `id` key out of the table of a name, and gives it. A refusal
    /// changes nothing. Want of memory spoils the transaction.
    pub fn delete(&mut self, table: &str, row: &Row) -> Result<Row, TxnWriteError>
        ensures answers { let t = txn_of self.old in
            AnswersTxnWrite gives_row (remove table.now row.now) t.spoiled result t
            (txn_of self.new) }
        ensures items { items_of self.new ≡ items_of self.old }
    {
        self.db_txn.delete(table, row)
    }

    /// Takes out each row that the `get` of a question's index and arguments lists, and gives how
    /// many there were. A rule that the question breaks is told before any want of memory, and
    /// changes nothing. Want of memory spoils the transaction.
    pub fn delete_all(&mut self, query: &Query) -> Result<u64, TxnWipeError>
        ensures answers { let t = txn_of self.old in
            AnswersTxnWipe t.spoiled query.now.table
            (wipe t.caller.schema (present t) query.now) result t (txn_of self.new) }
        ensures items { items_of self.new ≡ items_of self.old }
    {
        self.db_txn.delete_all(query)
    }

    /// Does the same, where the name of the index ends in `_prefix`; else it is refused.
    pub fn delete_prefix(&mut self, query: &Query) -> Result<u64, TxnWipeError>
        ensures answers { let t = txn_of self.old in
            AnswersTxnWipe t.spoiled query.now.table
            (wipe_by_prefix t.caller.schema (present t) query.now) result t
            (txn_of self.new) }
        ensures items { items_of self.new ≡ items_of self.old }
    {
        self.db_txn.delete_prefix(query)
    }

    /// Keeps an item for the commit to hand out. After a refusal, for want of memory, all is as
    /// before.
    pub fn defer(&mut self, item: D) -> Result<(), DeferRefused<D>>
        ensures kept { OnOk result (items_of self.new ≡ items_of self.old ++ item ∷ []) }
        ensures unchanged { OnErr result (items_of self.new ≡ items_of self.old) }
        ensures item { IfErr result (λ refused. refused.item ≡ item) }
        ensures txn { txn_of self.new ≡ txn_of self.old }
    {
        match self.deferred.push(item) {
            Ok(()) => Ok(()),
            Err(AllocFailed { value }) => Err(DeferRefused { item: value }),
        }
    }

    /// The present state, with the transaction's own writes. It takes memory for a list of the
    /// tables, and for the indexes of those that were written. After a refusal all is as before.
    pub fn snapshot(&mut self) -> Result<Snapshot, SnapError>
        ensures answers { let t = txn_of self.old in
            AnswersSnapshot t.spoiled (present_view t) result }
        ensures txn { txn_of self.new ≡ txn_of self.old }
        ensures items { items_of self.new ≡ items_of self.old }
    {
        if self.db_txn.spoiled() {
            return Err(SnapError::Spoiled);
        }
        let number = self.db_txn.number();
        match self.db_txn.stand(number) {
            Ok(view) => Ok(Snapshot::of(view)),
            Err(_) => Err(SnapError::Memory),
        }
    }

    /// Gives the pass back, and drops the writes and the deferred items. It takes no memory, and
    /// waits for nobody.
    pub fn abort(self, db: &Db) -> Pass
        requires own { IsOf db.now (txn_of self).caller }
        ensures { result ≡ (txn_of self).caller }
    {
        let WriteTxn { db_txn, deferred } = self;
        drop(deferred);
        db_txn.abort(db)
    }

    /// Makes the writes a commit, fires the cells that are gone, and hands out the deferred items,
    /// last deferred first, and what has changed in tracked tables. All memory is taken before the
    /// new state is shown. A tracked table that was written to is compared with the one before, in
    /// time in the number of rows that differ. A commit that is refused has aborted the
    /// transaction.
    pub fn commit<R: Wait>(self, rt: &R, db: &Db) -> Result<Committed<D>, CommitRefused>
        requires own { IsOf db.now (txn_of self).caller }
        ensures { AnswersCommit self result }
    {
        let WriteTxn { db_txn, deferred } = self;
        let number = db_txn.number() + 1;
        match commit(rt, db_txn, db) {
            Ok((pass, log, changes)) => {
                let items = DeferredList::of(deferred);
                let receipt = Receipt {
                    number,
                    log,
                    items,
                    changes,
                };
                Ok(Committed { pass, receipt })
            }
            Err(refused) => Err(refused),
        }
    }
}
