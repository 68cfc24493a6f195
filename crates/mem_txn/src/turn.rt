//! The writer's turn of a caller.
ghost use Rattle.std.specs.Prelude.{◌≡◌, ◌≤◌, ◌<◌, ◌+◌, ◌^◌, ◌++◌, ◌∷◌, [], IfOk, length};
ghost use Rattle.std.specs.Arc.{arc_value};
ghost use Rattle.mem_txn.specs.Database.{IsOf, cells_seen, state_seen};
ghost use Rattle.db_front.specs.Commits.{HasFirstFirings};
ghost use Rattle.mem_txn.specs.CellHistory as firings;
ghost use Rattle.mem_txn.specs.Checked.{Hears, IdsTellCells};
ghost use Rattle.mem_txn.specs.Transactions.{TellsChanges};
ghost use Rattle.mem_txn.specs.inner.DbTxnView.{AreCounted, AreSince, IsBase};
ghost use Rattle.mem_txn.specs.inner.Commits.{IsNext};
ghost use Rattle.mem_txn.specs.inner.Firing.{AreGone, cells_told};
ghost use Rattle.mem_txn.specs.inner.Steps.{HasLastFirings};
ghost use Rattle.mem_txn.specs.inner.VersionTables.{StandFor};
ghost use Rattle.mem_txn.specs.inner.Versions.{IsToken, StandsFor, caller_of};
ghost use Rattle.watch_word.specs.Logs.{IsLater};

use crate::db::Db;
use crate::firing::fire_tables;
use crate::pass::{Pass, Token, hear};
use crate::txn_tables::TxnTables;
use crate::version::Version;
use db_front::{Ready, Shown};
use mdb_schema::Schema;
use std::alloc::{AllocError, Global};
use std::marker::Model;
use std::sync::{Arc, Wait};
use table_index::Notices;
use watch_word::Front;

/// A caller that has the writer's turn, whose log has all that the commits fire, with the value
/// after all of them; seen as the caller and the value. It can't be dropped.
pub(crate) struct Turn {
    token: Token,
    base: Arc<Version, Global>,
}

impl Model for Turn {
    ghost use Rattle.mem_txn.specs.Codes.{turned_code};
    ghost use Rattle.mem_txn.specs.inner.Versions.{Turned};

    ghost Value = { Turned };

    ghost coded = { turned_code };

    ghost use Rattle.mem_txn.specs.inner.Views.{turn_view, IsTurn};

    ghost view = { turn_view };

    ghost invariant = { IsTurn };
}

impl Turn {
    /// The turn of a pass that has begun, which was shown this, and keeps its log.
    pub(crate) fn of(mut token: Token, shown: Shown<Version>) -> Turn
        requires begun { IsToken 1 token }
        requires stands { StandsFor token.seen (arc_value shown.value) }
        requires number { shown.number + 1 ≡ length token.seen }
        requires log { HasFirstFirings HasLastFirings shown.number token.seen shown.log }
        ensures { Hears (caller_of token) result.caller }
    {
        let Shown {
            value,
            number: _,
            finished: _,
            log,
        } = shown;
        hear(&mut token, &log);
        Turn { token, base: value }
    }

    /// The number of all commits.
    pub(crate) fn count(&self) -> u64
        ensures number { result ≡ length self.now.caller.seen }
        ensures few { result ≤ 2 ^ 63 }
    {
        self.base.view().number()
    }

    /// Brings what is known of the value into a proof.
    pub(crate) fn base_is_known(&self)
        ensures { IsBase self.now }
    {
        let _ = self.base.view();
    }

    /// What is known of its caller: of the watches that it holds, ids tell cells.
    pub(crate) fn ids_tell_cells(&self)
        ensures { IdsTellCells self.now.caller }
    {
        let _ = self.token.number();
    }

    /// The schema of its database.
    pub(crate) fn schema(&self) -> &Schema
        ensures { result.now ≡ self.now.caller.schema }
    {
        self.base.view().schema()
    }

    /// A second owner of the schema.
    pub(crate) fn share_schema(&self) -> Result<Arc<Schema, Global>, AllocError>
        ensures { IfOk result (λ s. arc_value s ≡ self.now.caller.schema) }
    {
        self.base.view().share_schema()
    }

    /// The log of firings, of its database's book.
    pub(crate) fn front(&self) -> &Front
        ensures { result.now.book ≡ self.now.base.ids.book }
    {
        self.token.log()
    }

    /// A second front of the log, which has all that the commits fire.
    pub(crate) fn share_front(&self) -> Front
        ensures fired { let p = self.now.caller in
            firings.HasFirings (cells_seen p) (length p.seen) result }
        ensures later { let p = self.now.caller in IsLater p.log result }
        ensures book { let p = self.now.caller in result.book ≡ p.book }
    {
        self.token.log().share()
    }

    /// Tables that nobody has written to, with the ids that come next. It takes memory for the list
    /// of them. So what an aborted transaction drew is drawn again.
    pub(crate) fn tables(&self, alloc: Global) -> Result<TxnTables, AllocError>
        ensures tables { IfOk result
            (λ ts. StandFor ts.tables self.now.caller.schema (state_seen self.now.caller)) }
        ensures ids { IfOk result (λ ts. AreCounted self.now 0 ts.ids) }
        ensures since { IfOk result (λ ts. AreSince self.now [] ts.tables) }
    {
        let ids = self.base.share_ids()?;
        TxnTables::of(alloc, self.base.view().tables(), ids)
    }

    /// Gives the turn back without a commit. It takes no memory.
    pub(crate) fn leave(self, db: &Db) -> Pass
        requires own { IsOf db.now self.caller }
        ensures { result ≡ self.caller }
    {
        let Turn { mut token, base } = self;
        db.shared.leave(&mut token);
        drop(base);
        Pass { token }
    }

    /// Shows the next value, which is the commit, fires the cells that are gone, and gives the turn
    /// back, with the log, which the pass keeps. Who sleeps until a commit is finished is woken
    /// where somebody sleeps on one of the cells. It takes no memory. What the value before it has
    /// alone is dropped once the turn is back.
    pub(crate) fn commit<R: Wait>(
        self,
        rt: &R,
        db: &Db,
        ready: Ready<Version>,
        gone: &[Notices],
    ) -> (Pass, Front)
        requires own { IsOf db.now self.caller }
        requires few { length self.caller.seen < 2 ^ 63 }
        requires next { IsNext self ready }
        requires gone { AreGone self.base.trees ready.trees (cells_told gone.now) }
        ensures pass { let p = self.caller in result.0 ≡ record p {
          seen = p.seen ++ record { caller = p.number; writes = ready.writes } ∷ [];
          trees = p.trees ++ ready.trees ∷ [];
          own = p.own ++ record { caller = p.number; writes = ready.writes } ∷ [];
          log = result.1;
        } }
        ensures later { let p = self.caller in IsLater p.log result.1 }
        ensures book { let made = result.0 in result.1.book ≡ made.book }
        ensures fired { let made = result.0 in
            firings.HasFirings (cells_seen made) (length made.seen) result.1 }
        ensures told { let made = result.0 in TellsChanges (cells_seen made) result.1 }
    {
        let number = self.count() + 1;
        let Turn { mut token, base } = self;
        db.shared.publish(rt, &mut token, ready);
        let mut attended = false;
        let log = fire_tables(&token, gone, token.log(), number, &mut attended);
        db.shared.finish(rt, &mut token, log.share(), attended);
        token.keep(log.share());
        drop(base);
        (Pass { token }, log)
    }
}
