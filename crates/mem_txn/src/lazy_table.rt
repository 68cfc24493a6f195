//! A table of a write transaction.
ghost use Rattle.std.specs.Prelude.{◌≡◌, ◌∷◌, [], ℕ, false, IfOk, OnErr, unwrap_or};
ghost use Rattle.std.specs.Arc.{arc_value};
ghost use Rattle.mdb_schema.specs.Answer.{ask_rows};
ghost use Rattle.mdb_schema.specs.ErrorsTold.{AnswersAsk};
ghost use Rattle.mdb_schema.specs.Write.{put_row, remove_row};
ghost use Rattle.mem_txn.specs.DbTxn.{gives_replaced, gives_row};
ghost use Rattle.mem_txn.specs.inner.VersionTables.{AnswersRows, Draws, HasChanged, IsWithin};
ghost use Rattle.mem_txn.specs.inner.VersionTables.{standing, unwritten};
ghost use Rattle.mem_txn.specs.inner.DbTxnView.{BeginsAs};
ghost use Rattle.mem_txn.specs.inner.Ended.{AreNetsOf, EndsWith, net_tracked};
ghost use Rattle.table_index.specs.Shared.{AllCellsTell};
ghost use Rattle.mem_txn.specs.inner.Wipes.{AnswersGone, wiped_by};

use crate::wipe::Wipe;
use mdb_datum::Row;
use mdb_schema::{Answer, AskError, Query, Rows, WriteError};
use radix_node::Ids;
use std::alloc::{AllocError, Global};
use std::marker::Model;
use std::sync::Arc;
use table_index::table_laws::{nothing_is_written, rows_are_held};
use table_index::{NetList, Notices, Table, TableTxn, WipeError};
use watch_word::Front;

/// A table of a write transaction, which is opened at the first write to it; seen as a
/// `TableChange`.
#[derive(Drop)]
pub(crate) struct LazyTable {
    /// What the transaction began with.
    shared: Arc<Table, Global>,
    open: Option<TableTxn>,
}

/// What a table of a transaction ends with: the table, the notices of the cells that are gone, if
/// it was open, and what became of its rows, if it is tracked too.
#[derive(Drop)]
pub(crate) struct Ended {
    pub(crate) table: Arc<Table, Global>,
    pub(crate) notices: Option<Notices>,
    pub(crate) nets: Option<NetList>,
}

impl Model for LazyTable {
    ghost use Rattle.table_index.specs.Table.{TableChange};
    ghost use Rattle.table_index.specs.Codes.{table_change_code};

    ghost Value = { TableChange };

    ghost coded = { table_change_code };

    ghost use Rattle.mem_txn.specs.inner.DbTxnView.{lazy_table_view, IsLazyTable};

    ghost view = { lazy_table_view };

    ghost invariant = { IsLazyTable };
}

impl LazyTable {
    /// A table that nobody has written to.
    pub(crate) fn of(shared: Arc<Table, Global>) -> LazyTable
        ensures table { result ≡ unwritten (arc_value shared) }
        ensures changed { (first : ℕ) → HasChanged first [] result }
    {
        nothing_is_written(&shared);
        LazyTable { shared, open: None }
    }

    /// The open table, which is taken out. After `AllocError` all is as before.
    fn opened(&mut self) -> Result<TableTxn, AllocError>
        ensures open { IfOk result (λ t. t ≡ self.old) }
        ensures begun { IfOk result (λ t. BeginsAs self.new t) }
        ensures unchanged { OnErr result (self.new ≡ self.old) }
    {
        match self.open.take() {
            Some(txn) => Ok(txn),
            None => self.shared.txn(),
        }
    }

    /// Puts a row, and tells whether one was replaced. After want of memory the rows mean nothing.
    pub(crate) fn put(
        &mut self,
        front: &Front,
        ids: &mut Ids,
        row: &Row,
    ) -> Result<bool, WriteError>
        requires sound { self.old.spoiled ≡ false }
        requires book { front.now.book ≡ ids.old.book }
        requires within { IsWithin ids.old self.old }
        ensures answers { AnswersRows gives_replaced (row.now ∷ [])
            (put_row self.old.schema row.now self.old.rows)
            result ids.old ids.new self.old self.new }
        ensures cells { Draws ids.old ids.new self.old self.new }
    {
        let mut txn = self.opened()?;
        let told = txn.put(front, ids, row);
        self.open = Some(txn);
        told
    }

    /// Takes out the row of another's `id` key, and gives it. After want of memory the rows mean
    /// nothing.
    pub(crate) fn remove(
        &mut self,
        front: &Front,
        ids: &mut Ids,
        row: &Row,
    ) -> Result<Row, WriteError>
        requires sound { self.old.spoiled ≡ false }
        requires book { front.now.book ≡ ids.old.book }
        requires within { IsWithin ids.old self.old }
        ensures answers { AnswersRows gives_row []
            (remove_row self.old.schema row.now self.old.rows) result ids.old ids.new self.old
            self.new }
        ensures cells { Draws ids.old ids.new self.old self.new }
    {
        let mut txn = self.opened()?;
        let told = txn.remove(front, ids, row);
        self.open = Some(txn);
        told
    }

    /// Takes out the rows of a wipe, and gives them. A table that isn't open is opened once no rule
    /// refuses the wipe, so that want of memory is never told in place of a rule. After it the rows
    /// mean nothing.
    pub(crate) fn wipe(
        &mut self,
        front: &Front,
        ids: &mut Ids,
        wipe: Wipe,
        query: &Query,
    ) -> Result<Rows, WipeError>
        requires sound { self.old.spoiled ≡ false }
        requires book { front.now.book ≡ ids.old.book }
        requires within { IsWithin ids.old self.old }
        ensures answers { AnswersGone
            (wiped_by wipe self.old.schema self.old.rows query.now) result ids.old ids.new self.old
            self.new }
        ensures cells { Draws ids.old ids.new self.old self.new }
    {
        let mut txn = match self.open.take() {
            Some(txn) => txn,
            None => wipe.begin(&self.shared, query)?,
        };
        let told = wipe.take(&mut txn, front, ids, query);
        self.open = Some(txn);
        told
    }

    /// What a question is answered.
    pub(crate) fn ask(&mut self, query: &Query) -> Result<Answer, AskError>
        requires sound { self.old.spoiled ≡ false }
        ensures answers { AnswersAsk
            (ask_rows self.old.schema self.old.rows query.now) result }
        ensures unchanged { self.new ≡ self.old }
    {
        match &mut self.open {
            Some(txn) => txn.ask(query),
            None => self.shared.ask(query),
        }
    }

    /// The present table. It takes memory only where the table is open.
    pub(crate) fn stand(&mut self, alloc: Global) -> Result<Arc<Table, Global>, AllocError>
        requires sound { self.old.spoiled ≡ false }
        ensures table { IfOk result (λ t. arc_value t ≡ standing self.old) }
        ensures unchanged { self.new ≡ self.old }
    {
        match &mut self.open {
            Some(txn) => Ok(Arc::new(alloc, txn.stand()?)?),
            None => Arc::try_clone(&self.shared),
        }
    }

    /// The table that the writes end with, with the notices of the cells that are gone and what
    /// became of the rows. It takes memory only where it was open.
    pub(crate) fn freeze(self, alloc: Global) -> Result<Ended, AllocError>
        requires sound { self.spoiled ≡ false }
        ensures table { IfOk result (λ e. arc_value e.table ≡ standing self) }
        ensures ends { IfOk result (λ e. EndsWith self (arc_value e.table) e.notices) }
        ensures nets { IfOk result (λ e. AreNetsOf self (unwrap_or e.nets [])) }
    {
        // Brings the definition's laws into the proof.
        let _ = self.shared.def().len();
        let LazyTable { shared, open } = self;
        rows_are_held(&shared);
        match open {
            Some(txn) => freeze_open(alloc, &shared, txn),
            None => Ok(Ended {
                table: shared,
                notices: None,
                nets: None,
            }),
        }
    }
}

/// What a table ends with that was opened.
fn freeze_open(alloc: Global, shared: &Table, txn: TableTxn) -> Result<Ended, AllocError>
    requires sound { txn.spoiled ≡ false }
    requires begun { BeginsAs (unwritten shared.now) txn }
    ensures table { IfOk result (λ e. arc_value e.table ≡ standing txn) }
    ensures ends { IfOk result (λ e. EndsWith txn (arc_value e.table) e.notices) }
    ensures nets { IfOk result (λ e.
        unwrap_or e.nets [] ≡ net_tracked txn.schema shared.now.rows txn.rows) }
{
    rows_are_held(shared);
    let (table, notices) = txn.freeze()?;
    rows_are_held(&table);
    let nets = net_if_tracked(shared, &table)?;
    Ok(Ended {
        table: Arc::new(alloc, table)?,
        notices: Some(notices),
        nets,
    })
}

/// What became of the rows of a table, if it is tracked.
fn net_if_tracked(old: &Table, new: &Table) -> Result<Option<NetList>, AllocError>
    requires schema { new.now.schema ≡ old.now.schema }
    requires cells { AllCellsTell old.now.trees new.now.trees }
    ensures { IfOk result (λ nets.
        unwrap_or nets [] ≡ net_tracked old.now.schema old.now.rows new.now.rows) }
{
    let tracked = old.def().tracked();
    if tracked {
        Ok(Some(old.net(new)?))
    } else {
        Ok(None)
    }
}
