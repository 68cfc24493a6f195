//! The tables of a write transaction.
ghost use Rattle.std.specs.Prelude.{◌≡◌, ◌≤◌, ◌<◌, ◌++◌, ◌∷◌, [], false, IfOk, OnOk, ℕ, All, List};
ghost use Rattle.std.specs.Prelude.{Option, length, map, option_to_list, Some, unwrap_or};
ghost use Rattle.std.specs.Arc.{arc_value};
ghost use Rattle.mdb_schema.specs.Net.{Net, change_at};
ghost use Rattle.mdb_schema.specs.Write.{put_row, remove_row};
ghost use Rattle.mem_txn.specs.DbTxn.{gives_replaced, gives_row};
ghost use Rattle.mem_txn.specs.inner.VersionTables.{AnswersAskAt, AnswersAt, AreAllWithin, HasChanged};
ghost use Rattle.mem_txn.specs.inner.VersionTables.{IsSound, standing, trees_of, unwritten};
ghost use Rattle.mem_txn.specs.inner.Ended.{AreNetsOf, AreTold, EndWith, EndsWith};
ghost use Rattle.watch_word.specs.Logs.{Cell};
ghost use Rattle.mem_txn.specs.inner.Wipes.{AnswersGoneAt, wiped_by};

use crate::change_list::ChangeList;
use crate::lazy_table::{Ended, LazyTable};
use crate::wipe::Wipe;
use mdb_datum::Row;
use mdb_schema::{Answer, AskError, Query, Rows, WriteError};
use radix_node::Ids;
use std::alloc::{AllocError, Global};
use std::marker::Model;
use std::sync::Arc;
use table_index::{NetList, Notices, Table, WipeError};
use watch_word::Front;

/// The tables of a write transaction, each at its place in the schema, and the ids of the cells
/// that come next; seen as `Tables`.
#[derive(Drop)]
pub(crate) struct TxnTables {
    tables: Vec<LazyTable>,
    ids: Ids,
}

impl Model for TxnTables {
    ghost use Rattle.mem_txn.specs.Codes.{tables_code};
    ghost use Rattle.mem_txn.specs.inner.VersionTables.{Tables};

    ghost Value = { Tables };

    ghost coded = { tables_code };

    ghost use Rattle.mem_txn.specs.inner.Views.{tables_view, AreTables};

    ghost view = { tables_view };

    ghost invariant = { AreTables };
}

/// What a transaction ends with: its tables, the notices of those that were open, and what has
/// changed in those that are tracked.
#[derive(Drop)]
pub(crate) struct Frozen {
    pub(crate) tables: Vec<Arc<Table, Global>>,
    pub(crate) gone: Vec<Notices>,
    pub(crate) changes: ChangeList,
}

impl TxnTables {
    /// Tables that nobody has written to. It takes memory for the list of them.
    pub(crate) fn of(
        alloc: Global,
        shared: &[Arc<Table, Global>],
        ids: Ids,
    ) -> Result<TxnTables, AllocError>
        requires within { AreAllWithin ids (trees_of (map arc_value shared.now)) }
        ensures tables { IfOk result (λ ts. ts.tables ≡ map unwritten (map arc_value shared.now)) }
        ensures changed { IfOk result
            (λ ts. (first : ℕ) → All (HasChanged first []) ts.tables) }
        ensures ids { IfOk result (λ ts. ts.ids ≡ ids) }
    {
        let tables = unwritten(alloc, shared)?;
        Ok(TxnTables { tables, ids })
    }

    /// Puts a row into the table at a place.
    pub(crate) fn put(&mut self, place: usize, front: &Front, row: &Row) -> Result<bool, WriteError>
        requires within { place < length self.old.tables }
        requires sound { All IsSound self.old.tables }
        requires book { front.now.book ≡ self.old.ids.book }
        ensures { AnswersAt gives_replaced (row.now ∷ []) (λ t. put_row t.schema row.now t.rows)
            place result self.old self.new }
    {
        let table = &mut self.tables[place];
        table.put(front, &mut self.ids, row)
    }

    /// Takes the row of another's `id` key out of the table at a place, and gives it.
    pub(crate) fn remove(
        &mut self,
        place: usize,
        front: &Front,
        row: &Row,
    ) -> Result<Row, WriteError>
        requires within { place < length self.old.tables }
        requires sound { All IsSound self.old.tables }
        requires book { front.now.book ≡ self.old.ids.book }
        ensures { AnswersAt gives_row [] (λ t. remove_row t.schema row.now t.rows) place result
            self.old self.new }
    {
        let table = &mut self.tables[place];
        table.remove(front, &mut self.ids, row)
    }

    /// Takes the rows of a wipe out of the table at a place, and gives them.
    pub(crate) fn wipe(
        &mut self,
        place: usize,
        front: &Front,
        wipe: Wipe,
        query: &Query,
    ) -> Result<Rows, WipeError>
        requires within { place < length self.old.tables }
        requires sound { All IsSound self.old.tables }
        requires book { front.now.book ≡ self.old.ids.book }
        ensures { AnswersGoneAt (λ t. wiped_by wipe t.schema t.rows query.now) place result
            self.old self.new }
    {
        let table = &mut self.tables[place];
        table.wipe(front, &mut self.ids, wipe, query)
    }

    /// What a question of the table at a place is answered.
    pub(crate) fn ask(&mut self, place: usize, query: &Query) -> Result<Answer, AskError>
        requires within { place < length self.old.tables }
        requires sound { All IsSound self.old.tables }
        ensures answers { AnswersAskAt query.now place result self.old.tables }
        ensures unchanged { self.new ≡ self.old }
    {
        let table = &mut self.tables[place];
        table.ask(query)
    }

    /// The present tables. It takes memory for the list of them and for each that is open.
    pub(crate) fn stand(&mut self) -> Result<Vec<Arc<Table, Global>>, AllocError>
        requires sound { All IsSound self.old.tables }
        ensures tables { IfOk result (λ ts. map arc_value ts.items ≡ map standing self.old.tables) }
        ensures unchanged { self.new ≡ self.old }
    {
        let alloc = *self.tables.allocator();
        standing(alloc, &mut self.tables)
    }

    /// The tables that the writes end with, the ids that come next, the notices of the cells that
    /// are gone, and what has changed. It takes memory for the list of the tables, for each that is
    /// open, and for the changes.
    pub(crate) fn freeze(self) -> Result<(Frozen, Ids), AllocError>
        requires sound { All IsSound self.tables }
        requires few { length self.tables ≤ 64 }
        ensures tables { IfOk result (λ made. let end = made.0 in
            map arc_value end.tables.items ≡ map standing self.tables) }
        ensures ends { IfOk result (λ made. let end = made.0 in
            EndWith self.tables (map arc_value end.tables.items) end.gone.items) }
        ensures changes { IfOk result (λ made. let end = made.0 in
            AreTold 0 self.tables end.changes) }
        ensures ids { IfOk result (λ made. made.1 ≡ self.ids) }
        ensures within { IfOk result (λ made. let end = made.0 in
            AreAllWithin self.ids (trees_of (map arc_value end.tables.items))) }
    {
        let TxnTables { tables, ids } = self;
        let frozen = frozen_tables(*tables.allocator(), tables)?;
        Ok((frozen, ids))
    }
}

/// Tables that nobody has written to.
fn unwritten(alloc: Global, shared: &[Arc<Table, Global>]) -> Result<Vec<LazyTable>, AllocError>
    ensures tables { IfOk result (λ ts. ts.items ≡ map unwritten (map arc_value shared.now)) }
    ensures changed { IfOk result (λ ts. (first : ℕ) → All (HasChanged first []) ts.items) }
{
    let mut tables = Vec::with_capacity(alloc, shared.len())?;
    for table in shared {
        tables.push(LazyTable::of(Arc::try_clone(table)?))?;
    }
    Ok(tables)
}

/// The tables that writes to these end with, the notices of those that were open, and what has
/// changed.
fn frozen_tables(alloc: Global, tables: Vec<LazyTable>) -> Result<Frozen, AllocError>
    requires sound { All IsSound tables.items }
    requires few { length tables.items ≤ 64 }
    ensures tables { IfOk result
        (λ end. map arc_value end.tables.items ≡ map standing tables.items) }
    ensures ends { IfOk result
        (λ end. EndWith tables.items (map arc_value end.tables.items) end.gone.items) }
    ensures changes { IfOk result (λ end. AreTold 0 tables.items end.changes) }
{
    let mut frozen = Frozen {
        tables: Vec::with_capacity(alloc, tables.len())?,
        gone: Vec::new(alloc),
        changes: ChangeList::new(alloc),
    };
    freeze_all(&mut frozen, tables)?;
    Ok(frozen)
}

/// Adds the tables that writes to these end with, their notices, and what has changed, where there
/// are none yet.
fn freeze_all(frozen: &mut Frozen, tables: Vec<LazyTable>) -> Result<(), AllocError>
    requires sound { All IsSound tables.items }
    requires few { length tables.items ≤ 64 }
    requires none { (frozen.old.tables.items ≡ []) × (frozen.old.gone.items ≡ [])
        × (frozen.old.changes ≡ []) }
    ensures tables { OnOk result
        (map arc_value frozen.new.tables.items ≡ map standing tables.items) }
    ensures ends { OnOk result
        (EndWith tables.items (map arc_value frozen.new.tables.items) frozen.new.gone.items) }
    ensures changes { OnOk result (AreTold 0 tables.items frozen.new.changes) }
{
    for table in tables {
        freeze_onto(frozen, table)?;
    }
    Ok(())
}

/// Adds the table that writes to one end with, its notices, if it was open, and what has changed in
/// it.
fn freeze_onto(frozen: &mut Frozen, table: LazyTable) -> Result<(), AllocError>
    requires sound { table.spoiled ≡ false }
    requires few { length frozen.old.tables.items < 64 }
    ensures table { OnOk result (map arc_value frozen.new.tables.items
        ≡ map arc_value frozen.old.tables.items ++ standing table ∷ []) }
    ensures ends { OnOk result ((notices : Option (List (List Cell)))
        × EndsWith table (standing table) notices
        × (frozen.new.gone.items ≡ frozen.old.gone.items ++ option_to_list notices)) }
    ensures changes { OnOk result ((nets : List Net) × AreNetsOf table nets
        × (frozen.new.changes
        ≡ frozen.old.changes ++ map (change_at (length frozen.old.tables.items)) nets)) }
{
    let alloc = *frozen.tables.allocator();
    let place = frozen.tables.len() as u32;
    let Ended {
        table,
        notices,
        nets,
    } = table.freeze(alloc)?;
    frozen.tables.push(table)?;
    push_notices(&mut frozen.gone, notices)?;
    push_changes(&mut frozen.changes, place, nets)
}

/// Adds what has changed in the table at a place, if that is told.
fn push_changes(
    changes: &mut ChangeList,
    place: u32,
    nets: Option<NetList>,
) -> Result<(), AllocError>
    ensures { OnOk result
        (changes.new ≡ changes.old ++ map (change_at place) (unwrap_or nets [])) }
{
    match nets {
        Some(nets) => changes.add(place, nets),
        None => Ok(()),
    }
}

/// Adds the notices of a table, if it was open.
fn push_notices(gone: &mut Vec<Notices>, notices: Option<Notices>) -> Result<(), AllocError>
    ensures { OnOk result (gone.new.items ≡ gone.old.items ++ option_to_list notices) }
{
    if let Some(notices) = notices {
        gone.push(notices)?;
    }
    Ok(())
}

/// The present tables.
fn standing(alloc: Global, tables: &mut [LazyTable]) -> Result<Vec<Arc<Table, Global>>, AllocError>
    requires sound { All IsSound tables.old }
    ensures tables { IfOk result (λ ts. map arc_value ts.items ≡ map standing tables.old) }
    ensures unchanged { tables.new ≡ tables.old }
{
    let mut present = Vec::with_capacity(alloc, tables.len())?;
    for at in 0..tables.len() {
        let table = &mut tables[at];
        present.push(table.stand(alloc)?)?;
    }
    Ok(present)
}
