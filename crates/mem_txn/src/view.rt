//! The state after a commit.
ghost use Rattle.std.specs.Prelude.{◌≡◌, ◌≤◌, ◌+◌, ◌^◌, ◌++◌, ◌∷◌, [], All, IfOk, OnOk, IfSome, IfNone};
ghost use Rattle.std.specs.Prelude.{Some, None, map};
ghost use Rattle.std.specs.Arc.{arc_value};
ghost use Rattle.mdb_schema.specs.Answer.{ask};
ghost use Rattle.mdb_schema.specs.ErrorsTold.{AnswersAsk};
ghost use Rattle.mdb_schema.specs.Schema.{table_place};
ghost use Rattle.mdb_schema.specs.State.{empty_state};
ghost use Rattle.mem_txn.specs.inner.EmptyTables.{AreEmpty, IsEmptyOf};
ghost use Rattle.mem_txn.specs.inner.NamedTables.{IsTableOf};
ghost use Rattle.mem_txn.specs.inner.Steps.{tables_with};
ghost use Rattle.mem_txn.specs.inner.VersionTables.{AreAllWithin, schemas_of, state_of, trees_of};
ghost use Rattle.table_index.specs.Table.{TableRows};
ghost use Rattle.table_index.specs.Walks.{WalksAsk};
ghost use Rattle.table_index.specs.Watched.{AnswersWatch, HoldsRows, is_watchable};
ghost use Rattle.mem_txn.specs.CellHistory.{question_cell, table_in};
ghost use Rattle.mem_txn.specs.Held.{IsLookedUp, tells_own};
ghost use Rattle.mem_txn.specs.AskedSpots.{IsAsked};

use mdb_schema::{Answer, AskError, Query, Schema, TableDef};
use radix_iter::Walk;
use radix_node::Ids;
use std::alloc::{AllocError, Global};
use std::marker::Model;
use std::sync::Arc;
use table_index::table_laws::rows_are_held;
use table_index::{Spot, Table, Watched};
use watch_word::{Front, WatchCell};

/// The tables after a commit, in the schema's order, seen as a `View` with the trees. It never
/// changes.
#[derive(Drop)]
pub(crate) struct View {
    schema: Arc<Schema, Global>,
    tables: Vec<Arc<Table, Global>>,
    number: u64,
}

impl Model for View {
    ghost use Rattle.mem_txn.specs.Codes.{view_with_trees_code};
    ghost use Rattle.mem_txn.specs.inner.Values.{ViewWithTrees};

    ghost Value = { ViewWithTrees };

    ghost coded = { view_with_trees_code };

    ghost use Rattle.mem_txn.specs.inner.Views.{state_view, IsView};

    ghost view = { state_view };

    ghost invariant = { IsView };
}

impl View {
    /// The tables before the first commit, without rows. It takes memory for them, and an id for
    /// the cell of each index.
    pub(crate) fn empty(
        alloc: Global,
        schema: Schema,
        front: &Front,
        ids: &mut Ids,
    ) -> Result<View, AllocError>
        requires book { front.now.book ≡ ids.old.book }
        requires first { ids.old.next ≡ 0 }
        ensures view { IfOk result
            (λ v. v.view ≡ record { schema = schema; number = 0; state = empty_state schema }) }
        ensures within { IfOk result (λ v. AreAllWithin ids.new v.trees) }
        ensures held { IfOk result
            (λ v. All HoldsRows (tables_with v.view.schema v.view.state v.trees)) }
        ensures book { ids.new.book ≡ ids.old.book }
        ensures few { OnOk result (ids.new.next ≤ 2 ^ 11) }
    {
        let tables = empty_tables(alloc, &schema, front, ids)?;
        Ok(View {
            schema: Arc::new(alloc, schema)?,
            tables,
            number: 0,
        })
    }

    /// These tables, after so many commits.
    pub(crate) fn of(
        schema: Arc<Schema, Global>,
        tables: Vec<Arc<Table, Global>>,
        number: u64,
    ) -> View
        requires schemas { schemas_of (map arc_value tables.items) ≡ arc_value schema }
        requires few { number ≤ 2 ^ 63 }
        ensures { result ≡ record {
          view = record {
            schema = arc_value schema;
            number = number;
            state = state_of (map arc_value tables.items);
          };
          trees = trees_of (map arc_value tables.items);
        } }
    {
        View {
            schema,
            tables,
            number,
        }
    }

    /// The schema.
    pub(crate) fn schema(&self) -> &Schema
        ensures { result.now ≡ self.now.view.schema }
    {
        &self.schema
    }

    /// A second owner of the schema.
    pub(crate) fn share_schema(&self) -> Result<Arc<Schema, Global>, AllocError>
        ensures { IfOk result (λ s. arc_value s ≡ self.now.view.schema) }
    {
        Arc::try_clone(&self.schema)
    }

    /// The tables, each at its place in the schema.
    pub(crate) fn tables(&self) -> &[Arc<Table, Global>]
        ensures schemas { schemas_of (map arc_value result.now) ≡ self.now.view.schema }
        ensures state { state_of (map arc_value result.now) ≡ self.now.view.state }
        ensures trees { trees_of (map arc_value result.now) ≡ self.now.trees }
    {
        self.tables.as_slice()
    }

    /// How many commits there were.
    pub(crate) fn number(&self) -> u64
        ensures number { result ≡ self.now.view.number }
        ensures few { result ≤ 2 ^ 63 }
    {
        self.number
    }

    /// Where its tables stand.
    pub(crate) fn allocator(&self) -> Global {
        *self.tables.allocator()
    }

    /// The table that a question is of, if there is one of its name.
    fn table_of(&self, query: &Query) -> Option<&Table>
        ensures none { IfNone result (table_place query.now.table self.now.view.schema ≡ None) }
        ensures some { IfSome result (λ t. IsTableOf self.now query.now.table t.now) }
    {
        match self.schema.find(query.table().as_str()) {
            Some(place) => {
                let table: &Table = &self.tables[place];
                Some(table)
            }
            None => None,
        }
    }

    /// What a question is answered, with its watch.
    pub(crate) fn ask_watch(&self, query: &Query) -> Result<Watched, AskError>
        ensures answers { let told = ask self.now.view.schema self.now.view.state query.now in
            AnswersWatch (tells_own told (is_watchable query.now.ask)) told result }
        ensures cell { IfOk result (λ w. let spot = w.spot in
            question_cell self.now.view.schema self.now.view.state self.now.trees query.now
            ≡ Some spot.watch) }
        ensures looked { IfOk result (λ w. IsLookedUp
            (table_in self.now.view.schema self.now.view.state self.now.trees query.now.table)
            query.now w.spot) }
    {
        match self.table_of(query) {
            Some(table) => table.ask_watch(query),
            None => Err(AskError::UnknownTable),
        }
    }

    /// What a question is answered.
    pub(crate) fn ask(&self, query: &Query) -> Result<Answer, AskError>
        ensures { AnswersAsk (ask self.now.view.schema self.now.view.state query.now) result }
    {
        match self.table_of(query) {
            Some(table) => table.ask(query),
            None => Err(AskError::UnknownTable),
        }
    }

    /// A walk over the rows of the answer to a question.
    pub(crate) fn walk<'a>(&'a self, query: &Query) -> Result<Walk<'a>, AskError>
        ensures { WalksAsk (ask self.now.view.schema self.now.view.state query.now) result }
    {
        match self.table_of(query) {
            Some(table) => table.walk(query),
            None => Err(AskError::UnknownTable),
        }
    }

    /// The cell of a question here, whose spot was read from a state of the same schema.
    pub(crate) fn cell_at(&self, query: &Query, spot: &Spot) -> &Arc<WatchCell>
        requires { IsAsked self.now.view.schema query.now spot.now }
        ensures { question_cell self.now.view.schema self.now.view.state self.now.trees query.now
            ≡ Some (arc_value result.now) }
    {
        match self.table_of(query) {
            Some(table) => table.cell_at(spot),
            None => unreachable!(),
        }
    }
}

/// A table without rows for each of a schema.
fn empty_tables(
    alloc: Global,
    schema: &Schema,
    front: &Front,
    ids: &mut Ids,
) -> Result<Vec<Arc<Table, Global>>, AllocError>
    requires book { front.now.book ≡ ids.old.book }
    requires first { ids.old.next ≡ 0 }
    ensures tables { IfOk result
        (λ tables. AreEmpty schema.now ids.new (map arc_value tables.items)) }
    ensures book { ids.new.book ≡ ids.old.book }
    ensures few { OnOk result (ids.new.next ≤ 2 ^ 11) }
{
    let mut tables = Vec::with_capacity(alloc, schema.len())?;
    for at in 0..schema.len() {
        let Some(def) = schema.table(at) else {
            unreachable!();
        };
        push_empty(&mut tables, def, front, ids)?;
    }
    Ok(tables)
}

/// Adds a table without rows.
fn push_empty(
    tables: &mut Vec<Arc<Table, Global>>,
    def: &TableDef,
    front: &Front,
    ids: &mut Ids,
) -> Result<(), AllocError>
    requires book { front.now.book ≡ ids.old.book }
    requires left { ids.old.next + 32 ≤ 2 ^ 63 }
    ensures table { OnOk result
        ((t : TableRows) × IsEmptyOf def.now front.now ids.old ids.new t × (map arc_value tables.new.items
        ≡ map arc_value tables.old.items ++ t ∷ [])) }
    ensures book { ids.new.book ≡ ids.old.book }
    ensures few { OnOk result ((ids.old.next ≤ ids.new.next) × (ids.new.next ≤ ids.old.next + 32)) }
{
    let alloc = *tables.allocator();
    let table = Table::empty(alloc, def, front, ids)?;
    rows_are_held(&table);
    tables.push(Arc::new(alloc, table)?)?;
    Ok(())
}
