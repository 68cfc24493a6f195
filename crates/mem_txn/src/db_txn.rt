//! A write transaction, but for its deferred items.
ghost use Rattle.std.specs.Prelude.{◌≡◌, ◌≤◌, ◌<◌, ◌+◌, ◌^◌, false, [], IfOk, MatchResult, All};
ghost use Rattle.std.specs.Prelude.{Some, length, map, slice_get};
ghost use Rattle.std.specs.Arc.{arc_value};
ghost use Rattle.mdb_schema.specs.Answer.{ask};
ghost use Rattle.mdb_schema.specs.LawfulSchema.{IsLawfulTable};
ghost use Rattle.mdb_schema.specs.Wipe.{wipe, wipe_by_prefix};
ghost use Rattle.mdb_schema.specs.Write.{put, remove, put_row, remove_row};
ghost use Rattle.mem_txn.specs.DbTxn.{AnswersTxnAsk, AnswersTxnWipe, AnswersTxnWrite, new_txn};
ghost use Rattle.mem_txn.specs.DbTxn.{gives_replaced, gives_row, present, view_at};
ghost use Rattle.mem_txn.specs.Checked.{IdsTellCells};
ghost use Rattle.mem_txn.specs.CellHistory.{HasFirings};
ghost use Rattle.mem_txn.specs.Database.{IsOf, cells_seen, state_seen};
ghost use Rattle.mem_txn.specs.inner.DbTxnView.{AreCounted, AreSince, IsBase};
ghost use Rattle.mem_txn.specs.inner.Commits.{IsNextOf};
ghost use Rattle.mem_txn.specs.inner.Ended.{AreTold, EndWith};
ghost use Rattle.mem_txn.specs.inner.VersionTables.{AreAllWithin, IsSound, Joins, StandFor, is_memory};
ghost use Rattle.mem_txn.specs.inner.VersionTables.{schemas_of, standing, state_of, trees_of};
ghost use Rattle.mem_txn.specs.inner.Wipes.{wipe_by};
ghost use Rattle.watch_word.specs.Logs.{IsLater};

use crate::accepted::{Accepted, Kind};
use crate::change_list::ChangeList;
use crate::db::Db;
use crate::pass::Pass;
use crate::turn::Turn;
use crate::txn_error::{TxnAskError, TxnWipeError, TxnWriteError};
use crate::txn_tables::{Frozen, TxnTables};
use crate::version::Version;
use crate::view::View;
use crate::wipe::{self, Wipe, wipe_in};
use db_front::Ready;
use mdb_datum::Row;
use mdb_schema::{Answer, AskError, Query, TableDef, WriteError};
use radix_node::Ids;
use std::alloc::{AllocError, Global};
use std::marker::Model;
use std::sync::Arc;
use table_index::{Notices, Table};
use watch_word::Front;

/// A caller's write transaction, seen as `DbTxn`: the caller, the writes that were accepted, and
/// whether it is spoiled. It can't be dropped.
pub(crate) struct DbTxn {
    pass: Turn,
    number: u64,
    tables: TxnTables,
    writes: Vec<Accepted>,
    spoiled: bool,
}

impl Model for DbTxn {
    ghost use Rattle.mem_txn.specs.DbTxn.{DbTxn};
    ghost use Rattle.mem_txn.specs.Codes.{db_txn_code};

    ghost Value = { DbTxn };

    ghost coded = { db_txn_code };

    ghost use Rattle.mem_txn.specs.inner.DbTxnView.{db_txn_view, IsDbTxn};

    ghost view = { db_txn_view };

    ghost invariant = { IsDbTxn };
}

impl DbTxn {
    /// A transaction without writes, whose tables stand after the commits that its caller has seen.
    /// It takes no memory.
    pub(crate) fn begun(alloc: Global, pass: Turn, number: u64, tables: TxnTables) -> DbTxn
        requires few { length pass.caller.seen < 2 ^ 63 }
        requires number { number ≡ length pass.caller.seen }
        requires tables { StandFor tables.tables pass.caller.schema (state_seen pass.caller) }
        requires ids { AreCounted pass 0 tables.ids }
        requires since { AreSince pass [] tables.tables }
        ensures { result ≡ new_txn pass.caller }
    {
        DbTxn {
            pass,
            number,
            tables,
            writes: Vec::new(alloc),
            spoiled: false,
        }
    }

    /// The number of the commit on which it stands.
    pub(crate) fn number(&self) -> u64
        ensures number { result ≡ length self.now.caller.seen }
        ensures few { result < 2 ^ 63 }
    {
        self.number
    }

    /// What is known of its caller: of the watches that it holds, ids tell cells.
    pub(crate) fn ids_tell_cells(&self)
        ensures { IdsTellCells self.now.caller }
    {
        self.pass.ids_tell_cells();
    }

    /// A front of the log with which it began.
    pub(crate) fn front(&self) -> Front
        ensures fired { let p = self.now.caller in
            HasFirings (cells_seen p) (length p.seen) result }
        ensures later { let p = self.now.caller in IsLater p.log result }
        ensures book { let p = self.now.caller in result.book ≡ p.book }
    {
        self.pass.share_front()
    }

    /// Whether an earlier write found no memory.
    pub(crate) fn spoiled(&self) -> bool
        ensures { result ≡ self.now.spoiled }
    {
        self.spoiled
    }

    /// What a question is answered of the present state.
    pub(crate) fn ask(&mut self, query: &Query) -> Result<Answer, TxnAskError>
        ensures answers { AnswersTxnAsk self.old.spoiled
            (ask self.old.caller.schema (present self.old) query.now) result }
        ensures unchanged { self.new ≡ self.old }
    {
        if self.spoiled {
            return Err(TxnAskError::Spoiled);
        }
        let Some(place) = self.pass.schema().find(query.table().as_str()) else {
            return Err(TxnAskError::Refused(AskError::UnknownTable));
        };
        match self.tables.ask(place, query) {
            Ok(answer) => Ok(answer),
            Err(error) => Err(TxnAskError::Refused(error)),
        }
    }

    /// Puts a row into the table of a name.
    pub(crate) fn insert(&mut self, table: &str, row: &Row) -> Result<bool, TxnWriteError>
        ensures { AnswersTxnWrite gives_replaced (put table.now row.now) self.old.spoiled
            result self.old self.new }
    {
        if self.spoiled {
            return Err(TxnWriteError::Spoiled);
        }
        let Some(place) = self.pass.schema().find(table) else {
            return Err(TxnWriteError::UnknownTable);
        };
        let def = def_at(&self.pass, place);
        let front = self.pass.front();
        match put_in(place, def, row, front, &mut self.tables, &mut self.writes) {
            Ok(replaced) => Ok(replaced),
            Err(error) => {
                self.spoiled = is_memory(&error);
                Err(TxnWriteError::Refused(error))
            }
        }
    }

    /// Takes the row of another's `id` key out of the table of a name, and gives it.
    pub(crate) fn delete(&mut self, table: &str, row: &Row) -> Result<Row, TxnWriteError>
        ensures { AnswersTxnWrite gives_row (remove table.now row.now) self.old.spoiled
            result self.old self.new }
    {
        if self.spoiled {
            return Err(TxnWriteError::Spoiled);
        }
        let Some(place) = self.pass.schema().find(table) else {
            return Err(TxnWriteError::UnknownTable);
        };
        let def = def_at(&self.pass, place);
        let front = self.pass.front();
        match remove_in(place, def, row, front, &mut self.tables, &mut self.writes) {
            Ok(old) => Ok(old),
            Err(error) => {
                self.spoiled = is_memory(&error);
                Err(TxnWriteError::Refused(error))
            }
        }
    }

    /// Takes out each row that the `get` of a question's index and arguments lists, once, and gives
    /// their number.
    pub(crate) fn delete_all(&mut self, query: &Query) -> Result<u64, TxnWipeError>
        ensures { AnswersTxnWipe self.old.spoiled query.now.table
            (wipe self.old.caller.schema (present self.old) query.now) result self.old self.new }
    {
        self.wipe(Wipe::Listed, query)
    }

    /// Does the same, where the name of the index ends in `_prefix`; else it is refused.
    pub(crate) fn delete_prefix(&mut self, query: &Query) -> Result<u64, TxnWipeError>
        ensures { AnswersTxnWipe self.old.spoiled query.now.table
            (wipe_by_prefix self.old.caller.schema (present self.old) query.now) result self.old
            self.new }
    {
        self.wipe(Wipe::ByPrefix, query)
    }

    /// Takes out the rows that a wipe names, and gives their number.
    fn wipe(&mut self, wipe: Wipe, query: &Query) -> Result<u64, TxnWipeError>
        ensures { AnswersTxnWipe self.old.spoiled query.now.table
            (wipe_by wipe self.old.caller.schema (present self.old) query.now) result self.old
            self.new }
    {
        if self.spoiled {
            return Err(TxnWipeError::Spoiled);
        }
        let Some(place) = self.pass.schema().find(query.table().as_str()) else {
            return Err(TxnWipeError::UnknownTable);
        };
        let def = def_at(&self.pass, place);
        let front = self.pass.front();
        match wipe_in(
            place,
            def,
            wipe,
            query,
            front,
            &mut self.tables,
            &mut self.writes,
        ) {
            Ok(count) => Ok(count),
            Err(error) => {
                self.spoiled = wipe::is_memory(&error);
                Err(TxnWipeError::Refused(error))
            }
        }
    }

    /// The present state, under the number of so many commits. It takes memory for a list of the
    /// tables and for each that is open.
    pub(crate) fn stand(&mut self, number: u64) -> Result<View, AllocError>
        requires sound { self.old.spoiled ≡ false }
        requires few { number ≤ 2 ^ 63 }
        ensures value { IfOk result (λ v. v.view ≡ view_at number self.old) }
        ensures unchanged { self.new ≡ self.old }
    {
        let schema = self.pass.share_schema()?;
        let tables = self.tables.stand()?;
        Ok(View::of(schema, tables, number))
    }

    /// The turn, and the value after its commit, ready to be shown, with the notices of the cells
    /// that are gone, and what has changed in tracked tables; or, for want of memory, the turn
    /// alone.
    pub(crate) fn freeze(self, db: &Db) -> Result<(Turn, Next), Turn>
        requires sound { self.spoiled ≡ false }
        ensures { MatchResult result
            (λ made. let next = made.1 in
            IsNextOf self made.0 next.ready next.gone.items next.changes)
            (λ turn. turn.caller ≡ self.caller) }
    {
        let DbTxn {
            pass,
            number,
            tables,
            writes,
            spoiled: _,
        } = self;
        match next_version(db, &pass, tables, writes, number + 1) {
            Ok(next) => Ok((pass, next)),
            Err(_) => Err(pass),
        }
    }

    /// Gives the turn back, and then the pass. It takes no memory.
    pub(crate) fn abort(self, db: &Db) -> Pass
        requires own { IsOf db.now self.caller }
        ensures { result ≡ self.caller }
    {
        let DbTxn {
            pass,
            number: _,
            tables,
            writes,
            spoiled: _,
        } = self;
        let pass = pass.leave(db);
        drop(tables);
        drop(writes);
        pass
    }
}

/// What a commit is made of: the value after it, ready to be shown, the notices of the cells that
/// are gone then, and what has changed in tracked tables.
pub(crate) struct Next {
    pub(crate) ready: Ready<Version>,
    pub(crate) gone: Vec<Notices>,
    pub(crate) changes: ChangeList,
}

/// The value after so many commits, of the tables that these writes end with, the notices, and what
/// has changed. All memory of a commit is taken here.
fn next_version(
    db: &Db,
    pass: &Turn,
    tables: TxnTables,
    writes: Vec<Accepted>,
    number: u64,
) -> Result<Next, AllocError>
    requires sound { All IsSound tables.tables }
    requires schemas { schemas_of (map standing tables.tables) ≡ pass.now.caller.schema }
    requires few { number ≤ 2 ^ 63 }
    ensures value { IfOk result (λ next. let r = next.ready in r ≡ record {
      view = record {
        schema = pass.now.caller.schema;
        number = number;
        state = state_of (map standing tables.tables);
      };
      trees = trees_of (map standing tables.tables);
      writes = writes.items;
      ids = tables.ids;
    }) }
    ensures within { IfOk result
        (λ next. let r = next.ready in AreAllWithin tables.ids r.trees) }
    ensures ends { IfOk result
        (λ next. EndWith tables.tables (map standing tables.tables) next.gone.items) }
    ensures changes { IfOk result (λ next. AreTold 0 tables.tables next.changes) }
    ensures base { IsBase pass.now }
{
    pass.base_is_known();
    // Brings the schema's laws into the proof, that it has few tables.
    let _ = pass.schema().len();
    let (
        Frozen {
            tables,
            gone,
            changes,
        },
        ids,
    ) = tables.freeze()?;
    let ready = ready_of(db, pass, tables, writes, ids, number)?;
    Ok(Next {
        ready,
        gone,
        changes,
    })
}

/// The value after so many commits, of these tables, ready to be shown.
fn ready_of(
    db: &Db,
    pass: &Turn,
    tables: Vec<Arc<Table, Global>>,
    writes: Vec<Accepted>,
    ids: Ids,
    number: u64,
) -> Result<Ready<Version>, AllocError>
    requires schemas { schemas_of (map arc_value tables.items) ≡ pass.now.caller.schema }
    requires few { number ≤ 2 ^ 63 }
    ensures { let ts = map arc_value tables.items in IfOk result (λ ready. ready ≡ record {
      view = record { schema = pass.now.caller.schema; number = number; state = state_of ts };
      trees = trees_of ts;
      writes = writes.items;
      ids = ids;
    }) }
{
    let view = View::of(pass.share_schema()?, tables, number);
    let version = Version::of(db.alloc, view, writes, ids)?;
    db.shared.ready(Arc::new(db.alloc, version)?)
}

/// Whether a write found no memory, which spoils the transaction.
fn is_memory(error: &WriteError) -> bool
    ensures { result ≡ is_memory error.now }
{
    matches!(error, WriteError::Memory)
}

/// What the schema says of the table at a place.
fn def_at(pass: &Turn, place: usize) -> &TableDef
    requires { place < length pass.now.caller.schema }
    ensures there { slice_get pass.now.caller.schema place ≡ Some result.now }
    ensures lawful { IsLawfulTable result.now }
{
    match pass.schema().table(place) {
        Some(def) => def,
        None => unreachable!(),
    }
}

/// Puts a row into the table at a place, and notes the write.
fn put_in(
    place: usize,
    def: &TableDef,
    row: &Row,
    front: &Front,
    tables: &mut TxnTables,
    writes: &mut Vec<Accepted>,
) -> Result<bool, WriteError>
    requires within { place < length tables.old.tables }
    requires sound { All IsSound tables.old.tables }
    requires book { front.now.book ≡ tables.old.ids.book }
    ensures { Joins gives_replaced (λ t. put_row t.schema row.now t.rows) place
        (put def.now.name row.now) result tables.old tables.new writes.old.items writes.new.items }
{
    let accepted = Accepted::of(Kind::Put, def, row)?;
    match tables.put(place, front, row) {
        Ok(replaced) => {
            writes.push(accepted)?;
            Ok(replaced)
        }
        Err(error) => Err(error),
    }
}

/// Takes the row of another's `id` key out of the table at a place, and notes the write.
fn remove_in(
    place: usize,
    def: &TableDef,
    row: &Row,
    front: &Front,
    tables: &mut TxnTables,
    writes: &mut Vec<Accepted>,
) -> Result<Row, WriteError>
    requires within { place < length tables.old.tables }
    requires sound { All IsSound tables.old.tables }
    requires book { front.now.book ≡ tables.old.ids.book }
    ensures { Joins gives_row (λ t. remove_row t.schema row.now t.rows) place
        (remove def.now.name row.now) result tables.old tables.new writes.old.items
        writes.new.items }
{
    let accepted = Accepted::of(Kind::Remove, def, row)?;
    match tables.remove(place, front, row) {
        Ok(old) => {
            writes.push(accepted)?;
            Ok(old)
        }
        Err(error) => Err(error),
    }
}
