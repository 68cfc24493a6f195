//! Wipes of a table, for a write transaction.
ghost use Rattle.std.specs.Prelude.{◌≡◌, ◌⊎◌, ◌<◌, ◌*◌, ◌^◌, ◌++◌, ◌∷◌, [], All};
ghost use Rattle.std.specs.Prelude.{IfErr, MatchResult, OnErr, OnOk, length, take};
ghost use Rattle.mdb_schema.specs.Wipe.{removals};
ghost use Rattle.mdb_schema.specs.Write.{remove};
ghost use Rattle.mem_txn.specs.inner.VersionTables.{IsSound, unwritten};
ghost use Rattle.mem_txn.specs.inner.Wipes.{JoinsGoneAt, Refuses, is_memory, wiped_by};
ghost use Rattle.table_index.specs.Drawn.{HasDrawnCells, MayBeWritten};
ghost use Rattle.table_index.specs.Table.{AnswersCheck, AnswersTake, rows_asked};
ghost use Rattle.table_index.specs.Written.{Writes, rows_told};
ghost use Rattle.table_index.specs.declared.wipe_error.WipeError.TheVariants.{Memory};

use crate::accepted::{Accepted, Kind};
use crate::txn_tables::TxnTables;
use mdb_datum::Row;
use mdb_schema::{Query, Rows, TableDef};
use radix_node::Ids;
use std::alloc::AllocError;
use table_index::{Table, TableTxn, WipeError};
use watch_word::Front;

/// Which rows a wipe takes out.
#[derive(Clone, Copy, Debug, PartialEq, Eq)]
pub(crate) enum Wipe {
    /// Those that `get` lists by the question's index and arguments.
    Listed,
    /// The same, where the name of the index has to end in `_prefix`.
    ByPrefix,
}

impl Wipe {
    /// The rule by which a wipe of a table is refused, if there is one.
    fn check(self, table: &Table, query: &Query) -> Result<(), WipeError>
        ensures { AnswersCheck (wiped_by self table.now.schema table.now.rows query.now) result }
    {
        match self {
            Wipe::Listed => table.check_take_all(query),
            Wipe::ByPrefix => table.check_take_prefix(query),
        }
    }

    /// A change that begins with a table, unless a rule refuses the wipe. Want of memory is never
    /// told in place of a rule.
    pub(crate) fn begin(self, table: &Table, query: &Query) -> Result<TableTxn, WipeError>
        ensures { MatchResult result (λ t. t ≡ unwritten table.now)
            (λ e. Refuses (wiped_by self table.now.schema table.now.rows query.now) e) }
    {
        match self.check(table, query) {
            Ok(()) => Ok(table.txn()?),
            Err(error) => Err(error),
        }
    }

    /// Takes the rows out of an open table, and gives them in the order of their first listing.
    pub(crate) fn take(
        self,
        table: &mut TableTxn,
        front: &Front,
        ids: &mut Ids,
        query: &Query,
    ) -> Result<Rows, WipeError>
        requires ready { MayBeWritten front.now ids.old table.old }
        ensures answers { AnswersTake ids.old.next
            (wiped_by self table.old.schema table.old.rows query.now) result table.old table.new }
        ensures drawn { HasDrawnCells front.now
            (2 ^ 26 * rows_asked (wiped_by self table.old.schema table.old.rows query.now))
            ids.old ids.new table.old table.new }
        ensures refused { IfErr result (λ e. (e ≡ Memory) ⊎ (ids.new ≡ ids.old)) }
        ensures written { OnOk result (Writes
            (rows_told (wiped_by self table.old.schema table.old.rows query.now))
            table.old table.new) }
    {
        match self {
            Wipe::Listed => table.take_all(front, ids, query),
            Wipe::ByPrefix => table.take_prefix(front, ids, query),
        }
    }
}

/// Whether a wipe found no memory, which spoils the transaction.
pub(crate) fn is_memory(error: &WipeError) -> bool
    ensures { result ≡ is_memory error.now }
{
    matches!(error, WipeError::Memory)
}

/// Wipes the table at a place, and notes the removal of each row. Gives the number of the rows.
/// After a refusal the writes are as before.
pub(crate) fn wipe_in(
    place: usize,
    def: &TableDef,
    wipe: Wipe,
    query: &Query,
    front: &Front,
    tables: &mut TxnTables,
    writes: &mut Vec<Accepted>,
) -> Result<u64, WipeError>
    requires within { place < length tables.old.tables }
    requires sound { All IsSound tables.old.tables }
    requires book { front.now.book ≡ tables.old.ids.book }
    ensures { JoinsGoneAt (λ t. wiped_by wipe t.schema t.rows query.now) place def.now.name result
        tables.old tables.new writes.old.items writes.new.items }
{
    let gone = match tables.wipe(place, front, wipe, query) {
        Ok(gone) => gone,
        Err(error) => return Err(error),
    };
    let before = writes.len();
    match note_removals(writes, def, &gone) {
        Ok(()) => Ok(gone.len() as u64),
        Err(AllocError) => {
            writes.truncate(before);
            Err(WipeError::Memory)
        }
    }
}

/// Adds the removals of these rows from a table. After a refusal only the first of them may be
/// there.
fn note_removals(writes: &mut Vec<Accepted>, def: &TableDef, rows: &Rows) -> Result<(), AllocError>
    ensures all { OnOk result
        (writes.new.items ≡ writes.old.items ++ removals def.now.name rows.now) }
    ensures before { take (length writes.old.items) writes.new.items ≡ writes.old.items }
{
    for at in 0..rows.len() {
        let Some(row) = rows.get(at) else {
            unreachable!();
        };
        note_removal(writes, def, row)?;
    }
    Ok(())
}

/// Adds the removal of a row from a table.
fn note_removal(writes: &mut Vec<Accepted>, def: &TableDef, row: &Row) -> Result<(), AllocError>
    ensures added { OnOk result
        (writes.new.items ≡ writes.old.items ++ remove def.now.name row.now ∷ []) }
    ensures unchanged { OnErr result (writes.new.items ≡ writes.old.items) }
{
    writes.push(Accepted::of(Kind::Remove, def, row)?)?;
    Ok(())
}
