//! The removal of a row.
ghost use Rattle.std.specs.Prelude.{◌≡◌, ◌⊎◌, ◌+◌, ◌*◌, ◌≤◌, ◌^◌, ◌∷◌, [], Ok, Some, None};
ghost use Rattle.std.specs.Prelude.{IfOk, OnOk};
ghost use Rattle.std.specs.Prelude.{IfErr, MatchResult, length, map};
ghost use Rattle.mdb_schema.specs.State.{row_at};
ghost use Rattle.mdb_schema.specs.Tests.{each};
ghost use Rattle.mdb_encode.specs.Bytes.{Bytes};
ghost use Rattle.mdb_schema.specs.Write.{id_of, indexes_of, remove_row};
ghost use Rattle.mdb_schema.specs.declared.write_error.WriteError.TheVariants.{Memory, NotFound};
ghost use Rattle.mdb_schema.specs.Write.{full_keys_at};
ghost use Rattle.radix_txn.specs.Txn.{txn_pairs};
ghost use Rattle.table_index.specs.Drawn.{HasDrawnCells, MayBeWritten};
ghost use Rattle.table_index.specs.Table.{AnswersRemove, AreLeft};
ghost use Rattle.table_index.specs.Written.{Writes};
ghost use Rattle.table_index.specs.inner.Drawn.{AreReady, HaveDrawn};
ghost use Rattle.table_index.specs.inner.IndexTrees.{AreSound, AreTrees, nodes_of, rows_held};
ghost use Rattle.table_index.specs.inner.TreeEdits.{IsRefused, IsWritten, without_each};
ghost use Rattle.table_index.specs.inner.Writes.{TreesWrote, IsAt, WroteRows};

use crate::edits::delete_each;
use crate::full_key::RowKeys;
use crate::id_key::IdKey;
use crate::ids_left::has_ids;
use crate::refusal::is_memory;
use crate::row_keys::{full_keys_of, id_key_of};
use crate::stored::row_at;
use crate::table_txn::TableTxn;
use mdb_datum::Row;
use mdb_schema::{TableDef, WriteError};
use radix_node::Ids;
use radix_txn::TreeTxn;
use std::alloc::Global;
use watch_word::Front;

impl TableTxn {
    /// Takes out the row of another's `id` key, and gives it. A refusal changes nothing; the last
    /// one is that fewer than 2^26 ids are left. It takes memory for the row's keys and for copied
    /// nodes, each with a new cell, and is refused for want of it or of room to count one more
    /// owner of a node or row; that spoils the change. It takes time in the lengths of the row's
    /// keys, and writes no others.
    pub fn remove(&mut self, front: &Front, ids: &mut Ids, row: &Row) -> Result<Row, WriteError>
        requires ready { MayBeWritten front.now ids.old self.old }
        ensures answers { AnswersRemove ids.old.next
            (remove_row self.old.schema row.now self.old.rows) result self.old self.new }
        ensures drawn { HasDrawnCells front.now (2 ^ 26) ids.old ids.new self.old self.new }
        ensures refused { IfErr result (λ e. (e ≡ Memory) ⊎ (ids.new ≡ ids.old)) }
        ensures written { IfOk result (λ taken. Writes (taken ∷ []) self.old self.new) }
    {
        let alloc = *self.trees.allocator();
        let removed = take_row(alloc, &self.def, &mut self.trees, front, ids, row);
        match removed {
            Ok(old) => Ok(old),
            Err(error) => {
                self.spoiled = is_memory(&error);
                Err(error)
            }
        }
    }
}

/// A row of the table and its full keys in each index.
#[derive(Drop)]
struct StoredRow {
    row: Row,
    keys: RowKeys,
}

/// Takes the row of another's `id` key out of the trees, and gives it.
fn take_row(
    alloc: Global,
    def: &TableDef,
    txns: &mut [TreeTxn],
    front: &Front,
    ids: &mut Ids,
    row: &Row,
) -> Result<Row, WriteError>
    requires ready { AreReady front.now ids.old txns.old }
    requires held { AreTrees def.now (nodes_of txns.old) }
    ensures answers { let told = remove_row def.now row.now
        (rows_held def.now (nodes_of txns.old)) in
        MatchResult result
        (λ old. AreLeft ids.old.next 1 × IsWritten def.now told (Some old) txns.new)
        (λ e. IsRefused ids.old.next told e txns.old txns.new) }
    ensures drawn { HaveDrawn front.now (2 ^ 26) ids.old ids.new txns.old txns.new }
    ensures refused { IfErr result (λ e. (e ≡ Memory) ⊎ (ids.new ≡ ids.old)) }
    ensures written { IfOk result
        (λ old. WroteRows def.now (old ∷ []) txns.old txns.new) }
{
    let count = def.len();
    prove!(0 < count);
    let stored = row_to_take(alloc, def, txns, ids, row)?;
    delete_stored(txns, front, ids, stored)
}

/// The row of another's `id` key and its full keys, if it is there and there are ids for a write.
fn row_to_take(
    alloc: Global,
    def: &TableDef,
    txns: &[TreeTxn],
    ids: &Ids,
    row: &Row,
) -> Result<StoredRow, WriteError>
    requires sound { AreSound txns.now }
    requires held { AreTrees def.now (nodes_of txns.now) }
    ensures { let rows = rows_held def.now (nodes_of txns.now) in
        MatchResult result
        (λ stored. AreLeft ids.now.next 1 × (id : Bytes) × (id_of def.now row.now ≡ Ok id)
        × (row_at def.now id rows ≡ Some stored.row)
        × (each (full_keys_at id stored.row) (indexes_of def.now) ≡ Ok stored.keys))
        (λ e. IsRefused ids.now.next (remove_row def.now row.now rows) e txns.now txns.now) }
{
    // The definition is lawful by its type.
    let _ = def.len();
    let id = id_key_of(alloc, def, row)?;
    let stored = stored_row(alloc, def, txns, &id)?;
    if has_ids(ids, 1) {
        Ok(stored)
    } else {
        Err(WriteError::IdsSpent)
    }
}

/// Takes the full keys of a row out of the trees, and gives the row. After an error some may be
/// out.
fn delete_stored(
    txns: &mut [TreeTxn],
    front: &Front,
    ids: &mut Ids,
    stored: StoredRow,
) -> Result<Row, WriteError>
    requires ready { AreReady front.now ids.old txns.old }
    requires left { ids.old.next + 2 ^ 20 * length txns.old ≤ 2 ^ 63 }
    requires both { length stored.keys ≡ length txns.old }
    ensures answers { let edited = without_each stored.keys (map txn_pairs txns.old) in
        MatchResult result
        (λ row. (row ≡ stored.row) × (map txn_pairs txns.new ≡ edited) × AreSound txns.new)
        (λ e. e ≡ Memory) }
    ensures drawn { HaveDrawn front.now (2 ^ 20 * length txns.old)
        ids.old ids.new txns.old txns.new }
    ensures written { OnOk result
        (TreesWrote (IsAt stored.keys) txns.old txns.new) }
{
    delete_each(txns, front, ids, stored.keys.lists())?;
    Ok(stored.row)
}

/// The row of an `id` key and its full keys, if it is there.
fn stored_row(
    alloc: Global,
    def: &TableDef,
    txns: &[TreeTxn],
    id: &IdKey,
) -> Result<StoredRow, WriteError>
    requires sound { AreSound txns.now }
    requires held { AreTrees def.now (nodes_of txns.now) }
    ensures { let here = row_at def.now id.now (rows_held def.now (nodes_of txns.now)) in
        MatchResult result
        (λ stored. (here ≡ Some stored.row) × (each (full_keys_at id.now stored.row)
        (indexes_of def.now) ≡ Ok stored.keys))
        (λ e. (e ≡ Memory) ⊎ ((here ≡ None) × (e ≡ NotFound))) }
{
    // The definition is lawful by its type.
    let _ = def.len();
    let Some(row) = row_at(def, txns, id) else {
        return Err(WriteError::NotFound);
    };
    match full_keys_of(alloc, def, id, row) {
        Ok(keys) => Ok(StoredRow {
            row: row.share()?,
            keys,
        }),
        Err(error) => Err(error),
    }
}
