//! The put of a row.
ghost use Rattle.std.specs.Prelude.{◌≡◌, ◌⊎◌, ◌+◌, ◌*◌, ◌≤◌, ◌^◌, false, Ok, length, map};
ghost use Rattle.std.specs.Prelude.{IfErr, IfOk, MatchResult, OnOk, is_some};
ghost use Rattle.mdb_schema.specs.State.{row_at};
ghost use Rattle.mdb_schema.specs.Write.{id_of, put_row};
ghost use Rattle.mdb_schema.specs.declared.write_error.WriteError.TheVariants.{Memory};
ghost use Rattle.mdb_schema.specs.ErrorsTold.{TellsRefusal};
ghost use Rattle.radix_txn.specs.Txn.{txn_pairs};
ghost use Rattle.table_index.specs.Drawn.{HasDrawnCells, MayBeWritten};
ghost use Rattle.table_index.specs.Table.{AnswersPut, AreLeft};
ghost use Rattle.table_index.specs.Written.{Writes, rows_put};
ghost use Rattle.table_index.specs.inner.Drawn.{AreReady, HaveDrawn};
ghost use Rattle.table_index.specs.inner.IndexTrees.{AreSound, AreTrees, nodes_of, rows_held};
ghost use Rattle.table_index.specs.inner.PutKeys.{IsAccepted, keys_of_each};
ghost use Rattle.table_index.specs.inner.TreeEdits.{IsPut, IsRefused, replaced_each};
ghost use Rattle.table_index.specs.inner.Writes.{IsAt, TreesWrote, WroteRows};

use crate::free_keys::first_taken;
use crate::full_key::RowKeys;
use crate::id_key::IdKey;
use crate::ids_left::has_ids;
use crate::refusal::is_memory;
use crate::replace::replace_each;
use crate::row_keys::{full_keys_of, id_key_of, told_place};
use crate::stored::row_at;
use crate::table_txn::TableTxn;
use mdb_datum::Row;
use mdb_schema::{TableDef, WriteError};
use radix_node::Ids;
use radix_txn::TreeTxn;
use std::alloc::{AllocError, Global};
use watch_word::Front;

impl TableTxn {
    /// Puts a row into the table; true where it replaces the row of its `id` key. A refusal changes
    /// nothing, and is decided before the first change; the last one is that fewer than 2^26 ids
    /// are left. It takes memory for the keys of the row and of the one that it replaces, and for
    /// copied nodes, each with a new cell, and is refused for want of it, of room to count one more
    /// owner of a node or row, or of room to count one more key of an index; that spoils the
    /// change. It takes time in the lengths of the keys, with a look-up for each new key that the
    /// replaced row hasn't, and compares the old keys of an index with the new ones, at most 256
    /// with 256. No key is written but the full keys of the row and of the one that it replaces.
    pub fn put(&mut self, front: &Front, ids: &mut Ids, row: &Row) -> Result<bool, WriteError>
        requires ready { MayBeWritten front.now ids.old self.old }
        ensures answers { AnswersPut ids.old.next
            (put_row self.old.schema row.now self.old.rows) result self.old self.new }
        ensures drawn { HasDrawnCells front.now (2 ^ 26) ids.old ids.new self.old self.new }
        ensures refused { IfErr result (λ e. (e ≡ Memory) ⊎ (ids.new ≡ ids.old)) }
        ensures written { OnOk result
            (Writes (rows_put self.old.schema row.now self.old.rows) self.old self.new) }
    {
        let alloc = *self.trees.allocator();
        let written = write_row(alloc, &self.def, &mut self.trees, front, ids, row);
        match written {
            Ok(replaced) => Ok(replaced),
            Err(error) => {
                self.spoiled = is_memory(&error);
                Err(error)
            }
        }
    }
}

/// The full keys of the row that a put replaces, in each index, and whether there is such a row;
/// without one there are no keys.
#[derive(Drop)]
struct OldKeys {
    keys: RowKeys,
    there: bool,
}

/// The full keys that a put puts in, and those of the row that it replaces.
#[derive(Drop)]
struct PutKeys {
    new: RowKeys,
    old: OldKeys,
}

/// Puts a row into the trees; true where it replaces one.
fn write_row(
    alloc: Global,
    def: &TableDef,
    txns: &mut [TreeTxn],
    front: &Front,
    ids: &mut Ids,
    row: &Row,
) -> Result<bool, WriteError>
    requires ready { AreReady front.now ids.old txns.old }
    requires held { AreTrees def.now (nodes_of txns.old) }
    ensures answers { let told = put_row def.now row.now (rows_held def.now (nodes_of txns.old)) in
        MatchResult result
        (λ replaced. AreLeft ids.old.next 1 × IsPut def.now told replaced txns.new)
        (λ e. IsRefused ids.old.next told e txns.old txns.new) }
    ensures drawn { HaveDrawn front.now (2 ^ 26) ids.old ids.new txns.old txns.new }
    ensures refused { IfErr result (λ e. (e ≡ Memory) ⊎ (ids.new ≡ ids.old)) }
    ensures written { let rows = rows_held def.now (nodes_of txns.old) in
        OnOk result (WroteRows def.now (rows_put def.now row.now rows) txns.old txns.new) }
{
    let count = def.len();
    prove!(0 < count);
    let keys = keys_to_write(alloc, def, txns, ids, row)?;
    Ok(put_by_keys(txns, front, ids, keys, row)?)
}

/// Puts a row into the trees by its full keys; true where it replaces one.
fn put_by_keys(
    txns: &mut [TreeTxn],
    front: &Front,
    ids: &mut Ids,
    keys: PutKeys,
    row: &Row,
) -> Result<bool, AllocError>
    requires ready { AreReady front.now ids.old txns.old }
    requires left { ids.old.next + 2 ^ 21 * length txns.old ≤ 2 ^ 63 }
    requires all_keys { length keys.new ≡ length txns.old }
    requires all_old { length keys.old.keys ≡ length txns.old }
    ensures there { IfOk result (λ replaced. replaced ≡ keys.old.there) }
    ensures pairs { OnOk result (map txn_pairs txns.new
        ≡ replaced_each row.now keys.new keys.old.keys (map txn_pairs txns.old)) }
    ensures sound { OnOk result (AreSound txns.new) }
    ensures drawn { HaveDrawn front.now (2 ^ 21 * length txns.old)
        ids.old ids.new txns.old txns.new }
    ensures written { OnOk result (TreesWrote
        (λ place k. IsAt keys.new place k ⊎ IsAt keys.old.keys place k) txns.old txns.new) }
{
    let PutKeys { new, old } = keys;
    replace_each(txns, front, ids, new.lists(), old.keys.lists(), row)?;
    Ok(old.there)
}

/// The full keys that a put takes out and puts in, if it isn't refused and there are ids for it.
fn keys_to_write(
    alloc: Global,
    def: &TableDef,
    txns: &[TreeTxn],
    ids: &Ids,
    row: &Row,
) -> Result<PutKeys, WriteError>
    requires sound { AreSound txns.now }
    requires held { AreTrees def.now (nodes_of txns.now) }
    ensures { let rows = rows_held def.now (nodes_of txns.now) in
        MatchResult result
        (λ keys. AreLeft ids.now.next 1
        × IsAccepted def.now row.now rows keys.new keys.old.keys keys.old.there)
        (λ e. IsRefused ids.now.next (put_row def.now row.now rows) e txns.now txns.now) }
{
    let keys = accepted_keys(alloc, def, txns, row)?;
    if has_ids(ids, 1) {
        Ok(keys)
    } else {
        Err(WriteError::IdsSpent)
    }
}

/// The full keys that a put takes out and puts in, if it isn't refused.
fn accepted_keys(
    alloc: Global,
    def: &TableDef,
    txns: &[TreeTxn],
    row: &Row,
) -> Result<PutKeys, WriteError>
    requires sound { AreSound txns.now }
    requires held { AreTrees def.now (nodes_of txns.now) }
    ensures { let rows = rows_held def.now (nodes_of txns.now) in
        MatchResult result
        (λ keys. IsAccepted def.now row.now rows keys.new keys.old.keys keys.old.there)
        (λ e. TellsRefusal (put_row def.now row.now rows) e) }
{
    let id = id_key_of(alloc, def, row)?;
    keys_of_id(alloc, def, txns, row, &id)
}

/// The same, where the row has this `id` key.
fn keys_of_id(
    alloc: Global,
    def: &TableDef,
    txns: &[TreeTxn],
    row: &Row,
    id: &IdKey,
) -> Result<PutKeys, WriteError>
    requires known { id_of def.now row.now ≡ Ok id.now }
    requires sound { AreSound txns.now }
    requires held { AreTrees def.now (nodes_of txns.now) }
    ensures { let rows = rows_held def.now (nodes_of txns.now) in
        MatchResult result
        (λ keys. IsAccepted def.now row.now rows keys.new keys.old.keys keys.old.there)
        (λ e. TellsRefusal (put_row def.now row.now rows) e) }
{
    // The definition is lawful by its type.
    let _ = def.len();
    let new = match full_keys_of(alloc, def, id, row) {
        Ok(keys) => keys,
        Err(error) => return Err(error),
    };
    let old = match old_keys_of(alloc, def, txns, id) {
        Ok(keys) => keys,
        Err(error) => return Err(error),
    };
    match first_taken(txns, new.lists(), old.keys.lists()) {
        Some(place) => Err(WriteError::KeyTaken {
            index: told_place(def, place),
        }),
        None => Ok(PutKeys { new, old }),
    }
}

/// The full keys of the row of an `id` key.
fn old_keys_of(
    alloc: Global,
    def: &TableDef,
    txns: &[TreeTxn],
    id: &IdKey,
) -> Result<OldKeys, WriteError>
    requires sound { AreSound txns.now }
    requires held { AreTrees def.now (nodes_of txns.now) }
    ensures { let old = row_at def.now id.now (rows_held def.now (nodes_of txns.now)) in
        MatchResult result
        (λ found. (found.keys ≡ keys_of_each def.now old) × (found.there ≡ is_some old))
        (λ e. e ≡ Memory) }
{
    // The definition is lawful by its type.
    let _ = def.len();
    match row_at(def, txns, id) {
        Some(row) => match full_keys_of(alloc, def, id, row) {
            Ok(keys) => Ok(OldKeys { keys, there: true }),
            Err(error) => Err(error),
        },
        None => Ok(OldKeys {
            keys: RowKeys::none(alloc, def.len())?,
            there: false,
        }),
    }
}
