//! The removal of the rows that an index lists under a key.
ghost use Rattle.std.specs.Prelude.{◌≡◌, ◌⊎◌, ◌+◌, ◌*◌, ◌<◌, ◌≤◌, ◌^◌, ◌∷◌, [], Ok, false, length};
ghost use Rattle.std.specs.Prelude.{map};
ghost use Rattle.std.specs.Prelude.{Contains, IfErr, MatchResult, OnOk, slice_get};
ghost use Rattle.mdb_datum.specs.Row.{Fields};
ghost use Rattle.mdb_schema.specs.State.{id_key};
ghost use Rattle.mdb_schema.specs.Write.{id_of};
ghost use Rattle.radix_txn.specs.Txn.{txn_pairs};
ghost use Rattle.table_index.specs.Table.{AreLeft};
ghost use Rattle.table_index.specs.declared.wipe_error.WipeError.TheVariants.{Memory};
ghost use Rattle.table_index.specs.inner.Drawn.{AreReady, HaveDrawn, ids_of_row};
ghost use Rattle.table_index.specs.inner.IndexTrees.{AreSound, AreTrees, nodes_of};
ghost use Rattle.table_index.specs.inner.Wipes.{GivesUp, IsMoved, IsOut, IsStored, IsTaking};
ghost use Rattle.table_index.specs.inner.Wipes.{IsWiped, MovesNext, gone_at, is_next_there};
ghost use Rattle.table_index.specs.inner.Wipes.{is_there, listed_from, rows_under};
ghost use Rattle.table_index.specs.inner.Writes.{WroteRows};

use crate::answer::gather;
use crate::cut::{cut_listed, stand_at};
use crate::edits::delete_each;
use crate::id_key::IdKey;
use crate::refusal::of_stored;
use crate::row_keys::{full_keys_of, id_place};
use crate::stored::stored_id;
use crate::wipe_error::WipeError;
use mdb_datum::Row;
use mdb_schema::{Rows, TableDef};
use radix_iter::Walk;
use radix_node::{Ids, Tree};
use radix_txn::TreeTxn;
use std::alloc::Global;
use watch_word::Front;

/// Takes the rows that the index at a place lists under a key out of the trees, and gives them, in
/// the order of their first listing. After want of memory some may be out.
pub(crate) fn wipe_listed(
    alloc: Global,
    def: &TableDef,
    txns: &mut [TreeTxn],
    front: &Front,
    ids: &mut Ids,
    place: usize,
    key: &[u8],
) -> Result<Rows, WipeError>
    requires place { place < length def.now.indexes }
    requires short { length key.now ≤ 2048 }
    requires ready { AreReady front.now ids.old txns.old }
    requires held { AreTrees def.now (nodes_of txns.old) }
    ensures answers { let gone = gone_at def.now txns.old place key.now in
        MatchResult result
        (λ taken. AreLeft ids.old.next (length gone) × IsWiped def.now gone taken txns.old txns.new)
        (λ e. GivesUp ids.old.next (length gone) e txns.old txns.new) }
    ensures drawn { let gone = gone_at def.now txns.old place key.now in
        HaveDrawn front.now (2 ^ 26 * length gone) ids.old ids.new txns.old txns.new }
    ensures refused { IfErr result (λ e. (e ≡ Memory) ⊎ (ids.new ≡ ids.old)) }
    ensures written { let gone = gone_at def.now txns.old place key.now in
        OnOk result (WroteRows def.now gone txns.old txns.new) }
{
    let tree = stand_at(txns, place)?;
    wipe_standing(alloc, def, txns, front, ids, place, &tree, key)
}

/// The same, where the tree at the place stands meanwhile, so that a walk goes over it. If there is
/// no other index, the cut has taken out each row's keys.
fn wipe_standing(
    alloc: Global,
    def: &TableDef,
    txns: &mut [TreeTxn],
    front: &Front,
    ids: &mut Ids,
    place: usize,
    tree: &Tree,
    key: &[u8],
) -> Result<Rows, WipeError>
    requires place { place < length def.now.indexes }
    requires short { length key.now ≤ 2048 }
    requires ready { AreReady front.now ids.old txns.old }
    requires held { AreTrees def.now (nodes_of txns.old) }
    requires stands { rows_under key.now tree.now
        ≡ listed_from key.now (slice_get txns.old place) }
    ensures answers { let gone = gone_at def.now txns.old place key.now in
        MatchResult result
        (λ taken. AreLeft ids.old.next (length gone) × IsWiped def.now gone taken txns.old txns.new)
        (λ e. GivesUp ids.old.next (length gone) e txns.old txns.new) }
    ensures drawn { let gone = gone_at def.now txns.old place key.now in
        HaveDrawn front.now (2 ^ 26 * length gone) ids.old ids.new txns.old txns.new }
    ensures refused { IfErr result (λ e. (e ≡ Memory) ⊎ (ids.new ≡ ids.old)) }
    ensures written { let gone = gone_at def.now txns.old place key.now in
        OnOk result (WroteRows def.now gone txns.old txns.new) }
{
    let indexes = def.len();
    let mut listed = match cut_listed(alloc, def, txns, front, ids, place, tree, key) {
        Ok(listed) => listed,
        Err(error) => return Err(error),
    };
    if indexes == 1 {
        return Ok(gather(alloc, listed)?);
    }
    let mut gone = Rows::new(alloc);
    'rows: while move_next(alloc, def, txns, front, ids, place, &mut listed, &mut gone)? {}
    Ok(gone)
}

/// Takes the next of the listed rows out of the trees if it is still there, and adds it to those
/// that are out; `false` where no row is left. After an error some of its keys may be out.
fn move_next(
    alloc: Global,
    def: &TableDef,
    txns: &mut [TreeTxn],
    front: &Front,
    ids: &mut Ids,
    cut: usize,
    listed: &mut Walk<'_>,
    gone: &mut Rows,
) -> Result<bool, WipeError>
    requires stored { (r : Fields) → Contains listed.old r → IsStored def.now r }
    requires ready { AreReady front.now ids.old txns.old }
    requires left { let there = is_next_there def.now cut listed.old (map txn_pairs txns.old) in
        ids.old.next + ids_of_row there ≤ 2 ^ 63 }
    requires both { length txns.old ≡ length def.now.indexes }
    ensures answers { MatchResult result
        (λ more. MovesNext def.now cut more
        listed.old listed.new txns.old txns.new gone.old gone.new)
        (λ e. e ≡ Memory) }
    ensures drawn { let there = is_next_there def.now cut listed.old (map txn_pairs txns.old) in
        HaveDrawn front.now (ids_of_row there) ids.old ids.new txns.old txns.new }
    ensures written { OnOk result (WroteRows def.now listed.old txns.old txns.new) }
{
    match listed.next()? {
        Some(row) => {
            move_listed(alloc, def, txns, front, ids, cut, row, gone)?;
            Ok(true)
        }
        None => Ok(false),
    }
}

/// Takes a listed row out of the trees if it is still there, and adds it to those that are out.
/// After an error some of its keys may be out.
fn move_listed(
    alloc: Global,
    def: &TableDef,
    txns: &mut [TreeTxn],
    front: &Front,
    ids: &mut Ids,
    cut: usize,
    row: Row,
    gone: &mut Rows,
) -> Result<(), WipeError>
    requires stored { IsStored def.now row }
    requires ready { AreReady front.now ids.old txns.old }
    requires left { let there = is_there def.now cut
        (id_key def.now row) (map txn_pairs txns.old) in
        ids.old.next + ids_of_row there ≤ 2 ^ 63 }
    requires both { length txns.old ≡ length def.now.indexes }
    ensures answers { MatchResult result
        (λ _. IsMoved def.now cut row txns.old txns.new gone.old gone.new)
        (λ e. e ≡ Memory) }
    ensures drawn { let there = is_there def.now cut
        (id_key def.now row) (map txn_pairs txns.old) in
        HaveDrawn front.now (ids_of_row there) ids.old ids.new txns.old txns.new }
    ensures written { OnOk result (WroteRows def.now (row ∷ []) txns.old txns.new) }
{
    let taken = take_listed(alloc, def, txns, front, ids, cut, &row)?;
    if !taken {
        return Ok(());
    }
    gone.push(row)?;
    Ok(())
}

/// Takes a listed row out of the trees if it is still there, and says whether it was. After an
/// error some of its keys may be out.
fn take_listed(
    alloc: Global,
    def: &TableDef,
    txns: &mut [TreeTxn],
    front: &Front,
    ids: &mut Ids,
    cut: usize,
    row: &Row,
) -> Result<bool, WipeError>
    requires stored { IsStored def.now row.now }
    requires ready { AreReady front.now ids.old txns.old }
    requires left { let there = is_there def.now cut
        (id_key def.now row.now) (map txn_pairs txns.old) in
        ids.old.next + ids_of_row there ≤ 2 ^ 63 }
    requires both { length txns.old ≡ length def.now.indexes }
    ensures answers { MatchResult result
        (λ taken. IsTaking def.now cut row.now taken txns.old txns.new)
        (λ e. e ≡ Memory) }
    ensures drawn { let there = is_there def.now cut
        (id_key def.now row.now) (map txn_pairs txns.old) in
        HaveDrawn front.now (ids_of_row there) ids.old ids.new txns.old txns.new }
    ensures written { OnOk result (WroteRows def.now (row.now ∷ []) txns.old txns.new) }
{
    let id = stored_id(alloc, def, row)?;
    if !is_there(def, txns, cut, &id) {
        return Ok(false);
    }
    take_out(alloc, def, txns, front, ids, &id, row)?;
    Ok(true)
}

/// Takes the full keys of a stored row out of the trees. After an error some may be out.
fn take_out(
    alloc: Global,
    def: &TableDef,
    txns: &mut [TreeTxn],
    front: &Front,
    ids: &mut Ids,
    id: &IdKey,
    row: &Row,
) -> Result<(), WipeError>
    requires stored { IsStored def.now row.now }
    requires known { id_of def.now row.now ≡ Ok id.now }
    requires ready { AreReady front.now ids.old txns.old }
    requires left { ids.old.next + 2 ^ 25 ≤ 2 ^ 63 }
    requires both { length txns.old ≡ length def.now.indexes }
    ensures answers { MatchResult result
        (λ _. IsOut def.now row.now txns.old txns.new)
        (λ e. e ≡ Memory) }
    ensures drawn { HaveDrawn front.now (2 ^ 25) ids.old ids.new txns.old txns.new }
    ensures written { OnOk result (WroteRows def.now (row.now ∷ []) txns.old txns.new) }
{
    // The definition is lawful by its type.
    let _ = def.len();
    match full_keys_of(alloc, def, id, row) {
        Ok(keys) => Ok(delete_each(txns, front, ids, keys.lists())?),
        Err(error) => Err(of_stored(error)),
    }
}

/// Whether the row of an `id` key is still to be taken out, where one tree was cut. The tree of the
/// index `id` tells it, but where that is the tree that was cut; then each row was listed once.
fn is_there(def: &TableDef, txns: &[TreeTxn], cut: usize, id: &IdKey) -> bool
    requires sound { AreSound txns.now }
    requires both { length txns.now ≡ length def.now.indexes }
    ensures { result ≡ is_there def.now cut id.now (map txn_pairs txns.now) }
{
    let place = id_place(def);
    if place == cut {
        return true;
    }
    let txn = &txns[place];
    txn.get(id.bytes()).is_some()
}
