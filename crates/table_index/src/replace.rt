//! A row put into the trees of a table, in the place of another.
ghost use Rattle.std.specs.Prelude.{◌≡◌, ◌⊎◌, ◌+◌, ◌*◌, ◌≤◌, ◌^◌, false, Contains, OnOk, length};
ghost use Rattle.std.specs.Prelude.{map};
ghost use Rattle.mdb_schema.specs.Edits.{put_all, stale_keys, without_all};
ghost use Rattle.radix_txn.specs.Drawn.{HasDrawn, IsReady};
ghost use Rattle.radix_txn.specs.Txn.{txn_pairs};
ghost use Rattle.table_index.specs.inner.Drawn.{AreReady, HaveDrawn};
ghost use Rattle.table_index.specs.inner.IndexTrees.{AreSound};
ghost use Rattle.table_index.specs.inner.TreeEdits.{replaced_each, replaced_in};
ghost use Rattle.table_index.specs.inner.Writes.{TreesWrote, IsAt, Wrote};

use crate::full_key::{FullKey, FullKeys};
use crate::tree_edit::{delete, insert};
use mdb_datum::Row;
use radix_node::Ids;
use radix_txn::TreeTxn;
use std::alloc::AllocError;
use watch_word::Front;

/// Takes out of a tree the old keys that aren't kept. After an error some may be out.
fn delete_stale(
    txn: &mut TreeTxn,
    front: &Front,
    ids: &mut Ids,
    kept: &FullKeys,
    old: &[FullKey],
) -> Result<(), AllocError>
    requires ready { IsReady (4096 * length old.now) front.now ids.old txn.old }
    ensures pairs { OnOk result
        (txn_pairs txn.new ≡ without_all (stale_keys kept.now old.now) (txn_pairs txn.old)) }
    ensures sound { OnOk result (txn.new.spoiled ≡ false) }
    ensures drawn { HasDrawn front.now (4096 * length old.now) ids.old ids.new txn.old txn.new }
    ensures written { OnOk result (Wrote (λ k. Contains old.now k) txn.old txn.new) }
{
    for key in old {
        if kept.contains(key) {
            continue;
        }
        delete(txn, front, ids, key)?;
    }
    Ok(())
}

/// Puts a row into a tree under each of these keys. After an error it may be in under some.
fn insert_all(
    txn: &mut TreeTxn,
    front: &Front,
    ids: &mut Ids,
    keys: &[FullKey],
    row: &Row,
) -> Result<(), AllocError>
    requires ready { IsReady (4096 * length keys.now) front.now ids.old txn.old }
    ensures pairs { OnOk result
        (txn_pairs txn.new ≡ put_all keys.now row.now (txn_pairs txn.old)) }
    ensures sound { OnOk result (txn.new.spoiled ≡ false) }
    ensures drawn { HasDrawn front.now (4096 * length keys.now) ids.old ids.new txn.old txn.new }
    ensures written { OnOk result (Wrote (λ k. Contains keys.now k) txn.old txn.new) }
{
    for key in keys {
        insert(txn, front, ids, key, row)?;
    }
    Ok(())
}

/// Puts a row into a tree in the place of the one that has the old keys. After an error the tree
/// may stand between the two. There are at most 256 keys of each.
fn replace_in(
    txn: &mut TreeTxn,
    front: &Front,
    ids: &mut Ids,
    keys: &FullKeys,
    old: &FullKeys,
    row: &Row,
) -> Result<(), AllocError>
    requires ready { IsReady (2 ^ 21) front.now ids.old txn.old }
    ensures pairs { OnOk result
        (txn_pairs txn.new ≡ replaced_in row.now (keys.now, old.now) (txn_pairs txn.old)) }
    ensures sound { OnOk result (txn.new.spoiled ≡ false) }
    ensures drawn { HasDrawn front.now (2 ^ 21) ids.old ids.new txn.old txn.new }
    ensures written { OnOk result
        (Wrote (λ k. Contains keys.now k ⊎ Contains old.now k) txn.old txn.new) }
{
    delete_stale(txn, front, ids, keys, old.keys())?;
    insert_all(txn, front, ids, keys.keys(), row)
}

/// Puts a row into each tree, by the full keys that stand at its place: those of the row, and those
/// of the row that it replaces. After an error it may be in some trees.
pub(crate) fn replace_each(
    txns: &mut [TreeTxn],
    front: &Front,
    ids: &mut Ids,
    keys: &[FullKeys],
    old: &[FullKeys],
    row: &Row,
) -> Result<(), AllocError>
    requires ready { AreReady front.now ids.old txns.old }
    requires left { ids.old.next + 2 ^ 21 * length txns.old ≤ 2 ^ 63 }
    requires all_keys { length keys.now ≡ length txns.old }
    requires all_old { length old.now ≡ length txns.old }
    ensures pairs { OnOk result
        (map txn_pairs txns.new ≡ replaced_each row.now keys.now old.now (map txn_pairs txns.old)) }
    ensures sound { OnOk result (AreSound txns.new) }
    ensures drawn { HaveDrawn front.now (2 ^ 21 * length txns.old)
        ids.old ids.new txns.old txns.new }
    ensures written { OnOk result
        (TreesWrote (λ place k. IsAt keys.now place k ⊎ IsAt old.now place k) txns.old txns.new) }
{
    for at in 0..txns.len() {
        let txn = &mut txns[at];
        replace_in(txn, front, ids, &keys[at], &old[at], row)?;
    }
    Ok(())
}
