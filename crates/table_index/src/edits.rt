//! What a write does to the trees of a table.
ghost use Rattle.std.specs.Prelude.{◌≡◌, ◌+◌, ◌*◌, ◌≤◌, ◌^◌, false, Contains, OnOk, length, map};
ghost use Rattle.mdb_schema.specs.Edits.{without_all};
ghost use Rattle.radix_txn.specs.Drawn.{HasDrawn, IsReady};
ghost use Rattle.radix_txn.specs.Txn.{txn_pairs};
ghost use Rattle.table_index.specs.inner.Drawn.{AreReady, HaveDrawn};
ghost use Rattle.table_index.specs.inner.IndexTrees.{AreSound};
ghost use Rattle.table_index.specs.inner.TreeEdits.{without_each};
ghost use Rattle.table_index.specs.inner.Writes.{TreesWrote, IsAt, Wrote};

use crate::full_key::{FullKey, FullKeys};
use crate::tree_edit::delete;
use radix_node::Ids;
use radix_txn::TreeTxn;
use std::alloc::AllocError;
use watch_word::Front;

/// Takes keys out of a tree, one after another. After an error some may be out.
fn delete_all(
    txn: &mut TreeTxn,
    front: &Front,
    ids: &mut Ids,
    keys: &[FullKey],
) -> Result<(), AllocError>
    requires ready { IsReady (4096 * length keys.now) front.now ids.old txn.old }
    ensures pairs { OnOk result (txn_pairs txn.new ≡ without_all keys.now (txn_pairs txn.old)) }
    ensures sound { OnOk result (txn.new.spoiled ≡ false) }
    ensures drawn { HasDrawn front.now (4096 * length keys.now) ids.old ids.new txn.old txn.new }
    ensures written { OnOk result (Wrote (λ k. Contains keys.now k) txn.old txn.new) }
{
    for key in keys {
        delete(txn, front, ids, key)?;
    }
    Ok(())
}

/// Takes out of each tree the full keys that stand at its place, at most 256. After an error some
/// may be out.
pub(crate) fn delete_each(
    txns: &mut [TreeTxn],
    front: &Front,
    ids: &mut Ids,
    keys: &[FullKeys],
) -> Result<(), AllocError>
    requires ready { AreReady front.now ids.old txns.old }
    requires left { ids.old.next + 2 ^ 20 * length txns.old ≤ 2 ^ 63 }
    requires both { length keys.now ≡ length txns.old }
    ensures pairs { OnOk result
        (map txn_pairs txns.new ≡ without_each keys.now (map txn_pairs txns.old)) }
    ensures sound { OnOk result (AreSound txns.new) }
    ensures drawn { HaveDrawn front.now (2 ^ 20 * length txns.old)
        ids.old ids.new txns.old txns.new }
    ensures written { OnOk result (TreesWrote (IsAt keys.now) txns.old txns.new) }
{
    for at in 0..txns.len() {
        let txn = &mut txns[at];
        delete_all(txn, front, ids, keys[at].keys())?;
    }
    Ok(())
}
