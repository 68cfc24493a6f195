//! Writes of one tree of a table.
ghost use Rattle.std.specs.Prelude.{◌≡◌, ◌≤◌, false, Contains, Some, OnOk, length};
ghost use Rattle.radix_node.specs.Pairs.{put, without, without_prefix};
ghost use Rattle.radix_txn.specs.Drawn.{HasDrawn, IsReady};
ghost use Rattle.radix_txn.specs.Txn.{txn_pairs};
ghost use Rattle.table_index.specs.inner.Writes.{Wrote, keys_begun};

use crate::full_key::FullKey;
use mdb_datum::Row;
use radix_node::Ids;
use radix_txn::TreeTxn;
use std::alloc::AllocError;
use watch_word::Front;

/// Takes out a key, if it is there.
pub(crate) fn delete(
    txn: &mut TreeTxn,
    front: &Front,
    ids: &mut Ids,
    key: &FullKey,
) -> Result<(), AllocError>
    requires ready { IsReady 4096 front.now ids.old txn.old }
    ensures pairs { OnOk result (txn_pairs txn.new ≡ without key.now (txn_pairs txn.old)) }
    ensures sound { OnOk result (txn.new.spoiled ≡ false) }
    ensures drawn { HasDrawn front.now 4096 ids.old ids.new txn.old txn.new }
    ensures written { OnOk result (Wrote (λ k. k ≡ key.now) txn.old txn.new) }
{
    txn.delete(front, ids, key.bytes())?;
    Ok(())
}

/// Puts a row under a key.
pub(crate) fn insert(
    txn: &mut TreeTxn,
    front: &Front,
    ids: &mut Ids,
    key: &FullKey,
    row: &Row,
) -> Result<(), AllocError>
    requires ready { IsReady 4096 front.now ids.old txn.old }
    ensures pairs { OnOk result (txn_pairs txn.new ≡ put key.now row.now (txn_pairs txn.old)) }
    ensures sound { OnOk result (txn.new.spoiled ≡ false) }
    ensures drawn { HasDrawn front.now 4096 ids.old ids.new txn.old txn.new }
    ensures written { OnOk result (Wrote (λ k. k ≡ key.now) txn.old txn.new) }
{
    txn.insert(front, ids, key.bytes(), row)?;
    Ok(())
}

/// Takes out the keys that begin with a prefix.
pub(crate) fn delete_prefix(
    txn: &mut TreeTxn,
    front: &Front,
    ids: &mut Ids,
    prefix: &[u8],
) -> Result<(), AllocError>
    requires short { length prefix.now ≤ 2048 }
    requires ready { IsReady 4096 front.now ids.old txn.old }
    ensures pairs { OnOk result
        (txn_pairs txn.new ≡ without_prefix prefix.now (txn_pairs txn.old)) }
    ensures sound { OnOk result (txn.new.spoiled ≡ false) }
    ensures drawn { HasDrawn front.now 4096 ids.old ids.new txn.old txn.new }
    ensures written { OnOk result
        (Wrote (λ k. Contains (keys_begun prefix.now (Some txn.old)) k) txn.old txn.new) }
{
    txn.delete_prefix(front, ids, prefix)?;
    Ok(())
}
