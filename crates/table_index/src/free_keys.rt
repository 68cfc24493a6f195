//! Whether the full keys of a row are free.
ghost use Rattle.std.specs.Prelude.{◌≡◌, ◌<◌, false, IfSome, length, map};
ghost use Rattle.std.specs.List.{zip};
ghost use Rattle.radix_txn.specs.Txn.{txn_pairs};
ghost use Rattle.table_index.specs.inner.IndexTrees.{AreSound};
ghost use Rattle.table_index.specs.inner.PutKeys.{first_taken, has_taken};

use crate::full_key::{FullKey, FullKeys};
use radix_txn::TreeTxn;

/// Whether a tree holds one of these keys that is none of the old ones.
fn has_taken(txn: &TreeTxn, keys: &[FullKey], old: &FullKeys) -> bool
    requires sound { txn.now.spoiled ≡ false }
    ensures { result ≡ has_taken (keys.now, old.now) (txn_pairs txn.now) }
{
    for key in keys {
        // A key of the row that is replaced is free, and wants no look-up.
        if !old.contains(key) && txn.get(key.bytes()).is_some() {
            return true;
        }
    }
    false
}

/// The place of the first tree that holds one of the full keys at its place, where that is none of
/// the old ones there. It takes no memory, and one look-up for each key that isn't an old one.
pub(crate) fn first_taken(txns: &[TreeTxn], keys: &[FullKeys], old: &[FullKeys]) -> Option<usize>
    requires sound { AreSound txns.now }
    requires all_keys { length keys.now ≡ length txns.now }
    requires all_old { length old.now ≡ length txns.now }
    ensures place { result ≡ first_taken 0 (zip keys.now old.now) (map txn_pairs txns.now) }
    ensures within { IfSome result (λ at. at < length txns.now) }
{
    for at in 0..txns.len() {
        let txn = &txns[at];
        if has_taken(txn, keys[at].keys(), &old[at]) {
            return Some(at);
        }
    }
    None
}
