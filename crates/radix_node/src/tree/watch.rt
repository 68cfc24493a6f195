//! The watches of a key and of a prefix.
ghost use Rattle.std.specs.Prelude.{◌≡◌, option_copied};
ghost use Rattle.std.specs.Arc.{arc_value};
ghost use Rattle.radix_node.specs.Cells.{plain_of};
ghost use Rattle.radix_node.specs.Nodes.{pairs_of};
ghost use Rattle.radix_node.specs.Pairs.{find};
ghost use Rattle.radix_node.specs.Watches.{get_watch, seek_watch};

use crate::tree::Tree;
use mdb_datum::Row;
use std::sync::Arc;
use watch_word::WatchCell;

impl Tree {
    /// The cell that tells when what is under a key may have changed, and the row under the key:
    /// the cell of its leaf, and where there is none, that of the node where the key leaves the
    /// tree. It takes no memory, and time in the length of the key, with a binary search among the
    /// edges at each node on the way.
    pub fn get_watch(&self, key: &[u8]) -> (&Arc<WatchCell>, Option<&Row>)
        ensures cell { arc_value result.0.now ≡ get_watch key.now self.now }
        ensures row { option_copied result.1 ≡ find key.now (pairs_of (plain_of self.now)) }
    {
        let (node, leaf) = self.look_up(key);
        match leaf {
            Some(leaf) => (leaf.cell(), Some(leaf.row())),
            None => (node.cell(), None),
        }
    }

    /// The cell that tells when the pairs whose keys begin with a prefix may have changed: that of
    /// the node where the prefix leaves the tree. It takes no memory, and time as
    /// [`Tree::get_watch`] does.
    pub fn seek_watch(&self, prefix: &[u8]) -> &Arc<WatchCell>
        ensures { arc_value result.now ≡ seek_watch prefix.now self.now }
    {
        self.descend(prefix).0.cell()
    }
}
