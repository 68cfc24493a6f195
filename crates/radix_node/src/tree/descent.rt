//! The way of a key down a tree.
ghost use Rattle.std.specs.Prelude.{◌≡◌, option_copied};
ghost use Rattle.mdb_datum.specs.Bytes.{Bytes};
ghost use Rattle.radix_node.specs.CellNode.{cell_node};
ghost use Rattle.radix_node.specs.Cells.{plain_of};
ghost use Rattle.radix_node.specs.Node.{plain_node};
ghost use Rattle.radix_node.specs.Shape.{HasShape, IsShaped};
ghost use Rattle.radix_node.specs.inner.Descent.{EndsAt};
ghost use Rattle.radix_node.specs.WalkDown.{walk_tree, end_leaf};

use crate::leaf::Leaf;
use crate::node::Node;
use crate::tree::Tree;

/// Where a key ends, by the last node on its way.
#[derive(Clone, Copy)]
pub(super) enum KeyEnd {
    /// The node's path is the key.
    At,
    /// The key ends within the node's own prefix.
    Within,
    /// The key leaves the tree, within the node's prefix or at its edges.
    Outside,
}

impl Tree {
    /// The last node that the descent of a key enters, and how the key ends there.
    pub(super) fn descend(&self, key: &[u8]) -> (&Node, KeyEnd)
        ensures ends { EndsAt (walk_tree key.now self.now) (cell_node result.0.now) result.1 }
        ensures path { let n = plain_node result.0.now in (path : Bytes) × IsShaped path n.under }
        ensures shape { HasShape (plain_of self.now) }
    {
        let mut node = self.root();
        let mut rest = key;
        while let Some((first, after)) = rest.split_first() {
            let Some(child) = node.child(*first) else {
                return (node, KeyEnd::Outside);
            };
            match child.strip_prefix(after) {
                Some(left) => {
                    node = child;
                    rest = left;
                }
                None if child.prefix().starts_with(after) => return (child, KeyEnd::Within),
                None => return (child, KeyEnd::Outside),
            }
        }
        (node, KeyEnd::At)
    }

    /// The last node that the descent of a key enters, and the leaf of the key, if there is one.
    pub(super) fn look_up(&self, key: &[u8]) -> (&Node, Option<&Leaf>)
        ensures cell { let n = cell_node result.0.now in let end = walk_tree key.now self.now in
            n.cell ≡ end.node.cell }
        ensures leaf { option_copied result.1 ≡ end_leaf (walk_tree key.now self.now) }
        ensures shape { HasShape (plain_of self.now) }
    {
        let (node, end) = self.descend(key);
        match end {
            KeyEnd::At => (node, node.leaf()),
            KeyEnd::Within | KeyEnd::Outside => (node, None),
        }
    }
}
