//! The first row and the last one under a prefix.
ghost use Rattle.std.specs.Prelude.{◌≡◌, option_copied, option_map};
ghost use Rattle.mdb_datum.specs.Bytes.{Bytes};
ghost use Rattle.mdb_datum.specs.Pairs.{first_item, last_item, rows_of, with_prefix};
ghost use Rattle.radix_node.specs.Cells.{plain_of};
ghost use Rattle.radix_node.specs.Node.{below_prefix, plain_node};
ghost use Rattle.radix_node.specs.Nodes.{pairs_of};
ghost use Rattle.radix_node.specs.Shape.{IsShaped};

use crate::edges::edges_under;
use mdb_datum::Row;
use radix_node::{Leaf, Node, Tree};

/// The row of the lowest key that begins with a prefix, if there is one. It takes no memory, and
/// time in the length of the prefix and in the depth of the tree.
pub fn first<'a>(tree: &'a Tree, prefix: &[u8]) -> Option<&'a Row>
    ensures { option_copied result
        ≡ first_item (rows_of (with_prefix prefix.now (pairs_of (plain_of tree.now)))) }
{
    Some(first_leaf(tree.seek(prefix)?)?.row())
}

/// The row of the highest key that begins with a prefix, if there is one. It takes no memory, and
/// time in the length of the prefix and in the depth of the tree.
pub fn last<'a>(tree: &'a Tree, prefix: &[u8]) -> Option<&'a Row>
    ensures { option_copied result
        ≡ last_item (rows_of (with_prefix prefix.now (pairs_of (plain_of tree.now)))) }
{
    Some(last_leaf(tree.seek(prefix)?)?.row())
}

/// The leaf of the lowest key at a node and under it: on the way down by the first edges the first
/// leaf.
fn first_leaf(top: &Node) -> Option<&Leaf>
    requires { let n = plain_node top.now in (path : Bytes) × IsShaped path n.under }
    ensures { option_map (λ l. l.now.pair) result ≡ first_item (pairs_of (below_prefix top.now)) }
{
    let mut node = top;
    while node.leaf().is_none() {
        node = edges_under(node).first()?.node();
    }
    node.leaf()
}

/// The leaf of the highest key at a node and under it: that at the end of the way down by the last
/// edges.
fn last_leaf(top: &Node) -> Option<&Leaf>
    requires { let n = plain_node top.now in (path : Bytes) × IsShaped path n.under }
    ensures { option_map (λ l. l.now.pair) result ≡ last_item (pairs_of (below_prefix top.now)) }
{
    let mut node = top;
    while let Some(edge) = edges_under(node).last() {
        node = edge.node();
    }
    node.leaf()
}
