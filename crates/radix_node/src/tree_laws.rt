//! What is known of every tree, as laws of the definitions. Each function does nothing: its
//! contract is the law.
ghost use Rattle.std.specs.Prelude.{◌≡◌, ◌↔◌};
ghost use Rattle.std.specs.List.Sorted.{IsStrictlySortedBy};
ghost use Rattle.mdb_datum.specs.Bytes.{Bytes, byte_order};
ghost use Rattle.radix_node.specs.Cells.{plain_of};
ghost use Rattle.radix_node.specs.Nodes.{pairs_of};
ghost use Rattle.radix_node.specs.Pairs.{IsRising, find};
ghost use Rattle.radix_node.specs.Paths.{Has, IsPath, paths_of_plain};

use crate::tree::Tree;

/// The pairs of a tree rise by key, so that no key comes twice.
pub fn pairs_rise(tree: &Tree)
    ensures { IsRising (pairs_of (plain_of tree.now)) }
{
    let _ = tree.root();
}

/// The nodes of a tree lie at exactly the paths that its keys tell: the empty string, each key, and
/// the longest common prefix of each two keys. Each node comes before those under it, the paths
/// rise in byte order, and so no two nodes have one path.
pub fn paths_are_told_by_the_keys(tree: &Tree)
    ensures told { (path : Bytes) →
        Has path (paths_of_plain (plain_of tree.now)) ↔ IsPath (pairs_of (plain_of tree.now)) path }
    ensures rising { IsStrictlySortedBy byte_order (paths_of_plain (plain_of tree.now)) }
{
    let _ = tree.root();
}

/// Trees of the same pairs have the same nodes, whatever was written before: one shape for each
/// map. The cells are others.
pub fn pairs_have_one_tree(first: &Tree, second: &Tree)
    requires { pairs_of (plain_of first.now) ≡ pairs_of (plain_of second.now) }
    ensures { plain_of first.now ≡ plain_of second.now }
{
    let _ = first.root();
    let _ = second.root();
}

/// Trees in which each key finds the same row, or none, have the same pairs and the same nodes.
pub fn look_ups_tell_the_tree(first: &Tree, second: &Tree)
    requires { (key : Bytes) → find key (pairs_of (plain_of first.now))
        ≡ find key (pairs_of (plain_of second.now)) }
    ensures pairs { pairs_of (plain_of first.now) ≡ pairs_of (plain_of second.now) }
    ensures nodes { plain_of first.now ≡ plain_of second.now }
{
    let _ = first.root();
    let _ = second.root();
}
