//! The node of a prefix.
ghost use Rattle.std.specs.Prelude.{◌≡◌, IfSome, option_map};
ghost use Rattle.mdb_datum.specs.Bytes.{Bytes};
ghost use Rattle.radix_node.specs.Node.{pairs_at, plain_node};
ghost use Rattle.radix_node.specs.Cells.{plain_of};
ghost use Rattle.radix_node.specs.Nodes.{pairs_of};
ghost use Rattle.radix_node.specs.Pairs.{with_prefix};
ghost use Rattle.radix_node.specs.Shape.{IsShaped};

use crate::node::Node;
use crate::tree::Tree;
use crate::tree::descent::KeyEnd;

impl Tree {
    /// The node that has exactly the keys that begin with a prefix, at it and under it, if there
    /// are any. The prefix may end within the node's own. It takes no memory, and time in the
    /// length of the prefix, with a binary search among the edges at each node on the way.
    pub fn seek(&self, prefix: &[u8]) -> Option<&Node>
        ensures pairs { pairs_at (option_map (λ n. plain_node n.now) result)
            ≡ with_prefix prefix.now (pairs_of (plain_of self.now)) }
        ensures shape { IfSome result
            (λ n. let m = plain_node n.now in (path : Bytes) × IsShaped path m.under) }
    {
        let (node, end) = self.descend(prefix);
        match end {
            KeyEnd::At | KeyEnd::Within => Some(node),
            KeyEnd::Outside => None,
        }
    }
}
