//! Nodes made from another one, which share what they don't change. Each call takes memory for the
//! new node, and is refused only for want of it, or of room to count one more owner.
ghost use Rattle.std.specs.Prelude.{◌≡◌, IfOk, Some, option_map};
ghost use Rattle.std.specs.Arc.{arc_value};
ghost use Rattle.radix_node.specs.CellNode.{cell_edges, cell_node, cell_ref};
ghost use Rattle.radix_node.specs.Cells.{cells_in};
ghost use Rattle.radix_node.specs.Node.{leaf_pair, plain_node, node_of, nodes_in, edges_of};

use crate::edges::Edges;
use crate::leaf::Leaf;
use crate::node::Node;
use crate::node_ref::NodeRef;
use mdb_datum::Row;
use std::alloc::{AllocError, Global};
use std::sync::Arc;
use watch_word::WatchCell;

impl Node {
    /// The node with another leaf.
    pub fn with_leaf(
        &self,
        leaf: Arc<Leaf, Global>,
        cell: Arc<WatchCell>,
    ) -> Result<NodeRef, AllocError>
        ensures node { let n = plain_node self.now in IfOk result (λ r. node_of r
            ≡ record { prefix = n.prefix; leaf = Some (leaf_pair leaf); under = n.under }) }
        ensures cells { let n = cell_node self.now in IfOk result (λ r. cell_ref r ≡ record {
          cell = arc_value cell;
          prefix = n.prefix;
          leaf = Some (arc_value leaf);
          under = n.under;
        }) }
    {
        let edges = self.edges().share()?;
        Node::of(edges.allocator(), self.prefix(), Some(leaf), edges, cell)
    }

    /// The node with other edges.
    pub fn with_edges(&self, edges: Edges, cell: Arc<WatchCell>) -> Result<NodeRef, AllocError>
        ensures node { let n = plain_node self.now in IfOk result (λ r. node_of r
            ≡ record { prefix = n.prefix; leaf = n.leaf; under = nodes_in (edges_of edges) }) }
        ensures cells { let n = cell_node self.now in IfOk result (λ r. cell_ref r ≡ record {
          cell = arc_value cell;
          prefix = n.prefix;
          leaf = n.leaf;
          under = cells_in (cell_edges edges);
        }) }
    {
        let leaf = self.share_leaf()?;
        Node::of(edges.allocator(), self.prefix(), leaf, edges, cell)
    }

    /// The node with another prefix.
    pub fn with_prefix(&self, prefix: &[u8], cell: Arc<WatchCell>) -> Result<NodeRef, AllocError>
        ensures node { let n = plain_node self.now in IfOk result (λ r. node_of r
            ≡ record { prefix = prefix.now; leaf = n.leaf; under = n.under }) }
        ensures cells { let n = cell_node self.now in IfOk result (λ r. cell_ref r ≡ record {
          cell = arc_value cell;
          prefix = prefix.now;
          leaf = n.leaf;
          under = n.under;
        }) }
    {
        let leaf = self.share_leaf()?;
        let edges = self.edges().share()?;
        Node::of(edges.allocator(), prefix, leaf, edges, cell)
    }

    /// One more owner of the leaf, if there is one. It takes no memory.
    pub fn share_leaf(&self) -> Result<Option<Arc<Leaf, Global>>, AllocError>
        ensures leaf { let n = plain_node self.now in
            IfOk result (λ l. option_map leaf_pair l ≡ n.leaf) }
        ensures cells { let n = cell_node self.now in
            IfOk result (λ l. option_map arc_value l ≡ n.leaf) }
    {
        match &self.leaf {
            None => Ok(None),
            Some(leaf) => Ok(Some(Arc::try_clone(leaf)?)),
        }
    }

    /// One more owner of the leaf's row, if there is a leaf. It takes no memory.
    pub fn share_row(&self) -> Result<Option<Row>, AllocError>
        ensures { let n = plain_node self.now in
            IfOk result (λ r. r ≡ option_map (λ p. p.1) n.leaf) }
    {
        match self.leaf() {
            None => Ok(None),
            Some(leaf) => Ok(Some(leaf.row().share()?)),
        }
    }
}
