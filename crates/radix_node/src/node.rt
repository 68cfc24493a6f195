//! Nodes.
mod cells;
mod copies;
mod owned;

ghost use Rattle.std.specs.Prelude.{◌≡◌, ◌==◌, ◌<◌, ◌^◌, IfOk, length, option_map, option_copied};
ghost use Rattle.std.specs.List.{take_while, zip};
ghost use Rattle.std.specs.Arc.{arc_value};
ghost use Rattle.radix_node.specs.CellNode.{cell_edge_of, cell_edges, cell_node, cell_ref, led};
ghost use Rattle.radix_node.specs.Cells.{cells_in};
ghost use Rattle.radix_node.specs.Nodes.{pairs_of, common};
ghost use Rattle.radix_node.specs.Node.{leaf_pair, plain_node, node_of, nodes_in, edges_of};
ghost use Rattle.radix_node.specs.Node.{below_prefix, edge_of, labelled, rest_past};
ghost use Rattle.radix_node.specs.Edges.{EdgesRise};

use crate::edges::Edges;
use crate::leaf::Leaf;
use crate::node_ref::NodeRef;
use std::alloc::{AllocError, Global};
use std::sync::Arc;
use watch_word::WatchCell;

/// A node of the tree, which never changes once it has two owners: its prefix, which are the bytes
/// that come after the label of the edge to it, perhaps a leaf, the edges to the nodes under it, and
/// a cell.
#[cycle(node)]
#[derive(Drop)]
pub struct Node {
    prefix: Vec<u8>,
    leaf: Option<Arc<Leaf, Global>>,
    edges: Edges,
    cell: Arc<WatchCell>,
}

#[tactic(auto, using(crate::proofs::Levels::out_prefix, crate::proofs::Levels::out_leaf, crate::proofs::Levels::out_under, crate::proofs::Levels::node_roll, crate::proofs::Levels::ref_roll))]
impl Node {
    /// A shared node of its parts. It takes memory for the node, and for a copy of the prefix where
    /// that isn't empty.
    #[tactic(auto, using(crate::proofs::Levels::node_roll, crate::proofs::Levels::ref_roll, crate::proofs::CellLevels::cell_node_roll, crate::proofs::CellLevels::cell_ref_roll))]
    pub fn of(
        alloc: Global,
        prefix: &[u8],
        leaf: Option<Arc<Leaf, Global>>,
        edges: Edges,
        cell: Arc<WatchCell>,
    ) -> Result<NodeRef, AllocError>
        ensures node { IfOk result (λ r. node_of r ≡ record {
          prefix = prefix.now;
          leaf = option_map leaf_pair leaf;
          under = nodes_in (edges_of edges);
        }) }
        ensures cells { IfOk result (λ r. cell_ref r ≡ record {
          cell = arc_value cell;
          prefix = prefix.now;
          leaf = option_map arc_value leaf;
          under = cells_in (cell_edges edges);
        }) }
    {
        let node = Node {
            prefix: Vec::from_slice(alloc, prefix)?,
            leaf,
            edges,
            cell,
        };
        Ok(NodeRef {
            node: Arc::new(alloc, node)?,
        })
    }

    /// The cell.
    #[tactic(auto, using(crate::proofs::CellLevels::out_cell))]
    pub fn cell(&self) -> &Arc<WatchCell>
        ensures { let n = cell_node self.now in arc_value result.now ≡ n.cell }
    {
        &self.cell
    }

    /// The bytes that lead to the node, after the label of the edge to it.
    pub fn prefix(&self) -> &[u8]
        ensures { let n = plain_node self.now in result.now ≡ n.prefix }
    {
        &self.prefix
    }

    /// The leaf, if the node's path is a key.
    pub fn leaf(&self) -> Option<&Leaf>
        ensures leaf { let n = plain_node self.now in option_map (λ l. l.now.pair) result ≡ n.leaf }
        ensures cells { let n = cell_node self.now in option_copied result ≡ n.leaf }
    {
        match &self.leaf {
            None => None,
            Some(leaf) => Some(leaf),
        }
    }

    /// The edges to the nodes under it.
    pub fn edges(&self) -> &Edges
        ensures edges { let n = plain_node self.now in nodes_in (edges_of result.now) ≡ n.under }
        ensures cells { let n = cell_node self.now in cells_in (cell_edges result.now) ≡ n.under }
    {
        &self.edges
    }

    /// The node at the edge of a label, if there is one. It takes time in the logarithm of the
    /// number of edges.
    pub fn child(&self, label: u8) -> Option<&Node>
        requires { let n = plain_node self.now in EdgesRise n.under }
        ensures child { let n = plain_node self.now in
            option_map (λ m. labelled (record { label = label; node = plain_node m.now })) result
            ≡ edge_of label n.under }
        ensures cells { let n = cell_node self.now in
            option_map (λ m. led (record { label = label; node = cell_node m.now })) result
            ≡ cell_edge_of label n.under }
    {
        match self.edges.find_edge(label) {
            Ok((_, edge)) => Some(edge.node()),
            Err(_) => None,
        }
    }

    /// What is left of a key after the prefix, if the key begins with it.
    pub fn strip_prefix<'a>(&self, key: &'a [u8]) -> Option<&'a [u8]>
        ensures { let n = plain_node self.now in
            option_map (λ r. r.now) result ≡ rest_past n.prefix key.now }
    {
        key.strip_prefix(self.prefix())
    }

    /// How many bytes the prefix and a key have in common at their start.
    pub fn common_prefix_len(&self, key: &[u8]) -> usize
        ensures { let n = plain_node self.now in result ≡ length (common n.prefix key.now) }
    {
        common_len(self.prefix(), key)
    }

    /// How many leaves there are at the node and under it. It takes no memory, and time in the
    /// number of nodes.
    pub fn count(&self) -> u64
        requires { length (pairs_of (below_prefix self.now)) < 2 ^ 64 }
        ensures { result ≡ length (pairs_of (below_prefix self.now)) }
    {
        let mut count = u64::from(self.leaf.is_some());
        for edge in &self.edges.edges {
            count += edge.node.node.count();
        }
        count
    }
}

/// How many bytes two byte strings have in common at their start.
fn common_len(a: &[u8], b: &[u8]) -> usize
    ensures { result ≡ length (take_while (λ p. p.0 == p.1) (zip a.now b.now)) }
{
    a.iter().zip(b).take_while(|(a, b)| a == b).count()
}
