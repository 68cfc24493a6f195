//! What a delete leaves of a node.
ghost use Rattle.std.specs.Prelude.{◌≡◌, ◌++◌, ◌∷◌, ◌+◌, ◌<◌, ◌≤◌, ◌^◌, [], List, None, IfOk, OnOk};
ghost use Rattle.std.specs.Prelude.{length, take, drop, option_map, option_to_list};
ghost use Rattle.std.specs.Arc.{arc_value};
ghost use Rattle.mdb_datum.specs.Bytes.{Bytes};
ghost use Rattle.watch_word.specs.Logs.{Cell};
ghost use Rattle.radix_node.specs.CellNode.{cell_edges, cell_node, cell_ref, led_node};
ghost use Rattle.radix_node.specs.Cells.{CellNode, cells_in, no_cells, node_pieces};
ghost use Rattle.radix_node.specs.Node.{edge_node, edges_of, leaf_pair, nodes_in, node_of};
ghost use Rattle.radix_node.specs.Node.{plain_node};
ghost use Rattle.radix_node.specs.Nodes.{no_nodes};
ghost use Rattle.radix_node.specs.Siblings.{cells_list, nodes_list};
ghost use Rattle.radix_txn.specs.inner.Below.{settled_node};
ghost use Rattle.radix_txn.specs.inner.Outside.{AllIn, below_pieces, inner_pieces};
ghost use Rattle.radix_txn.specs.inner.Pieces.{inside, inside_of, led, ref_list, whole};
ghost use Rattle.radix_txn.specs.inner.Remains.{remains_of, own_leaf, own_nodes, pieces_left};
ghost use Rattle.radix_txn.specs.inner.Remains.{stays_left};
ghost use Rattle.radix_txn.specs.inner.Steps.{IsNextOf, IsOnward, Steps, one_drawn};

use crate::cells::Cells;
use crate::made;
use radix_node::{Edge, Edges, Leaf, Node, NodeRef};
use std::alloc::{AllocError, Global};
use std::sync::Arc;

/// What a node is left with after a delete at or under it.
#[derive(Drop)]
pub struct Remains {
    leaf: Option<Arc<Leaf, Global>>,
    edges: Edges,
}

impl Remains {
    /// Neither a leaf nor edges.
    pub fn nothing(alloc: Global) -> Remains
        ensures plain { remains_of result ≡ record { leaf = None; nodes = no_nodes } }
        ensures leaf { own_leaf result ≡ None }
        ensures nodes { own_nodes result ≡ no_cells }
    {
        Remains {
            leaf: None,
            edges: Edges::new(alloc),
        }
    }

    /// The node's edges without its leaf.
    pub fn without_leaf(node: &Node) -> Result<Remains, AllocError>
        ensures plain { let n = plain_node node.now in
            IfOk result (λ r. remains_of r ≡ record { leaf = None; nodes = n.under }) }
        ensures leaf { IfOk result (λ r. own_leaf r ≡ None) }
        ensures nodes { let n = cell_node node.now in IfOk result (λ r. own_nodes r ≡ n.under) }
    {
        Ok(Remains {
            leaf: None,
            edges: node.edges().share()?,
        })
    }

    /// The node's leaf, and its edges without the one at a place.
    pub fn without_edge(node: &Node, at: usize) -> Result<Remains, AllocError>
        requires { let n = plain_node node.now in at < length (nodes_list n.under) }
        ensures plain { let n = plain_node node.now in let es = nodes_list n.under in
            IfOk result (λ r. remains_of r
            ≡ record { leaf = n.leaf; nodes = nodes_in (take at es ++ drop (at + 1) es) }) }
        ensures leaf { let n = cell_node node.now in IfOk result (λ r. own_leaf r ≡ n.leaf) }
        ensures nodes { let n = cell_node node.now in let es = cells_list n.under in
            IfOk result (λ r. own_nodes r ≡ cells_in (take at es ++ drop (at + 1) es)) }
    {
        Ok(Remains {
            leaf: node.share_leaf()?,
            edges: node.edges().without(at)?,
        })
    }

    /// The node's leaf, and its edges with one in place of that at a place.
    fn with_edge(node: &Node, at: usize, edge: Edge) -> Result<Remains, AllocError>
        requires { let n = plain_node node.now in at < length (nodes_list n.under) }
        ensures plain { let n = plain_node node.now in let es = nodes_list n.under in
            IfOk result (λ r. remains_of r ≡ record {
              leaf = n.leaf;
              nodes = nodes_in (take at es ++ edge_node edge ∷ drop (at + 1) es);
            }) }
        ensures leaf { let n = cell_node node.now in IfOk result (λ r. own_leaf r ≡ n.leaf) }
        ensures nodes { let n = cell_node node.now in let es = cells_list n.under in IfOk result
            (λ r. own_nodes r ≡ cells_in (take at es ++ led_node edge ∷ drop (at + 1) es)) }
    {
        Ok(Remains {
            leaf: node.share_leaf()?,
            edges: node.edges().spliced(at, at + 1, edge)?,
        })
    }

    /// The node's leaf, and its edges where the node at the edge at a place is left with `below`.
    pub fn above(
        node: &Node,
        at: usize,
        edge: &Edge,
        below: Remains,
        cells: &mut Cells,
    ) -> Result<Remains, AllocError>
        requires in_range { let n = plain_node node.now in at < length (nodes_list n.under) }
        requires left { cells.old.next < 2 ^ 63 }

        ensures plain { let n = plain_node node.now in let es = nodes_list n.under in
            let m = edge_node edge.now in let b = remains_of below in
            let child = settled_node m.prefix b.leaf b.nodes in
            IfOk result (λ r. remains_of r ≡ record {
              leaf = n.leaf;
              nodes = nodes_in (take at es ++ (option_to_list child ++ drop (at + 1) es));
            }) }

        ensures leaf { let n = cell_node node.now in IfOk result (λ r. own_leaf r ≡ n.leaf) }
        ensures nodes { let n = cell_node node.now in let es = cells_list n.under in
            IfOk result (λ r. (ns : List CellNode)
            × (own_nodes r ≡ cells_in (take at es ++ (ns ++ drop (at + 1) es)))
            × Steps (pieces_left below) cells.old (node_pieces (cells_in ns)) cells.new
            × AllIn (stays_left below) (inner_pieces (cells_in ns))) }
        ensures few { OnOk result (cells.new.next ≤ cells.old.next + 1) }
        ensures onward { OnOk result (IsOnward cells.old cells.new) }
    {
        match below.settled(edge.node().prefix(), cells)? {
            None => Remains::without_edge(node, at),
            Some(child) => Remains::with_edge(node, at, Edge::of(edge.label(), child)),
        }
    }

    /// The root of what is left.
    pub fn root(self, cells: &mut Cells) -> Result<NodeRef, AllocError>
        requires left { cells.old.next < 2 ^ 63 }
        ensures plain { let r = remains_of self in IfOk result
            (λ n. node_of n ≡ record { prefix = []; leaf = r.leaf; under = r.nodes }) }
        ensures cells { IfOk result (λ n. (c : Cell) × IsNextOf cells.old c × (cell_ref n ≡ record {
          cell = c;
          prefix = [];
          leaf = own_leaf self;
          under = own_nodes self;
        })) }
        ensures drawn { OnOk result (cells.new ≡ one_drawn cells.old) }
        ensures begun { cells.old.first ≤ cells.old.next }
    {
        let Remains { leaf, edges } = self;
        made::of(b"", leaf, edges, cells)
    }

    /// A node, not the root, with what is left: none, where that is nothing, and merged with the
    /// node under it, where that is one edge.
    pub fn settled(self, prefix: &[u8], cells: &mut Cells) -> Result<Option<NodeRef>, AllocError>
        requires left { cells.old.next < 2 ^ 63 }

        ensures plain { let r = remains_of self in IfOk result
            (λ n. option_map node_of n ≡ settled_node prefix.now r.leaf r.nodes) }

        ensures cells { IfOk result (λ n. (front : Bytes) → Steps (pieces_left self) cells.old
            (node_pieces (cells_in (ref_list front n))) cells.new) }
        ensures stays { IfOk result
            (λ n. AllIn (stays_left self) (inner_pieces (cells_in (ref_list [] n)))) }
        ensures few { OnOk result (cells.new.next ≤ cells.old.next + 1) }
        ensures onward { OnOk result (IsOnward cells.old cells.new) }
    {
        let Remains { leaf, edges } = self;
        if leaf.is_some() || edges.len() > 1 {
            return Ok(Some(kept(prefix, leaf, edges, cells)?));
        }
        lone(prefix, &edges, cells)
    }
}

/// The same without a leaf, and with one edge at most.
fn lone(prefix: &[u8], edges: &Edges, cells: &mut Cells) -> Result<Option<NodeRef>, AllocError>
    requires few { length (edges_of edges.now) ≤ 1 }
    requires left { cells.old.next < 2 ^ 63 }

    ensures plain { IfOk result (λ n. option_map node_of n
        ≡ settled_node prefix.now None (nodes_in (edges_of edges.now))) }

    ensures cells { IfOk result (λ n. (front : Bytes) → Steps
        (inside_of None (cells_in (cell_edges edges.now))) cells.old
        (node_pieces (cells_in (ref_list front n))) cells.new) }
    ensures stays { IfOk result (λ n. AllIn (below_pieces None (cells_in (cell_edges edges.now)))
        (inner_pieces (cells_in (ref_list [] n)))) }
    ensures few { OnOk result (cells.new.next ≤ cells.old.next + 1) }
    ensures onward { OnOk result (IsOnward cells.old cells.new) }
{
    match edges.get(0) {
        None => {
            // Brings what holds of the cells into the proof: `first` is at most the next id.
            let _ = &cells.first;
            Ok(None)
        }
        Some(edge) => Ok(Some(merge_child(prefix, edge, cells)?)),
    }
}

/// A node of these parts.
fn kept(
    prefix: &[u8],
    leaf: Option<Arc<Leaf, Global>>,
    edges: Edges,
    cells: &mut Cells,
) -> Result<NodeRef, AllocError>
    requires left { cells.old.next < 2 ^ 63 }
    ensures plain { IfOk result (λ r. node_of r ≡ record {
      prefix = prefix.now;
      leaf = option_map leaf_pair leaf;
      under = nodes_in (edges_of edges);
    }) }
    ensures cells { IfOk result (λ r. (front : Bytes) → Steps
        (inside_of (option_map arc_value leaf) (cells_in (cell_edges edges))) cells.old
        (node_pieces (cells_in (led front (cell_ref r) ∷ []))) cells.new) }
    ensures stays { IfOk result (λ r. inside (cell_ref r)
        ≡ inside_of (option_map arc_value leaf) (cells_in (cell_edges edges))) }
    ensures few { OnOk result (cells.new.next ≡ cells.old.next + 1) }
    ensures onward { OnOk result (IsOnward cells.old cells.new) }
{
    made::of(prefix, leaf, edges, cells)
}

/// The node at an edge with a prefix and the edge's label before its own prefix: what a node of
/// that prefix becomes where this edge is all that it has.
fn merge_child(prefix: &[u8], edge: &Edge, cells: &mut Cells) -> Result<NodeRef, AllocError>
    requires left { cells.old.next < 2 ^ 63 }
    ensures plain { let m = edge_node edge.now in IfOk result
        (λ r. node_of r
        ≡ record { prefix = prefix.now ++ m.prefix; leaf = m.leaf; under = m.under }) }
    ensures cells { IfOk result (λ r. (front : Bytes) → Steps
        (whole (led_node edge.now)) cells.old
        (node_pieces (cells_in (led front (cell_ref r) ∷ []))) cells.new) }
    ensures stays { IfOk result (λ r. inside (cell_ref r) ≡ inside (led_node edge.now)) }
    ensures few { OnOk result (cells.new.next ≡ cells.old.next + 1) }
    ensures onward { OnOk result (IsOnward cells.old cells.new) }
{
    let child = edge.node();
    let alloc = child.edges().allocator();
    let joined = joined(alloc, prefix, edge.label(), child.prefix())?;
    made::with_prefix(child, &joined, cells)
}

/// A prefix, a label and the prefix behind it.
fn joined(alloc: Global, prefix: &[u8], label: u8, rest: &[u8]) -> Result<Vec<u8>, AllocError>
    ensures { IfOk result (λ p. p.items ≡ prefix.now ++ label ∷ rest.now) }
{
    let mut joined = Vec::with_capacity(alloc, prefix.len() + 1 + rest.len())?;
    joined.extend_from_slice(prefix)?;
    joined.push(label)?;
    joined.extend_from_slice(rest)?;
    Ok(joined)
}
