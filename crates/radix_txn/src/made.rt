//! The leaves and nodes that a write makes, each with a new cell. The cell of a node that is made
//! anew leaves.
ghost use Rattle.std.specs.Prelude.{◌≡◌, ◌≤◌, ◌<◌, ◌^◌, Some, IfOk, OnOk, option_map};
ghost use Rattle.std.specs.Arc.{arc_value};
ghost use Rattle.watch_word.specs.Logs.{Cell};
ghost use Rattle.radix_node.specs.CellNode.{cell_edges, cell_node, cell_ref};
ghost use Rattle.radix_node.specs.Cells.{cells_in};
ghost use Rattle.radix_node.specs.Node.{edges_of, leaf_pair, node_of, nodes_in, plain_node};
ghost use Rattle.radix_txn.specs.inner.Steps.{IsNextOf, one_drawn, one_left};

use crate::cells::Cells;
use mdb_datum::Row;
use radix_node::{Edges, Leaf, Node, NodeRef};
use std::alloc::{AllocError, Global};
use std::sync::Arc;

/// A leaf with a copy of the key, made by the allocator of a node.
pub fn new_leaf(
    node: &Node,
    key: &[u8],
    row: &Row,
    cells: &mut Cells,
) -> Result<Arc<Leaf, Global>, AllocError>
    requires left { cells.old.next < 2 ^ 63 }

    ensures leaf { IfOk result (λ l. (c : Cell) × IsNextOf cells.old c
        × (arc_value l ≡ record { cell = c; pair = (key.now, row.now) })) }
    ensures drawn { OnOk result (cells.new ≡ one_drawn cells.old) }
    ensures begun { cells.old.first ≤ cells.old.next }
{
    let alloc = node.edges().allocator();
    let cell = cells.draw(alloc)?;
    Leaf::of(alloc, key, row, cell)
}

/// A node of these parts.
pub fn of(
    prefix: &[u8],
    leaf: Option<Arc<Leaf, Global>>,
    edges: Edges,
    cells: &mut Cells,
) -> Result<NodeRef, AllocError>
    requires left { cells.old.next < 2 ^ 63 }

    ensures node { IfOk result (λ r. node_of r ≡ record {
      prefix = prefix.now;
      leaf = option_map leaf_pair leaf;
      under = nodes_in (edges_of edges);
    }) }
    ensures cells { IfOk result (λ r. (c : Cell) × IsNextOf cells.old c × (cell_ref r ≡ record {
      cell = c;
      prefix = prefix.now;
      leaf = option_map arc_value leaf;
      under = cells_in (cell_edges edges);
    })) }
    ensures drawn { OnOk result (cells.new ≡ one_drawn cells.old) }
    ensures begun { cells.old.first ≤ cells.old.next }
{
    let alloc = edges.allocator();
    let cell = cells.draw(alloc)?;
    Node::of(alloc, prefix, leaf, edges, cell)
}

/// The node with another prefix.
pub fn with_prefix(node: &Node, prefix: &[u8], cells: &mut Cells) -> Result<NodeRef, AllocError>
    requires left { cells.old.next < 2 ^ 63 }

    ensures node { let n = plain_node node.now in IfOk result (λ r. node_of r
        ≡ record { prefix = prefix.now; leaf = n.leaf; under = n.under }) }
    ensures cells { let n = cell_node node.now in
        IfOk result (λ r. (c : Cell) × IsNextOf cells.old c × (cell_ref r
        ≡ record { cell = c; prefix = prefix.now; leaf = n.leaf; under = n.under })) }
    ensures left { let n = cell_node node.now in
        OnOk result (cells.new ≡ one_left n.cell (one_drawn cells.old)) }
    ensures begun { cells.old.first ≤ cells.old.next }
{
    let cell = cells.draw(node.edges().allocator())?;
    let made = node.with_prefix(prefix, cell)?;
    cells.leave(node.cell())?;
    Ok(made)
}

/// The node with another leaf. The cell of the one that it has now doesn't leave by this.
pub fn with_leaf(
    node: &Node,
    leaf: Arc<Leaf, Global>,
    cells: &mut Cells,
) -> Result<NodeRef, AllocError>
    requires left { cells.old.next < 2 ^ 63 }

    ensures node { let n = plain_node node.now in IfOk result (λ r. node_of r
        ≡ record { prefix = n.prefix; leaf = Some (leaf_pair leaf); under = n.under }) }
    ensures cells { let n = cell_node node.now in
        IfOk result (λ r. (c : Cell) × IsNextOf cells.old c × (cell_ref r ≡ record {
          cell = c;
          prefix = n.prefix;
          leaf = Some (arc_value leaf);
          under = n.under;
        })) }
    ensures left { let n = cell_node node.now in
        OnOk result (cells.new ≡ one_left n.cell (one_drawn cells.old)) }
    ensures begun { cells.old.first ≤ cells.old.next }
{
    let cell = cells.draw(node.edges().allocator())?;
    let made = node.with_leaf(leaf, cell)?;
    cells.leave(node.cell())?;
    Ok(made)
}

/// The node with other edges.
pub fn with_edges(node: &Node, edges: Edges, cells: &mut Cells) -> Result<NodeRef, AllocError>
    requires left { cells.old.next < 2 ^ 63 }

    ensures node { let n = plain_node node.now in IfOk result (λ r. node_of r
        ≡ record { prefix = n.prefix; leaf = n.leaf; under = nodes_in (edges_of edges) }) }
    ensures cells { let n = cell_node node.now in
        IfOk result (λ r. (c : Cell) × IsNextOf cells.old c × (cell_ref r ≡ record {
          cell = c;
          prefix = n.prefix;
          leaf = n.leaf;
          under = cells_in (cell_edges edges);
        })) }
    ensures left { let n = cell_node node.now in
        OnOk result (cells.new ≡ one_left n.cell (one_drawn cells.old)) }
    ensures begun { cells.old.first ≤ cells.old.next }
{
    let cell = cells.draw(edges.allocator())?;
    let made = node.with_edges(edges, cell)?;
    cells.leave(node.cell())?;
    Ok(made)
}
