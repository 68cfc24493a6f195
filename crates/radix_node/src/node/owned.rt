//! Changes of a node that has one owner.
ghost use Rattle.std.specs.Prelude.{◌≡◌, ◌≤◌, Some, IfOk, IfSome, IfNone, OnErr, option_map};
ghost use Rattle.std.specs.Arc.{arc_value};
ghost use Rattle.std.specs.Borrow.{sem};
ghost use Rattle.radix_node.specs.CellNode.{cell_edges, cell_node};
ghost use Rattle.radix_node.specs.Cells.{CellLeaf, cells_in};
ghost use Rattle.radix_node.specs.Lending.{LendsEdges};
ghost use Rattle.radix_node.specs.Node.{edges_of, leaf_pair, nodes_in, plain_node};

use crate::edges::Edges;
use crate::leaf::Leaf;
use crate::node::Node;
use mdb_datum::Row;
use std::alloc::{AllocError, Global};
use std::sync::Arc;

#[tactic(auto, using(crate::proofs::Levels::out_prefix, crate::proofs::Levels::out_leaf, crate::proofs::Levels::out_under, crate::proofs::Levels::node_roll, crate::proofs::CellLevels::cell_node_roll, crate::proofs::CellLevels::out_cell, crate::proofs::CellLevels::out_cell_leaf, crate::proofs::CellLevels::out_cell_under, crate::proofs::CellLevels::out_cell_prefix))]
impl Node {
    /// The edges, to be changed.
    pub fn edges_mut(&mut self) -> &mut Edges
        ensures* writes_back { sem 𝓛 (LendsEdges self.entry result) }
        ensures edges { let n = plain_node self.old in nodes_in (edges_of result.now) ≡ n.under }
        ensures cells { let n = cell_node self.old in cells_in (cell_edges result.now) ≡ n.under }
    {
        &mut self.edges
    }

    /// Puts a leaf in the place of the one that the node has, if it has one.
    pub fn set_leaf(&mut self, leaf: Option<Arc<Leaf, Global>>)
        ensures node { let n = plain_node self.old in plain_node self.new ≡ record {
          prefix = n.prefix;
          leaf = option_map leaf_pair leaf;
          under = n.under;
        } }
        ensures cells { let n = cell_node self.old in cell_node self.new ≡ record {
          cell = n.cell;
          prefix = n.prefix;
          leaf = option_map arc_value leaf;
          under = n.under;
        } }
    {
        self.leaf = leaf;
    }

    /// Puts a row in the place of the one of the node's leaf, and gives that, where the leaf has
    /// the key, an id from a number on, and one owner; else none, and then nothing is changed. It
    /// takes no memory. `AllocError` comes where the kit's `Arc` refuses one more owner of the row.
    pub fn set_row(&mut self, from: u64, key: &[u8], row: &Row) -> Result<Option<Row>, AllocError>
        ensures set { let n = cell_node self.old in IfOk result (λ o. IfSome o (λ old.
            (l : CellLeaf) × (n.leaf ≡ Some l) × (from ≤ l.cell.id) × (l.pair ≡ (key.now, old))
            × (cell_node self.new ≡ record {
              cell = n.cell;
              prefix = n.prefix;
              leaf = Some (record { cell = l.cell; pair = (key.now, row.now) });
              under = n.under;
            }))) }
        ensures still { IfOk result (λ o. IfNone o (cell_node self.new ≡ cell_node self.old)) }
        ensures unchanged { OnErr result (cell_node self.new ≡ cell_node self.old) }
    {
        match &mut self.leaf {
            None => Ok(None),
            Some(leaf) => set_own_row(leaf, from, key, row),
        }
    }
}

/// The same at a leaf.
fn set_own_row(
    leaf: &mut Arc<Leaf, Global>,
    from: u64,
    key: &[u8],
    row: &Row,
) -> Result<Option<Row>, AllocError>
    ensures set { let l = arc_value leaf.old in IfOk result (λ o. IfSome o (λ old.
        (from ≤ l.cell.id) × (l.pair ≡ (key.now, old))
        × (arc_value leaf.new ≡ record { cell = l.cell; pair = (key.now, row.now) }))) }
    ensures still { IfOk result (λ o. IfNone o (arc_value leaf.new ≡ arc_value leaf.old)) }
    ensures unchanged { OnErr result (arc_value leaf.new ≡ arc_value leaf.old) }
{
    if leaf.cell().id() < from || leaf.key() != key {
        return Ok(None);
    }
    let row = row.share()?;
    match Arc::get_mut(leaf) {
        None => Ok(None),
        Some(leaf) => Ok(Some(leaf.put_row(row))),
    }
}
