//! The insert of a key, in place where a node is the write's own.
ghost use Rattle.std.specs.Prelude.{◌≡◌, ◌∷◌, ◌+◌, ◌<◌, ◌≤◌, ◌^◌, [], None, Err, IfOk, OnErr, length};
ghost use Rattle.radix_node.specs.CellNode.{cell_node, cell_ref};
ghost use Rattle.radix_node.specs.Edges.{place_of};
ghost use Rattle.radix_node.specs.Node.{rest_past};
ghost use Rattle.radix_node.specs.Siblings.{bare, cells_list, nodes_list};
ghost use Rattle.radix_txn.specs.inner.Below.{IsShapedBelow};
ghost use Rattle.radix_txn.specs.inner.Put.{IsPut, IsPutAt, IsPutUnder};

use super::{Inserted, insert, insert_apart, leaf_edge};
use crate::cells::Cells;
use crate::made;
use mdb_datum::Row;
use radix_node::{Node, NodeRef};
use std::alloc::AllocError;

/// Puts a row under a key, where `rest` is what the key has after the node's path, and gives the
/// old row. A node that isn't the write's own is copied, and so are those under it on the path.
#[cycle(put)]
pub fn put_at(
    slot: &mut NodeRef,
    rest: &[u8],
    key: &[u8],
    row: &Row,
    cells: &mut Cells,
) -> Result<Option<Row>, AllocError>
    requires shape { let n = bare (cell_ref slot.old) in IsShapedBelow n.under }
    requires left { cells.old.next + length rest.now + 3 ≤ 2 ^ 63 }
    ensures put { IfOk result (λ r. IsPut (key.now, row.now) rest.now
        (cell_ref slot.old) (cell_ref slot.new) r cells.old cells.new) }
    ensures unchanged { OnErr result (cell_ref slot.new ≡ cell_ref slot.old) }
{
    if cells.owns(slot.node()) {
        if let Some(node) = slot.get_mut() {
            return put_in(node, rest, key, row, cells);
        }
    }
    put_copy(slot, rest, key, row, cells)
}

/// The same by a copy.
fn put_copy(
    slot: &mut NodeRef,
    rest: &[u8],
    key: &[u8],
    row: &Row,
    cells: &mut Cells,
) -> Result<Option<Row>, AllocError>
    requires shape { let n = bare (cell_ref slot.old) in IsShapedBelow n.under }
    requires left { cells.old.next + length rest.now + 3 ≤ 2 ^ 63 }
    ensures put { IfOk result (λ r. IsPut (key.now, row.now) rest.now
        (cell_ref slot.old) (cell_ref slot.new) r cells.old cells.new) }
    ensures unchanged { OnErr result (cell_ref slot.new ≡ cell_ref slot.old) }
{
    let leaf = made::new_leaf(slot.node(), key, row, cells)?;
    let Inserted { node, old } = insert(slot.node(), rest, leaf, cells)?;
    *slot = node;
    Ok(old)
}

/// The same at a node of the write's own, which keeps its cell.
#[cycle(put)]
fn put_in(
    node: &mut Node,
    rest: &[u8],
    key: &[u8],
    row: &Row,
    cells: &mut Cells,
) -> Result<Option<Row>, AllocError>
    requires shape { let n = bare (cell_node node.old) in IsShapedBelow n.under }
    requires left { cells.old.next + length rest.now + 3 ≤ 2 ^ 63 }
    requires own { let n = cell_node node.old in cells.old.first ≤ n.cell.id }
    ensures put { IfOk result (λ r. IsPut (key.now, row.now) rest.now
        (cell_node node.old) (cell_node node.new) r cells.old cells.new) }
    ensures unchanged { OnErr result (cell_node node.new ≡ cell_node node.old) }
{
    let Some((first, after)) = rest.split_first() else {
        return put_here(node, key, row, cells);
    };
    match node.edges().find(*first) {
        Err(at) => put_gap(node, at, *first, after, key, row, cells),
        Ok(at) => put_edge(node, at, after, key, row, cells),
    }
}

/// The same at the edge at a place, where `rest` is what the key has after the label.
#[cycle(put)]
fn put_edge(
    node: &mut Node,
    at: usize,
    rest: &[u8],
    key: &[u8],
    row: &Row,
    cells: &mut Cells,
) -> Result<Option<Row>, AllocError>
    requires shape { let n = bare (cell_node node.old) in IsShapedBelow n.under }
    requires in_range { let n = cell_node node.old in at < length (cells_list n.under) }
    requires left { cells.old.next + length rest.now + 3 ≤ 2 ^ 63 }
    ensures put { IfOk result (λ r. IsPutAt (key.now, row.now) at rest.now
        (cell_node node.old) (cell_node node.new) r cells.old cells.new) }
    ensures unchanged { OnErr result (cell_node node.new ≡ cell_node node.old) }
{
    let edge = node.edges_mut().edge_mut(at);
    put_under(edge.node_mut(), rest, key, row, cells)
}

/// The same, where `rest` is what the key has after the path to the node's prefix.
#[cycle(put)]
fn put_under(
    slot: &mut NodeRef,
    rest: &[u8],
    key: &[u8],
    row: &Row,
    cells: &mut Cells,
) -> Result<Option<Row>, AllocError>
    requires shape { let n = bare (cell_ref slot.old) in IsShapedBelow n.under }
    requires left { cells.old.next + length rest.now + 3 ≤ 2 ^ 63 }
    ensures put { IfOk result (λ r. IsPutUnder (key.now, row.now) rest.now
        (cell_ref slot.old) (cell_ref slot.new) r cells.old cells.new) }
    ensures unchanged { OnErr result (cell_ref slot.new ≡ cell_ref slot.old) }
{
    let Some(left) = slot.node().strip_prefix(rest) else {
        return put_apart(slot, rest, key, row, cells);
    };
    put_at(slot, left, key, row, cells)
}

/// The same, where the rest of the key doesn't begin with the node's prefix: the node is split.
fn put_apart(
    slot: &mut NodeRef,
    rest: &[u8],
    key: &[u8],
    row: &Row,
    cells: &mut Cells,
) -> Result<Option<Row>, AllocError>
    requires apart { let n = bare (cell_ref slot.old) in None ≡ rest_past n.prefix rest.now }
    requires left { cells.old.next + length rest.now + 3 ≤ 2 ^ 63 }
    ensures put { IfOk result (λ r. IsPutUnder (key.now, row.now) rest.now
        (cell_ref slot.old) (cell_ref slot.new) r cells.old cells.new) }
    ensures unchanged { OnErr result (cell_ref slot.new ≡ cell_ref slot.old) }
{
    let leaf = made::new_leaf(slot.node(), key, row, cells)?;
    let Inserted { node, old } = insert_apart(slot.node(), rest, leaf, cells)?;
    *slot = node;
    Ok(old)
}

/// The same at a node of the write's own where the key ends. A leaf of its own gets the row.
fn put_here(
    node: &mut Node,
    key: &[u8],
    row: &Row,
    cells: &mut Cells,
) -> Result<Option<Row>, AllocError>
    requires left { cells.old.next + 3 ≤ 2 ^ 63 }
    requires own { let n = cell_node node.old in cells.old.first ≤ n.cell.id }
    ensures put { IfOk result (λ r. IsPut (key.now, row.now) []
        (cell_node node.old) (cell_node node.new) r cells.old cells.new) }
    ensures unchanged { OnErr result (cell_node node.new ≡ cell_node node.old) }
{
    if let Some(old) = node.set_row(cells.mark, key, row)? {
        return Ok(Some(old));
    }
    put_leaf(node, key, row, cells)
}

/// The same with a new leaf.
fn put_leaf(
    node: &mut Node,
    key: &[u8],
    row: &Row,
    cells: &mut Cells,
) -> Result<Option<Row>, AllocError>
    requires left { cells.old.next + 3 ≤ 2 ^ 63 }
    requires own { let n = cell_node node.old in cells.old.first ≤ n.cell.id }
    ensures put { IfOk result (λ r. IsPut (key.now, row.now) []
        (cell_node node.old) (cell_node node.new) r cells.old cells.new) }
    ensures unchanged { OnErr result (cell_node node.new ≡ cell_node node.old) }
{
    let leaf = made::new_leaf(node, key, row, cells)?;
    let old = node.share_row()?;
    cells.leave_leaf(node)?;
    node.set_leaf(Some(leaf));
    Ok(old)
}

/// The same at a node of the write's own that has no edge of the byte `label`, where `at` is the
/// place for one.
fn put_gap(
    node: &mut Node,
    at: usize,
    label: u8,
    prefix: &[u8],
    key: &[u8],
    row: &Row,
    cells: &mut Cells,
) -> Result<Option<Row>, AllocError>
    requires gap { let n = bare (cell_node node.old) in
        Err at ≡ place_of label (nodes_list n.under) }
    requires left { cells.old.next + 3 ≤ 2 ^ 63 }
    requires own { let n = cell_node node.old in cells.old.first ≤ n.cell.id }
    ensures put { IfOk result (λ r. IsPut (key.now, row.now) (label ∷ prefix.now)
        (cell_node node.old) (cell_node node.new) r cells.old cells.new) }
    ensures unchanged { OnErr result (cell_node node.new ≡ cell_node node.old) }
{
    let leaf = made::new_leaf(node, key, row, cells)?;
    let edge = leaf_edge(node.edges().allocator(), label, prefix, leaf, cells)?;
    node.edges_mut().insert(at, edge)?;
    Ok(None)
}
