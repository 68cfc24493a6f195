//! Both deletes, in place where a node is the write's own and only nodes under it change.
ghost use Rattle.std.specs.Prelude.{◌≡◌, ◌+◌, ◌<◌, ◌≤◌, ◌^◌, Bool, IfOk, IfSome, OnErr, length};
ghost use Rattle.mdb_datum.specs.Bytes.{Bytes};
ghost use Rattle.radix_node.specs.CellNode.{cell_node, cell_ref};
ghost use Rattle.radix_node.specs.Node.{below};
ghost use Rattle.radix_node.specs.Nodes.{pairs_of};
ghost use Rattle.radix_node.specs.Siblings.{bare, cells_list};
ghost use Rattle.radix_txn.specs.declared.target.Target.{Target};
ghost use Rattle.radix_txn.specs.inner.Below.{IsShapedBelow};
ghost use Rattle.radix_txn.specs.inner.Gone.{IsGone, IsLeft, IsSettled, LeadsOn};
ghost use Rattle.radix_txn.specs.inner.Removal.{LosesPairs};
ghost use Rattle.radix_txn.specs.inner.Steps.{Ledger};

use super::{Deleted, Removed, remove};
use crate::cells::Cells;
use crate::remains::Remains;
use crate::target::Target;
use radix_node::{Node, NodeRef};
use std::alloc::AllocError;

/// What a delete does to the node in a place.
#[derive(Drop)]
pub enum Gone {
    /// There is no such key, and all is as it was.
    Missing,
    /// The node is changed under one of its edges, and this went.
    Under(Deleted),
    /// The node is as it was, and this is what is to stand in its place.
    Left(Removed),
}

/// Takes out the keys of a target, where `rest` is what the key has after the node's path. Where
/// the node isn't the write's own, it and those under it on the path are left to be made anew.
#[cycle(take)]
pub fn take_at(
    slot: &mut NodeRef,
    rest: &[u8],
    target: Target,
    cells: &mut Cells,
) -> Result<Gone, AllocError>
    requires shape { let n = bare (cell_ref slot.old) in IsShapedBelow n.under }
    requires few { let n = bare (cell_ref slot.old) in length (pairs_of (below n)) < 2 ^ 64 }
    requires left { cells.old.next + length rest.now ≤ 2 ^ 63 }
    ensures gone { IfOk result (λ g. IsGone target rest.now
        (cell_ref slot.old) (cell_ref slot.new) g cells.old cells.new) }
    ensures unchanged { OnErr result (cell_ref slot.new ≡ cell_ref slot.old) }
    ensures there { let n = bare (cell_ref slot.old) in
        OnErr result (LosesPairs target rest.now (below n)) }
{
    if cells.owns(slot.node()) {
        if let Some(node) = slot.get_mut() {
            return take_in(node, rest, target, cells);
        }
    }
    take_copy(slot.node(), rest, target, cells)
}

/// The same at a node of the write's own, which keeps its cell where only nodes under it change.
#[cycle(take)]
fn take_in(
    node: &mut Node,
    rest: &[u8],
    target: Target,
    cells: &mut Cells,
) -> Result<Gone, AllocError>
    requires shape { let n = bare (cell_node node.old) in IsShapedBelow n.under }
    requires few { let n = bare (cell_node node.old) in length (pairs_of (below n)) < 2 ^ 64 }
    requires left { cells.old.next + length rest.now ≤ 2 ^ 63 }
    requires own { let n = cell_node node.old in cells.old.first ≤ n.cell.id }
    ensures gone { IfOk result (λ g. IsGone target rest.now
        (cell_node node.old) (cell_node node.new) g cells.old cells.new) }
    ensures unchanged { OnErr result (cell_node node.new ≡ cell_node node.old) }
    ensures there { let n = bare (cell_node node.old) in
        OnErr result (LosesPairs target rest.now (below n)) }
{
    let Some((at, left)) = next_edge(node, rest) else {
        return take_copy(node, rest, target, cells);
    };
    let edge = node.edges_mut().edge_mut(at);
    match take_at(edge.node_mut(), left, target, cells)? {
        Gone::Missing => Ok(Gone::Missing),
        Gone::Under(deleted) => Ok(Gone::Under(deleted)),
        Gone::Left(below) => settle_edge(node, at, below, cells),
    }
}

/// The same, where what is left of the node is made anew and the node stays as it is.
///
/// It isn't inlined, and neither is [`settle_edge`]: the walk down takes the less stack a level.
#[inline(never)]
fn take_copy(
    node: &Node,
    rest: &[u8],
    target: Target,
    cells: &mut Cells,
) -> Result<Gone, AllocError>
    requires shape { let n = bare (cell_node node.now) in IsShapedBelow n.under }
    requires few { let n = bare (cell_node node.now) in length (pairs_of (below n)) < 2 ^ 64 }
    requires left { cells.old.next + length rest.now ≤ 2 ^ 63 }
    ensures gone { let n = cell_node node.now in
        IfOk result (λ g. IsGone target rest.now n n g cells.old cells.new) }
    ensures there { let n = bare (cell_node node.now) in
        OnErr result (LosesPairs target rest.now (below n)) }
{
    match remove(node, rest, target, cells)? {
        None => Ok(Gone::Missing),
        Some(removed) => Ok(Gone::Left(removed)),
    }
}

/// The place of the edge by which the walk goes on, and what the key has after the node there; none
/// where it ends at this node.
fn next_edge<'a>(node: &Node, rest: &'a [u8]) -> Option<(usize, &'a [u8])>
    requires shape { let n = bare (cell_node node.now) in IsShapedBelow n.under }
    ensures { IfSome result (λ r. LeadsOn r.0 r.1.now rest.now (cell_node node.now)) }
{
    let Some((first, after)) = rest.split_first() else {
        return None;
    };
    let Ok((at, edge)) = node.edges().find_edge(*first) else {
        return None;
    };
    let Some(left) = edge.node().strip_prefix(after) else {
        return None;
    };
    Some((at, left))
}

/// The node where that at the edge at a place is left with `below`: another node comes there, or the
/// node is to lose the edge.
#[inline(never)]
fn settle_edge(
    node: &mut Node,
    at: usize,
    below: Removed,
    cells: &mut Cells,
) -> Result<Gone, AllocError>
    requires in_range { let n = cell_node node.old in at < length (cells_list n.under) }
    requires left { cells.old.next < 2 ^ 63 }
    requires own { let n = cell_node node.old in cells.old.first ≤ n.cell.id }
    ensures gone { (target : Target) (left rest : Bytes) (old : Ledger)
        → (w : LeadsOn at left rest (cell_node node.old))
        → IsLeft target left w.child w.child below old cells.old
        → IfOk result (λ g. IsGone target rest
        (cell_node node.old) (cell_node node.new) g old cells.new) }
    ensures unchanged { OnErr result (cell_node node.new ≡ cell_node node.old) }
{
    let Removed {
        remains,
        row,
        count,
    } = below;
    let edge = node.edges_mut().edge_mut(at);
    if settle_node(edge.node_mut(), remains, cells)? {
        return Ok(Gone::Under(Deleted { row, count }));
    }
    cells.leave(node.cell())?;
    Ok(Gone::Left(Removed {
        remains: Remains::without_edge(node, at)?,
        row,
        count,
    }))
}

/// Puts what is left of a node in its place, and says whether that is a node. If it is none, the
/// place is as it was.
fn settle_node(slot: &mut NodeRef, remains: Remains, cells: &mut Cells) -> Result<bool, AllocError>
    requires left { cells.old.next < 2 ^ 63 }
    ensures settled { IfOk result (λ stands. IsSettled stands
        (cell_ref slot.old) (cell_ref slot.new) remains cells.old cells.new) }
    ensures unchanged { OnErr result (cell_ref slot.new ≡ cell_ref slot.old) }
{
    match remains.settled(slot.node().prefix(), cells)? {
        None => Ok(false),
        Some(node) => {
            *slot = node;
            Ok(true)
        }
    }
}
