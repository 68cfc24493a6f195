//! Both deletes are one walk down: to the end of a key, or to the node that a prefix leads to.
mod owned;

ghost use Rattle.std.specs.Prelude.{◌≡◌, ◌<◌, ◌≤◌, ◌+◌, ◌++◌, ◌^◌, [], List, None, Some, true};
ghost use Rattle.std.specs.Prelude.{false, IfOk, IfSome, IfNone, OnErr, OnOk, length, take, drop};
ghost use Rattle.std.specs.Prelude.{option_to_list, IsNone, IsSome, IsSomeAnd};
ghost use Rattle.std.specs.List.{slice_get};
ghost use Rattle.mdb_datum.specs.Bytes.{Bytes};
ghost use Rattle.radix_node.specs.CellNode.{cell_node, cell_ref, led_node};
ghost use Rattle.radix_node.specs.Cells.{AreBelow, CellNode, cells_in, pieces_of, plain_of};
ghost use Rattle.radix_node.specs.Cells.{root_of};
ghost use Rattle.radix_node.specs.Node.{below, below_prefix, edge_node, nodes_in, plain_edge};
ghost use Rattle.radix_node.specs.Node.{plain_node};
ghost use Rattle.radix_node.specs.Nodes.{pairs_of};
ghost use Rattle.radix_node.specs.Shape.{HasShape};
ghost use Rattle.radix_node.specs.Siblings.{bare, cells_list, nodes_list};
ghost use Rattle.radix_txn.specs.inner.Below.{IsShapedBelow, settled_node};
ghost use Rattle.radix_txn.specs.inner.Gone.{HasNone, IsCut, IsLeft};
ghost use Rattle.radix_txn.specs.inner.Outside.{AllIn, inner_pieces, outside_node};
ghost use Rattle.radix_txn.specs.inner.Pieces.{led, whole};
ghost use Rattle.radix_txn.specs.inner.Removal.{IsAbsent, IsMissing, IsRemoval, IsTaken, IsThere};
ghost use Rattle.radix_txn.specs.inner.Removal.{LosesPairs, covers};
ghost use Rattle.radix_txn.specs.inner.Remains.{own_leaf, own_nodes, pieces_left, remains_of};
ghost use Rattle.radix_txn.specs.inner.Remains.{stays_left};
ghost use Rattle.radix_txn.specs.inner.Steps.{IsOnward, Ledger, Steps};
ghost use Rattle.radix_txn.specs.declared.target.Target.TheVariants.{Key, Prefix};

use crate::cells::Cells;
use crate::remains::Remains;
use crate::target::Target;
use mdb_datum::Row;
use owned::{Gone, take_at};
use radix_node::{Edge, Leaf, Node, NodeRef, Tree};
use std::alloc::AllocError;

/// A tree after a delete, and what went, if there was such a key, or why the tree is as it was.
#[derive(Drop)]
pub struct Taken {
    pub tree: Tree,
    pub deleted: Result<Option<Deleted>, AllocError>,
}

/// The row of the key, where one key was to go, and how many keys went.
#[derive(Drop)]
pub struct Deleted {
    pub row: Option<Row>,
    pub count: u64,
}

/// The tree without the keys of a target. It is changed in place as far as its nodes are the
/// write's own and have no other owner. Only where there is such a key, it can want for memory.
pub fn take(tree: Tree, key: &[u8], target: Target, cells: &mut Cells) -> Taken
    requires left { cells.old.next + length key.now + 1 ≤ 2 ^ 63 }
    requires below { AreBelow cells.old.next tree }

    ensures taken { IfOk result.deleted (λ o. IfSome o (λ d. IsTaken target key.now
        (pairs_of (plain_of tree)) (pairs_of (plain_of result.tree)) d.row d.count)) }
    ensures absent { IfOk result.deleted
        (λ o. IfNone o (IsAbsent target key.now (pairs_of (plain_of tree)))) }

    ensures cells { IfOk result.deleted (λ o. IfSome o
        (λ d. Steps (pieces_of tree) cells.old (pieces_of result.tree) cells.new)) }
    ensures low { IfOk result.deleted
        (λ o. IfSome o (λ d. cells.old.first ≤ result.tree.cell.id)) }
    ensures stays { IfOk result.deleted (λ o. IfSome o (λ d. AllIn
        (outside_node target key.now (root_of tree)) (pieces_of result.tree))) }
    ensures shapes { IfOk result.deleted (λ o. IfSome o
        (λ d. HasShape (plain_of tree) × HasShape (plain_of result.tree))) }
    ensures few { IfOk result.deleted (λ o. IfSome o
        (λ d. cells.new.next ≤ cells.old.next + length key.now + 1)) }
    ensures onward { IfOk result.deleted (λ o. IfSome o (λ d. IsOnward cells.old cells.new)) }
    ensures still { IfOk result.deleted
        (λ o. IfNone o ((result.tree ≡ tree) × (cells.new ≡ cells.old))) }

    ensures unchanged { OnErr result.deleted (result.tree ≡ tree) }
    ensures there { OnErr result.deleted (IsThere target key.now (pairs_of (plain_of tree))) }
{
    let len = tree.len();
    let mut root = tree.into_root();
    match take_root(&mut root, key, target, cells) {
        Ok(Some(deleted)) => Taken {
            tree: Tree::of_root(root, len - deleted.count),
            deleted: Ok(Some(deleted)),
        },
        Ok(None) => Taken {
            tree: Tree::of_root(root, len),
            deleted: Ok(None),
        },
        Err(e) => Taken {
            tree: Tree::of_root(root, len),
            deleted: Err(e),
        },
    }
}

/// Takes out the keys of a target at the root.
fn take_root(
    root: &mut NodeRef,
    key: &[u8],
    target: Target,
    cells: &mut Cells,
) -> Result<Option<Deleted>, AllocError>
    requires shape { let n = bare (cell_ref root.old) in IsShapedBelow n.under }
    requires rooted { let n = cell_ref root.old in n.prefix ≡ [] }
    requires few { let n = bare (cell_ref root.old) in length (pairs_of (below n)) < 2 ^ 64 }
    requires left { cells.old.next + length key.now + 1 ≤ 2 ^ 63 }
    ensures cut { IfOk result (λ o. IfSome o (λ d. IsCut target key.now
        (cell_ref root.old) (cell_ref root.new) d.row d.count cells.old cells.new)) }
    ensures missing { IfOk result (λ o. IfNone o (HasNone target key.now
        (cell_ref root.old) (cell_ref root.new) cells.old cells.new)) }
    ensures unchanged { OnErr result (cell_ref root.new ≡ cell_ref root.old) }
    ensures there { let n = bare (cell_ref root.old) in
        OnErr result (LosesPairs target key.now (below n)) }
{
    match take_at(root, key, target, cells)? {
        Gone::Missing => Ok(None),
        Gone::Under(deleted) => Ok(Some(deleted)),
        Gone::Left(removed) => Ok(Some(new_root(root, removed, cells)?)),
    }
}

/// Puts what the root is left with in its place.
fn new_root(root: &mut NodeRef, removed: Removed, cells: &mut Cells) -> Result<Deleted, AllocError>
    requires rooted { let n = cell_ref root.old in n.prefix ≡ [] }
    requires left { cells.old.next < 2 ^ 63 }
    ensures cut { (target : Target) (key : Bytes) (n : CellNode) (old : Ledger)
        → IsLeft target key n (cell_ref root.old) removed old cells.old
        → IfOk result (λ d. IsCut target key n (cell_ref root.new) d.row d.count old cells.new) }
    ensures unchanged { OnErr result (cell_ref root.new ≡ cell_ref root.old) }
{
    let Removed {
        remains,
        row,
        count,
    } = removed;
    *root = remains.root(cells)?;
    Ok(Deleted { row, count })
}

/// What a node is left with, the row of the key, where one key was to go, and how many leaves went.
#[derive(Drop)]
pub struct Removed {
    remains: Remains,
    row: Option<Row>,
    count: u64,
}

/// The node without the leaf at the end of the rest of a key, where `rest` is what the key has
/// after the node's path, or without the leaves whose keys go on with it; none where there is no
/// such leaf. Nothing is copied before one is found, so only then can it want for memory.
fn remove(
    node: &Node,
    rest: &[u8],
    target: Target,
    cells: &mut Cells,
) -> Result<Option<Removed>, AllocError>
    requires shape { let n = plain_node node.now in IsShapedBelow n.under }
    requires few { length (pairs_of (below_prefix node.now)) < 2 ^ 64 }
    requires left { cells.old.next + length rest.now ≤ 2 ^ 63 }

    ensures removed { IfOk result (λ o. IfSome o
        (λ r. IsRemoval target rest.now (below_prefix node.now)
        (remains_of r.remains) r.row r.count)) }
    ensures missing { IfOk result
        (λ o. IfNone o (IsMissing target rest.now (below_prefix node.now))) }

    ensures cells { IfOk result (λ o. IfSome o (λ r. (front : Bytes) → Steps
        (whole (led front (cell_node node.now))) cells.old (pieces_left r.remains) cells.new)) }
    ensures stays { IfOk result (λ o. IfSome o (λ r. AllIn
        (outside_node target rest.now (cell_node node.now)) (stays_left r.remains))) }
    ensures still { IfOk result (λ o. IfNone o (cells.new ≡ cells.old)) }
    ensures drawn { OnOk result (cells.new.next ≤ cells.old.next + length rest.now) }
    ensures onward { OnOk result (IsOnward cells.old cells.new) }

    ensures there { OnErr result (LosesPairs target rest.now (below_prefix node.now)) }
{
    let Some((first, after)) = rest.split_first() else {
        return remove_here(node, target, cells);
    };
    let Ok((at, edge)) = node.edges().find_edge(*first) else {
        return Ok(None);
    };
    let child = edge.node();
    match child.strip_prefix(after) {
        None => remove_apart(node, at, edge, after, target, cells),
        Some(left) => {
            let below = remove(child, left, target, cells)?;
            above_all(node, at, edge, below, cells)
        }
    }
}

/// The node without the edge at a place, where the target takes all under it, though the rest of
/// its key doesn't begin with the prefix there; else none.
fn remove_apart(
    node: &Node,
    at: usize,
    edge: &Edge,
    rest: &[u8],
    target: Target,
    cells: &mut Cells,
) -> Result<Option<Removed>, AllocError>
    requires in_range { let n = plain_node node.now in at < length (nodes_list n.under) }
    requires there { let n = cell_node node.now in
        slice_get (cells_list n.under) at ≡ Some (led_node edge.now) }
    requires few { length (pairs_of (below (edge_node edge.now))) < 2 ^ 64 }

    ensures removed { let n = plain_node node.now in let es = nodes_list n.under in
        let m = cell_node node.now in let cs = cells_list m.under in
        let e = plain_edge edge.now in IfOk result (λ o. IfSome o (λ r.
        (covers target e.node.prefix rest.now ≡ true) × (r.row ≡ None)
        × (r.count ≡ length (pairs_of (below (edge_node edge.now))))
        × (remains_of r.remains
        ≡ record { leaf = n.leaf; nodes = nodes_in (take at es ++ drop (at + 1) es) })
        × (own_leaf r.remains ≡ m.leaf)
        × (own_nodes r.remains ≡ cells_in (take at cs ++ drop (at + 1) cs)))) }
    ensures missing { let e = plain_edge edge.now in
        IfOk result (λ o. IfNone o (covers target e.node.prefix rest.now ≡ false)) }
    ensures cells { IfOk result (λ o. IfSome o (λ r. (front : Bytes) → Steps
        (whole (led front (cell_node node.now))) cells.old (pieces_left r.remains) cells.new)) }
    ensures still { IfOk result (λ o. IfNone o (cells.new ≡ cells.old)) }
    ensures drawn { OnOk result (cells.new.next ≡ cells.old.next) }
    ensures onward { OnOk result (IsOnward cells.old cells.new) }
    ensures there { let e = plain_edge edge.now in
        OnErr result (covers target e.node.prefix rest.now ≡ true) }
{
    if !target.covers(edge.node().prefix(), rest) {
        return Ok(None);
    }
    Ok(Some(without_child(node, at, edge, cells)?))
}

/// The node where that at the edge at a place is left with `below`, if it loses anything.
fn above_all(
    node: &Node,
    at: usize,
    edge: &Edge,
    below: Option<Removed>,
    cells: &mut Cells,
) -> Result<Option<Removed>, AllocError>
    requires in_range { let n = plain_node node.now in at < length (nodes_list n.under) }
    requires left { cells.old.next < 2 ^ 63 }

    ensures removed { let n = plain_node node.now in let es = nodes_list n.under in
        let m = edge_node edge.now in IfOk result (λ o. IfSome o (λ r. IsSomeAnd below (λ b.
        let left = remains_of b.remains in
        let child = settled_node m.prefix left.leaf left.nodes in
        (r.row ≡ b.row) × (r.count ≡ b.count) × (remains_of r.remains ≡ record {
          leaf = n.leaf;
          nodes = nodes_in (take at es ++ (option_to_list child ++ drop (at + 1) es));
        })))) }
    ensures cells { let n = cell_node node.now in let es = cells_list n.under in
        IfOk result (λ o. IfSome o (λ r. IsSomeAnd below (λ b.
        ((front : Bytes) (k : CellNode) (old : Ledger)
        → slice_get es at ≡ Some k → IsOnward old cells.old
        → Steps (whole k) old (pieces_left b.remains) cells.old
        → Steps (whole (led front n)) old (pieces_left r.remains) cells.new)
        × (own_leaf r.remains ≡ n.leaf) × (ns : List CellNode)
        × (own_nodes r.remains ≡ cells_in (take at es ++ (ns ++ drop (at + 1) es)))
        × AllIn (stays_left b.remains) (inner_pieces (cells_in ns))))) }
    ensures missing { IfOk result (λ o. IfNone o (IsNone below)) }
    ensures still { IfOk result (λ o. IfNone o (cells.new ≡ cells.old)) }
    ensures drawn { OnOk result (cells.new.next ≤ cells.old.next + 1) }
    ensures onward { OnOk result (IsOnward cells.old cells.new) }
    ensures there { OnErr result (IsSome below) }
{
    match below {
        None => Ok(None),
        Some(below) => Ok(Some(above(node, at, edge, below, cells)?)),
    }
}

/// The node without the edge at a place, with all under it.
fn without_child(
    node: &Node,
    at: usize,
    edge: &Edge,
    cells: &mut Cells,
) -> Result<Removed, AllocError>
    requires in_range { let n = plain_node node.now in at < length (nodes_list n.under) }
    requires there { let n = cell_node node.now in
        slice_get (cells_list n.under) at ≡ Some (led_node edge.now) }
    requires few { length (pairs_of (below (edge_node edge.now))) < 2 ^ 64 }

    ensures plain { let n = plain_node node.now in let es = nodes_list n.under in
        IfOk result (λ r. remains_of r.remains
        ≡ record { leaf = n.leaf; nodes = nodes_in (take at es ++ drop (at + 1) es) }) }
    ensures gone { IfOk result
        (λ r. (r.row ≡ None) × (r.count ≡ length (pairs_of (below (edge_node edge.now))))) }

    ensures cells { IfOk result (λ r. (front : Bytes) → Steps
        (whole (led front (cell_node node.now))) cells.old (pieces_left r.remains) cells.new) }
    ensures leaf { let n = cell_node node.now in IfOk result (λ r. own_leaf r.remains ≡ n.leaf) }
    ensures nodes { let n = cell_node node.now in let es = cells_list n.under in
        IfOk result (λ r. own_nodes r.remains ≡ cells_in (take at es ++ drop (at + 1) es)) }
    ensures drawn { OnOk result (cells.new.next ≡ cells.old.next) }
    ensures onward { OnOk result (IsOnward cells.old cells.new) }
{
    let count = cells.leave_all(edge.node())?;
    cells.leave(node.cell())?;
    Ok(Removed {
        remains: Remains::without_edge(node, at)?,
        row: None,
        count,
    })
}

/// The node where that at the edge at a place is left with `below`.
fn above(
    node: &Node,
    at: usize,
    edge: &Edge,
    below: Removed,
    cells: &mut Cells,
) -> Result<Removed, AllocError>
    requires in_range { let n = plain_node node.now in at < length (nodes_list n.under) }
    requires left { cells.old.next < 2 ^ 63 }

    ensures plain { let n = plain_node node.now in let es = nodes_list n.under in
        let m = edge_node edge.now in let b = remains_of below.remains in
        let child = settled_node m.prefix b.leaf b.nodes in
        IfOk result (λ r. remains_of r.remains ≡ record {
          leaf = n.leaf;
          nodes = nodes_in (take at es ++ (option_to_list child ++ drop (at + 1) es));
        }) }
    ensures gone { IfOk result (λ r. (r.row ≡ below.row) × (r.count ≡ below.count)) }

    ensures cells { let n = cell_node node.now in
        IfOk result (λ r. (front : Bytes) (k : CellNode) (old : Ledger)
        → slice_get (cells_list n.under) at ≡ Some k → IsOnward old cells.old
        → Steps (whole k) old (pieces_left below.remains) cells.old
        → Steps (whole (led front n)) old (pieces_left r.remains) cells.new) }
    ensures leaf { let n = cell_node node.now in IfOk result (λ r. own_leaf r.remains ≡ n.leaf) }
    ensures nodes { let n = cell_node node.now in let es = cells_list n.under in
        IfOk result (λ r. (ns : List CellNode)
        × (own_nodes r.remains ≡ cells_in (take at es ++ (ns ++ drop (at + 1) es)))
        × AllIn (stays_left below.remains) (inner_pieces (cells_in ns))) }
    ensures drawn { OnOk result (cells.new.next ≤ cells.old.next + 1) }
    ensures onward { OnOk result (IsOnward cells.old cells.new) }
{
    let Removed {
        remains,
        row,
        count,
    } = below;
    let left = Remains::above(node, at, edge, remains, cells)?;
    cells.leave(node.cell())?;
    Ok(Removed {
        remains: left,
        row,
        count,
    })
}

/// The node without its own leaf, or without all at it and under it.
fn remove_here(
    node: &Node,
    target: Target,
    cells: &mut Cells,
) -> Result<Option<Removed>, AllocError>
    requires shape { let n = plain_node node.now in IsShapedBelow n.under }
    requires few { length (pairs_of (below_prefix node.now)) < 2 ^ 64 }

    ensures removed { IfOk result (λ o. IfSome o
        (λ r. IsRemoval target [] (below_prefix node.now) (remains_of r.remains) r.row r.count)) }
    ensures missing { IfOk result (λ o. IfNone o (IsMissing target [] (below_prefix node.now))) }

    ensures cells { IfOk result (λ o. IfSome o (λ r. (front : Bytes) → Steps
        (whole (led front (cell_node node.now))) cells.old (pieces_left r.remains) cells.new)) }
    ensures stays { IfOk result (λ o. IfSome o (λ r. AllIn
        (outside_node target [] (cell_node node.now)) (stays_left r.remains))) }
    ensures still { IfOk result (λ o. IfNone o (cells.new ≡ cells.old)) }
    ensures drawn { OnOk result (cells.new.next ≡ cells.old.next) }
    ensures onward { OnOk result (IsOnward cells.old cells.new) }

    ensures there { OnErr result (LosesPairs target [] (below_prefix node.now)) }
{
    match target {
        Target::Key => remove_leaf(node, cells),
        Target::Prefix => remove_all(node, cells),
    }
}

/// The node without its own leaf, if it has one.
fn remove_leaf(node: &Node, cells: &mut Cells) -> Result<Option<Removed>, AllocError>
    ensures removed { IfOk result (λ o. IfSome o
        (λ r. IsRemoval Key [] (below_prefix node.now) (remains_of r.remains) r.row r.count)) }
    ensures missing { IfOk result (λ o. IfNone o (IsMissing Key [] (below_prefix node.now))) }

    ensures cells { IfOk result (λ o. IfSome o (λ r. (front : Bytes) → Steps
        (whole (led front (cell_node node.now))) cells.old (pieces_left r.remains) cells.new)) }
    ensures stays { IfOk result (λ o. IfSome o (λ r. AllIn
        (outside_node Key [] (cell_node node.now)) (stays_left r.remains))) }
    ensures still { IfOk result (λ o. IfNone o (cells.new ≡ cells.old)) }
    ensures drawn { OnOk result (cells.new.next ≡ cells.old.next) }
    ensures onward { OnOk result (IsOnward cells.old cells.new) }

    ensures there { OnErr result (LosesPairs Key [] (below_prefix node.now)) }
{
    let Some(leaf) = node.leaf() else {
        return Ok(None);
    };
    Ok(Some(Removed {
        remains: leafless(node, leaf, cells)?,
        row: Some(leaf.row().share()?),
        count: 1,
    }))
}

/// What a node is left with without its leaf.
fn leafless(node: &Node, leaf: &Leaf, cells: &mut Cells) -> Result<Remains, AllocError>
    requires { let n = cell_node node.now in n.leaf ≡ Some leaf.now }
    ensures plain { let n = plain_node node.now in
        IfOk result (λ r. remains_of r ≡ record { leaf = None; nodes = n.under }) }

    ensures cells { IfOk result (λ r. (front : Bytes) → Steps
        (whole (led front (cell_node node.now))) cells.old (pieces_left r) cells.new) }
    ensures stays { IfOk result
        (λ r. AllIn (outside_node Key [] (cell_node node.now)) (stays_left r)) }
    ensures drawn { OnOk result (cells.new.next ≡ cells.old.next) }
    ensures onward { OnOk result (IsOnward cells.old cells.new) }
{
    cells.leave(leaf.cell())?;
    cells.leave(node.cell())?;
    Remains::without_leaf(node)
}

/// Nothing of the node, if there are leaves at it or under it.
fn remove_all(node: &Node, cells: &mut Cells) -> Result<Option<Removed>, AllocError>
    requires shape { let n = plain_node node.now in IsShapedBelow n.under }
    requires few { length (pairs_of (below_prefix node.now)) < 2 ^ 64 }

    ensures removed { IfOk result (λ o. IfSome o
        (λ r. IsRemoval Prefix [] (below_prefix node.now) (remains_of r.remains) r.row r.count)) }
    ensures missing { IfOk result (λ o. IfNone o (IsMissing Prefix [] (below_prefix node.now))) }

    ensures cells { IfOk result (λ o. IfSome o (λ r. (front : Bytes) → Steps
        (whole (led front (cell_node node.now))) cells.old (pieces_left r.remains) cells.new)) }
    ensures stays { IfOk result (λ o. IfSome o (λ r. AllIn
        (outside_node Prefix [] (cell_node node.now)) (stays_left r.remains))) }
    ensures still { IfOk result (λ o. IfNone o (cells.new ≡ cells.old)) }
    ensures drawn { OnOk result (cells.new.next ≡ cells.old.next) }
    ensures onward { OnOk result (IsOnward cells.old cells.new) }

    ensures there { OnErr result (LosesPairs Prefix [] (below_prefix node.now)) }
{
    if !has_leaves(node) {
        return Ok(None);
    }
    let count = cells.leave_all(node)?;
    Ok(Some(Removed {
        remains: Remains::nothing(node.edges().allocator()),
        row: None,
        count,
    }))
}

/// Whether there are leaves at a node or under it: each node under another one has some.
fn has_leaves(node: &Node) -> bool
    requires { let n = plain_node node.now in IsShapedBelow n.under }
    ensures some { result ≡ true → 0 < length (pairs_of (below_prefix node.now)) }
    ensures none { result ≡ false → length (pairs_of (below_prefix node.now)) ≡ 0 }
{
    match node.leaf() {
        Some(_) => true,
        None => node.edges().len() > 0,
    }
}
