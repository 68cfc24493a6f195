//! The insert of a key.
mod owned;

ghost use Rattle.std.specs.Prelude.{◌≡◌, ◌∷◌, [], ◌++◌, ◌<◌, ◌≤◌, ◌+◌, ◌^◌, None, Some, IfOk};
ghost use Rattle.std.specs.Prelude.{OnErr, OnOk};
ghost use Rattle.std.specs.Prelude.{if◌then◌else◌, is_some, length, take, drop};
ghost use Rattle.std.specs.Arc.{arc_value};
ghost use Rattle.mdb_datum.specs.Bytes.{Bytes};
ghost use Rattle.watch_word.specs.Logs.{Cell};
ghost use Rattle.radix_node.specs.CellNode.{cell_edges, cell_node, cell_put, cell_ref, led_node};
ghost use Rattle.radix_node.specs.Edges.{edge_put};
ghost use Rattle.radix_node.specs.Cells.{AreBelow, CellNode, a_leaf, cells_in, no_cells, pieces_of};
ghost use Rattle.radix_node.specs.Cells.{plain_of, root_of};
ghost use Rattle.radix_node.specs.Node.{PlainNode, below_prefix, edge_node, edges_of, leaf_pair};
ghost use Rattle.radix_node.specs.Node.{node_of, nodes_in, plain_node, rest_past};
ghost use Rattle.radix_node.specs.Nodes.{common, pairs_of, part};
ghost use Rattle.radix_node.specs.Pairs.{find, put};
ghost use Rattle.radix_node.specs.Shape.{HasShape};
ghost use Rattle.radix_node.specs.Seek.{found, seek, seek_plain};
ghost use Rattle.radix_node.specs.Siblings.{bare, cells_list, nodes_list};
ghost use Rattle.radix_txn.specs.declared.target.Target.TheVariants.{Key};
ghost use Rattle.radix_txn.specs.inner.Below.{IsShapedBelow, insert_below, leaf_node, over, row_in};
ghost use Rattle.radix_txn.specs.inner.Outside.{AllIn, outside, outside_node, staying};
ghost use Rattle.radix_txn.specs.inner.Pieces.{inside, led, whole};
ghost use Rattle.radix_txn.specs.inner.Put.{IsPut};
ghost use Rattle.radix_txn.specs.inner.PutAt.{grown_node};
ghost use Rattle.radix_txn.specs.inner.Steps.{IsNextOf, IsOnward, Steps, one_drawn, one_left};

use crate::cells::Cells;
use crate::made;
use mdb_datum::Row;
use owned::put_at;
use radix_node::{Edge, Edges, Leaf, Node, NodeRef, Tree};
use std::alloc::{AllocError, Global};
use std::sync::Arc;

/// A tree after a put, and the old row of the key, or why the tree is as it was.
#[derive(Drop)]
pub struct Put {
    pub tree: Tree,
    pub old: Result<Option<Row>, AllocError>,
}

/// The tree with a row under a key. It is changed in place as far as its nodes are the write's own
/// and have no other owner. Its keys are fewer than the ids that were drawn for its cells.
pub fn tree_with(tree: Tree, key: &[u8], row: &Row, cells: &mut Cells) -> Put
    requires left { cells.old.next + length key.now + 3 ≤ 2 ^ 63 }
    requires below { AreBelow cells.old.next tree }

    ensures pairs { OnOk result.old
        (pairs_of (plain_of result.tree) ≡ put key.now row.now (pairs_of (plain_of tree))) }
    ensures old { IfOk result.old (λ r. r ≡ find key.now (pairs_of (plain_of tree))) }

    ensures cells { OnOk result.old
        (Steps (pieces_of tree) cells.old (pieces_of result.tree) cells.new) }
    ensures low { OnOk result.old (cells.old.first ≤ result.tree.cell.id) }
    ensures stays { OnOk result.old (AllIn
        (outside_node Key key.now (root_of tree)) (pieces_of result.tree)) }
    ensures shapes { OnOk result.old
        (HasShape (plain_of tree) × HasShape (plain_of result.tree)) }
    ensures few { OnOk result.old (cells.new.next ≤ cells.old.next + length key.now + 3) }
    ensures onward { OnOk result.old (IsOnward cells.old cells.new) }

    ensures unchanged { OnErr result.old (result.tree ≡ tree) }
{
    let len = tree.len();
    let mut root = tree.into_root();
    match put_root(&mut root, len, key, row, cells) {
        Ok(placed) => Put {
            tree: Tree::of_root(root, placed.len),
            old: Ok(placed.old),
        },
        Err(e) => Put {
            tree: Tree::of_root(root, len),
            old: Err(e),
        },
    }
}

/// How many keys there are after a put, and the old row of its key.
#[derive(Drop)]
struct Placed {
    len: u64,
    old: Option<Row>,
}

/// Puts a row under a key at the root.
fn put_root(
    root: &mut NodeRef,
    len: u64,
    key: &[u8],
    row: &Row,
    cells: &mut Cells,
) -> Result<Placed, AllocError>
    requires shape { let n = bare (cell_ref root.old) in IsShapedBelow n.under }
    requires left { cells.old.next + length key.now + 3 ≤ 2 ^ 63 }
    requires few { len < cells.old.next }
    ensures put { IfOk result (λ p. IsPut (key.now, row.now) key.now
        (cell_ref root.old) (cell_ref root.new) p.old cells.old cells.new) }
    ensures len { IfOk result (λ p. p.len ≡ (if is_some p.old then len else len + 1)) }
    ensures unchanged { OnErr result (cell_ref root.new ≡ cell_ref root.old) }
{
    let old = put_at(root, key, key, row, cells)?;
    Ok(Placed {
        len: len_after(len, &old),
        old,
    })
}

/// How many keys there are after a put.
fn len_after(len: u64, old: &Option<Row>) -> u64
    requires { len < 2 ^ 63 }
    ensures { result ≡ (if is_some old.now then len else len + 1) }
{
    match old {
        None => len + 1,
        Some(_) => len,
    }
}

/// A node made anew on the path of an insert, and the old row of the key.
#[derive(Drop)]
struct Inserted {
    node: NodeRef,
    old: Option<Row>,
}

/// The node with a leaf at the end of the rest of its key, where `rest` is what the key has after
/// the node's path.
#[cycle(insert)]
fn insert(
    node: &Node,
    rest: &[u8],
    leaf: Arc<Leaf, Global>,
    cells: &mut Cells,
) -> Result<Inserted, AllocError>
    requires shape { let n = plain_node node.now in IsShapedBelow n.under }
    requires left { cells.old.next + length rest.now + 2 ≤ 2 ^ 63 }

    ensures node { IfOk result (λ r. node_of r.node
        ≡ over (plain_node node.now)
        (insert_below (leaf_pair leaf) rest.now (below_prefix node.now))) }
    ensures old { IfOk result
        (λ r. r.old ≡ row_in (seek_plain rest.now (below_prefix node.now))) }

    ensures cells { IfOk result (λ r. (front : Bytes) → Steps
        (a_leaf (arc_value leaf) ∷ whole (led front (cell_node node.now))) cells.old
        (whole (led front (cell_ref r.node))) cells.new) }
    ensures stays { IfOk result (λ r. AllIn
        (outside_node Key rest.now (cell_node node.now)) (inside (cell_ref r.node))) }
    ensures fresh { IfOk result (λ r. let n = cell_ref r.node in cells.old.next ≤ n.cell.id) }
    ensures few { OnOk result (cells.new.next ≤ cells.old.next + length rest.now + 2) }
    ensures onward { OnOk result (IsOnward cells.old cells.new) }
{
    let Some((first, after)) = rest.split_first() else {
        return replace_leaf(node, leaf, cells);
    };
    let (at, edge) = match node.edges().find_edge(*first) {
        Ok(found) => found,
        Err(at) => return add_edge(node, at, *first, after, leaf, cells),
    };
    let child = edge.node();
    let below = insert_under(child, after, leaf, cells)?;
    above(node, at, *first, below, cells)
}

/// What stands in the node's place at its edge with a leaf at the end of the rest of its key, where
/// `rest` is what the key has after the path that leads to the edge.
#[cycle(insert)]
fn insert_under(
    node: &Node,
    rest: &[u8],
    leaf: Arc<Leaf, Global>,
    cells: &mut Cells,
) -> Result<Inserted, AllocError>
    requires shape { let n = plain_node node.now in IsShapedBelow n.under }
    requires left { cells.old.next + length rest.now + 2 ≤ 2 ^ 63 }

    ensures node { IfOk result
        (λ r. node_of r.node ≡ grown_node (leaf_pair leaf) rest.now (plain_node node.now)) }
    ensures old { let n = plain_node node.now in let parts = part n.prefix rest.now in
        IfOk result
        (λ r. r.old ≡ row_in (found parts.1 parts.2 n.leaf (seek parts.2 n.under))) }

    ensures cells { IfOk result (λ r. (front : Bytes) → Steps
        (a_leaf (arc_value leaf) ∷ whole (led front (cell_node node.now))) cells.old
        (whole (led front (cell_ref r.node))) cells.new) }
    ensures stays { let n = cell_node node.now in let parts = part n.prefix rest.now in
        IfOk result (λ r. AllIn
        (staying Key parts.1 parts.2 n.leaf n.under (outside Key parts.2 n.under))
        (inside (cell_ref r.node))) }
    ensures few { OnOk result (cells.new.next ≤ cells.old.next + length rest.now + 2) }
    ensures onward { OnOk result (IsOnward cells.old cells.new) }
{
    let Some(left) = node.strip_prefix(rest) else {
        return insert_apart(node, rest, leaf, cells);
    };
    insert(node, left, leaf, cells)
}

/// What the node is split into, with the leaf, where the rest of its key doesn't begin with the
/// node's prefix.
fn insert_apart(
    node: &Node,
    rest: &[u8],
    leaf: Arc<Leaf, Global>,
    cells: &mut Cells,
) -> Result<Inserted, AllocError>
    requires apart { let n = plain_node node.now in None ≡ rest_past n.prefix rest.now }
    requires left { cells.old.next + length rest.now + 2 ≤ 2 ^ 63 }

    ensures node { IfOk result
        (λ r. node_of r.node ≡ grown_node (leaf_pair leaf) rest.now (plain_node node.now)) }
    ensures old { IfOk result (λ r. r.old ≡ None) }

    ensures cells { IfOk result (λ r. (front : Bytes) → Steps
        (a_leaf (arc_value leaf) ∷ whole (led front (cell_node node.now))) cells.old
        (whole (led front (cell_ref r.node))) cells.new) }
    ensures stays { IfOk result
        (λ r. AllIn (inside (cell_node node.now)) (inside (cell_ref r.node))) }
    ensures few { OnOk result (cells.new.next ≤ cells.old.next + length rest.now + 2) }
    ensures onward { OnOk result (IsOnward cells.old cells.new) }
{
    let shared = node.common_prefix_len(rest);
    let node = split(node, shared, rest, leaf, cells)?;
    Ok(Inserted { node, old: None })
}

/// The node with a node made anew at its edge at a place, which has this label.
fn above(
    node: &Node,
    at: usize,
    label: u8,
    below: Inserted,
    cells: &mut Cells,
) -> Result<Inserted, AllocError>
    requires in_range { let n = plain_node node.now in at < length (nodes_list n.under) }
    requires left { cells.old.next < 2 ^ 63 }

    ensures node { let n = plain_node node.now in let es = nodes_list n.under in
        let k = node_of below.node in
        let e : PlainNode = record { prefix = label ∷ k.prefix; leaf = k.leaf; under = k.under } in
        IfOk result (λ r. node_of r.node ≡ record {
          prefix = n.prefix;
          leaf = n.leaf;
          under = nodes_in (take at es ++ e ∷ drop (at + 1) es);
        }) }
    ensures old { IfOk result (λ r. r.old ≡ below.old) }

    ensures cells { let n = cell_node node.now in let es = cells_list n.under in
        IfOk result (λ r. (c : Cell) × IsNextOf cells.old c × (cell_ref r.node ≡ record {
          cell = c;
          prefix = n.prefix;
          leaf = n.leaf;
          under = cells_in (take at es
              ++ led (label ∷ []) (cell_ref below.node) ∷ drop (at + 1) es);
        })) }
    ensures left { let n = cell_node node.now in
        OnOk result (cells.new ≡ one_left n.cell (one_drawn cells.old)) }
{
    let Inserted { node: child, old } = below;
    let node = with_child(node, at, label, child, cells)?;
    Ok(Inserted { node, old })
}

/// The node with a leaf in place of its own, if it has one, and the old row.
fn replace_leaf(
    node: &Node,
    leaf: Arc<Leaf, Global>,
    cells: &mut Cells,
) -> Result<Inserted, AllocError>
    requires left { cells.old.next < 2 ^ 63 }

    ensures node { let n = plain_node node.now in IfOk result (λ r. node_of r.node
        ≡ record { prefix = n.prefix; leaf = Some (leaf_pair leaf); under = n.under }) }
    ensures old { let n = plain_node node.now in IfOk result (λ r. r.old ≡ row_in n.leaf) }

    ensures cells { IfOk result (λ r. (front : Bytes) → Steps
        (a_leaf (arc_value leaf) ∷ whole (led front (cell_node node.now))) cells.old
        (whole (led front (cell_ref r.node))) cells.new) }
    ensures stays { IfOk result (λ r. AllIn
        (outside_node Key [] (cell_node node.now)) (inside (cell_ref r.node))) }
    ensures fresh { IfOk result (λ r. let n = cell_ref r.node in cells.old.next ≤ n.cell.id) }
    ensures few { OnOk result (cells.new.next ≡ cells.old.next + 1) }
    ensures onward { OnOk result (IsOnward cells.old cells.new) }
{
    let old = node.share_row()?;
    cells.leave_leaf(node)?;
    let node = made::with_leaf(node, leaf, cells)?;
    Ok(Inserted { node, old })
}

/// The edge of a byte to a new node with a leaf and no edges.
fn leaf_edge(
    alloc: Global,
    label: u8,
    prefix: &[u8],
    leaf: Arc<Leaf, Global>,
    cells: &mut Cells,
) -> Result<Edge, AllocError>
    requires left { cells.old.next < 2 ^ 63 }

    ensures edge { IfOk result
        (λ e. edge_node e ≡ leaf_node (label ∷ prefix.now) (leaf_pair leaf)) }
    ensures cells { IfOk result (λ e. (c : Cell) × IsNextOf cells.old c × (led_node e ≡ record {
      cell = c;
      prefix = label ∷ prefix.now;
      leaf = Some (arc_value leaf);
      under = no_cells;
    })) }
    ensures drawn { OnOk result (cells.new ≡ one_drawn cells.old) }
    ensures begun { cells.old.first ≤ cells.old.next }
{
    let child = made::of(prefix, Some(leaf), Edges::new(alloc), cells)?;
    Ok(Edge::of(label, child))
}

/// The node with one edge more, to a new node with the leaf, where `at` is the place of its label.
fn add_edge(
    node: &Node,
    at: usize,
    label: u8,
    prefix: &[u8],
    leaf: Arc<Leaf, Global>,
    cells: &mut Cells,
) -> Result<Inserted, AllocError>
    requires in_range { let n = plain_node node.now in at ≤ length (nodes_list n.under) }
    requires left { cells.old.next + 2 ≤ 2 ^ 63 }

    ensures node { let n = plain_node node.now in let es = nodes_list n.under in
        IfOk result (λ r. node_of r.node ≡ record {
          prefix = n.prefix;
          leaf = n.leaf;
          under = nodes_in (take at es
              ++ leaf_node (label ∷ prefix.now) (leaf_pair leaf) ∷ drop at es);
        }) }
    ensures old { IfOk result (λ r. r.old ≡ None) }

    ensures cells { IfOk result (λ r. (front : Bytes) → Steps
        (a_leaf (arc_value leaf) ∷ whole (led front (cell_node node.now))) cells.old
        (whole (led front (cell_ref r.node))) cells.new) }
    ensures edge { let n = cell_node node.now in let es = cells_list n.under in
        IfOk result (λ r. (c : Cell) × (cells.old.next ≤ c.id) × (e : CellNode)
        × (cell_ref r.node ≡ record {
          cell = c;
          prefix = n.prefix;
          leaf = n.leaf;
          under = cells_in (take at es ++ e ∷ drop at es);
        })) }
    ensures few { OnOk result (cells.new.next ≡ cells.old.next + 2) }
    ensures onward { OnOk result (IsOnward cells.old cells.new) }
{
    let edge = leaf_edge(node.edges().allocator(), label, prefix, leaf, cells)?;
    let edges = node.edges().spliced(at, at, edge)?;
    let node = made::with_edges(node, edges, cells)?;
    Ok(Inserted { node, old: None })
}

/// The node with another node at its edge at a place, which has this label.
fn with_child(
    node: &Node,
    at: usize,
    label: u8,
    child: NodeRef,
    cells: &mut Cells,
) -> Result<NodeRef, AllocError>
    requires in_range { let n = plain_node node.now in at < length (nodes_list n.under) }
    requires left { cells.old.next < 2 ^ 63 }

    ensures node { let n = plain_node node.now in let es = nodes_list n.under in
        let k = node_of child in
        let e : PlainNode = record { prefix = label ∷ k.prefix; leaf = k.leaf; under = k.under } in
        IfOk result (λ r. node_of r ≡ record {
          prefix = n.prefix;
          leaf = n.leaf;
          under = nodes_in (take at es ++ e ∷ drop (at + 1) es);
        }) }

    ensures cells { let n = cell_node node.now in let es = cells_list n.under in
        IfOk result (λ r. (c : Cell) × IsNextOf cells.old c × (cell_ref r ≡ record {
          cell = c;
          prefix = n.prefix;
          leaf = n.leaf;
          under = cells_in (take at es ++ led (label ∷ []) (cell_ref child) ∷ drop (at + 1) es);
        })) }
    ensures left { let n = cell_node node.now in
        OnOk result (cells.new ≡ one_left n.cell (one_drawn cells.old)) }
{
    let edges = node.edges().spliced(at, at + 1, Edge::of(label, child))?;
    made::with_edges(node, edges, cells)
}

/// A node with the bytes that the node's prefix and the rest have in common, above a copy of the
/// node that has the rest of its prefix. The leaf goes into the upper node, where the rest ends
/// with what they have in common, and else into a new node beside the copy.
fn split(
    node: &Node,
    shared: usize,
    rest: &[u8],
    leaf: Arc<Leaf, Global>,
    cells: &mut Cells,
) -> Result<NodeRef, AllocError>
    requires shared { let n = plain_node node.now in shared ≡ length (common n.prefix rest.now) }
    requires parted { let n = plain_node node.now in shared < length n.prefix }
    requires left { cells.old.next + length rest.now + 2 ≤ 2 ^ 63 }

    ensures node { IfOk result
        (λ r. node_of r ≡ grown_node (leaf_pair leaf) rest.now (plain_node node.now)) }

    ensures cells { IfOk result (λ r. (front : Bytes) → Steps
        (a_leaf (arc_value leaf) ∷ whole (led front (cell_node node.now))) cells.old
        (whole (led front (cell_ref r))) cells.new) }
    ensures stays { IfOk result (λ r. AllIn (inside (cell_node node.now)) (inside (cell_ref r))) }
    ensures few { OnOk result (cells.new.next ≤ cells.old.next + length rest.now + 2) }
    ensures onward { OnOk result (IsOnward cells.old cells.new) }
{
    let prefix = node.prefix();
    let lower = lower_edge(node, prefix[shared], &prefix[shared + 1..], cells)?;
    if shared == rest.len() {
        return leaf_above(lower, rest, leaf, cells);
    }
    fork(lower, rest, shared, leaf, cells)
}

/// The edge of a byte to a copy of the node that has another prefix.
fn lower_edge(node: &Node, label: u8, prefix: &[u8], cells: &mut Cells) -> Result<Edge, AllocError>
    requires left { cells.old.next < 2 ^ 63 }

    ensures edge { let n = plain_node node.now in IfOk result (λ e. edge_node e
        ≡ record { prefix = label ∷ prefix.now; leaf = n.leaf; under = n.under }) }
    ensures cells { let n = cell_node node.now in
        IfOk result (λ e. (c : Cell) × IsNextOf cells.old c × (led_node e
        ≡ record { cell = c; prefix = label ∷ prefix.now; leaf = n.leaf; under = n.under })) }
    ensures left { let n = cell_node node.now in
        OnOk result (cells.new ≡ one_left n.cell (one_drawn cells.old)) }
    ensures begun { cells.old.first ≤ cells.old.next }
{
    let lower = made::with_prefix(node, prefix, cells)?;
    Ok(Edge::of(label, lower))
}

/// A node with a leaf above one edge.
fn leaf_above(
    edge: Edge,
    prefix: &[u8],
    leaf: Arc<Leaf, Global>,
    cells: &mut Cells,
) -> Result<NodeRef, AllocError>
    requires left { cells.old.next < 2 ^ 63 }

    ensures node { IfOk result (λ r. node_of r ≡ record {
      prefix = prefix.now;
      leaf = Some (leaf_pair leaf);
      under = nodes_in (edge_node edge ∷ []);
    }) }
    ensures cells { IfOk result (λ r. (c : Cell) × IsNextOf cells.old c × (cell_ref r ≡ record {
      cell = c;
      prefix = prefix.now;
      leaf = Some (arc_value leaf);
      under = cells_in (led_node edge ∷ []);
    })) }
    ensures drawn { OnOk result (cells.new ≡ one_drawn cells.old) }
{
    let mut edges = Edges::new(edge.node().edges().allocator());
    edges.put(edge)?;
    made::of(prefix, Some(leaf), edges, cells)
}

/// A node above two edges: this one, and one to a new node with the leaf. Its prefix is what the
/// rest of the key has up to a place, by whose byte the new edge goes.
fn fork(
    edge: Edge,
    rest: &[u8],
    at: usize,
    leaf: Arc<Leaf, Global>,
    cells: &mut Cells,
) -> Result<NodeRef, AllocError>
    requires in_range { at < length rest.now }
    requires left { cells.old.next + 2 ≤ 2 ^ 63 }

    ensures node { IfOk result (λ r. node_of r ≡ record {
      prefix = take at rest.now;
      leaf = None;
      under = nodes_in (edge_put (leaf_node (drop at rest.now) (leaf_pair leaf))
          (edge_node edge ∷ []));
    }) }
    ensures cells { IfOk result (λ r. (v : CellNode) × (c : Cell)
        × IsNextOf cells.old v.cell × IsNextOf (one_drawn cells.old) c
        × (v ≡ record {
          cell = v.cell;
          prefix = drop at rest.now;
          leaf = Some (arc_value leaf);
          under = no_cells;
        })
        × (cell_ref r ≡ record {
          cell = c;
          prefix = take at rest.now;
          leaf = None;
          under = cells_in (cell_put v (led_node edge ∷ []));
        })) }
    ensures drawn { OnOk result (cells.new ≡ one_drawn (one_drawn cells.old)) }
{
    let alloc = edge.node().edges().allocator();
    let beside = leaf_edge(alloc, rest[at], &rest[at + 1..], leaf, cells)?;
    let edges = two_edges(alloc, edge, beside)?;
    made::of(&rest[..at], None, edges, cells)
}

/// An edge, and another one in the place of its label.
fn two_edges(alloc: Global, edge: Edge, beside: Edge) -> Result<Edges, AllocError>
    ensures edges { IfOk result
        (λ es. edges_of es ≡ edge_put (edge_node beside) (edge_node edge ∷ [])) }
    ensures cells { IfOk result
        (λ es. cell_edges es ≡ cell_put (led_node beside) (led_node edge ∷ [])) }
{
    let mut edges = Edges::new(alloc);
    edges.put(edge)?;
    edges.put(beside)?;
    Ok(edges)
}
