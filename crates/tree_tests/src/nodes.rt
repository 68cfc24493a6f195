//! Nodes and edges alone, and the empty tree. Trees with keys are tried where they can be written.
ghost use Rattle.radix_node.specs.Edges.{EdgesRise};
ghost use Rattle.radix_node.specs.Node.{edges_of, nodes_in};

use crate::ending::holds;
use crate::txns::both::Told;
use crate::txns::tables::BYTES;
use crate::txns::written::{is_node, labels_are, row};
use radix_node::{Edge, Edges, Ids, Leaf, Left, Node, NodeRef, Tree};
use std::alloc::{AllocError, Global};
use std::sync::Arc;
use std::test::Fail;
use watch_word::{WatchCell, open_book, open_cell};

// ---- trees as a whole

/// A tree without keys, whose root's cell has the id 7, and the id after that. Its ids come from a
/// second counter, which begins where the first one does.
fn empty_tree(alloc: Global) -> Result<(Tree, u64), AllocError> {
    let (book, front) = open_book(alloc)?;
    let mut ids = Ids::starting(book, 7).share()?;
    let tree = Tree::empty(alloc, &front, &mut ids)?;
    Ok((tree, ids.next()))
}

/// Whether a tree has no key, its root neither a leaf nor edges, and both watches of a missing key
/// are the cell 7.
fn is_empty(tree: &Tree) -> bool {
    let (cell, row) = tree.get_watch(b"k");
    let led = tree.seek(b"").is_some() && tree.seek(b"k").is_none();
    let watched = cell.id() == 7 && row.is_none() && tree.seek_watch(b"k").id() == 7;
    led && watched
        && tree.len() == 0
        && tree.root().count() == 0
        && is_node(tree.root(), b"", false, b"")
}

/// Takes only what threads may share and hand to each other.
fn for_threads<T: Send + Sync>(shared: T) -> T {
    shared
}

/// Whether a new tree, which threads may share, has no key, and is watched at its root, where its
/// first owner is gone.
fn is_new_tree_empty(alloc: Global) -> Told {
    let (first, next) = empty_tree(alloc)?;
    let tree = for_threads(first.share()?);
    drop(first);
    Ok(next == 8 && is_empty(&tree))
}

#[test]
fn a_new_tree_is_empty_and_watched_at_its_root(rt: HostRuntime) -> Result<(), Fail> {
    holds(is_new_tree_empty(rt.alloc()))
}

// ---- edges

/// A cell with an id, of a book of its own.
fn cell(alloc: Global, id: u64) -> Result<Arc<WatchCell>, AllocError> {
    let (book, front) = open_book(alloc)?;
    open_cell(alloc, &book, &front, id)
}

/// An edge to a node without leaf and edges, whose cell has the id 1.
fn edge(alloc: Global, label: u8) -> Result<Edge, AllocError> {
    let node = Node::of(alloc, &[label], None, Edges::new(alloc), cell(alloc, 1)?)?;
    Ok(Edge::of(label, node))
}

/// What is done to edges, and asked of them.
enum Step {
    /// Puts an edge, and tells whether that gives an old one.
    Put(u8, bool),
    /// A label has this place, or the one where it would go.
    Find(u8, Result<usize, usize>),
    /// A copy with an edge `x` in place of those from one place up to another has these labels.
    Spliced(usize, usize, &'static [u8]),
    /// A copy without the edge at a place has these labels.
    Without(usize, &'static [u8]),
    /// A second owner has these labels.
    Share(&'static [u8]),
}

static STEPS: [Step; 22] = [
    Step::Put(b'b', false),
    Step::Put(b'd', false),
    Step::Put(b'a', false),
    Step::Find(b'c', Err(2)),
    Step::Find(b'd', Ok(2)),
    Step::Find(0, Err(0)),
    Step::Find(255, Err(3)),
    Step::Put(b'c', false),
    Step::Spliced(1, 3, b"axd"),
    Step::Spliced(0, 0, b"xabcd"),
    Step::Spliced(4, 4, b"abcdx"),
    Step::Spliced(0, 4, b"x"),
    Step::Without(2, b"abd"),
    Step::Without(0, b"bcd"),
    Step::Without(3, b"abc"),
    Step::Share(b"abcd"),
    Step::Put(b'b', true),
    Step::Share(b"abcd"),
    Step::Put(0, false),
    Step::Put(255, false),
    Step::Share(b"\0abcd\xff"),
    Step::Find(b'b', Ok(2)),
];

/// Whether a put of an edge gives an old one where that is said, and the new one is in its place.
fn is_put(alloc: Global, edges: &mut Edges, label: u8, had: bool) -> Told
    requires { EdgesRise (nodes_in (edges_of edges.old)) }
    ensures { EdgesRise (nodes_in (edges_of edges.new)) }
{
    let old = edges.put(edge(alloc, label)?)?;
    Ok(old.is_some() == had)
}

/// Whether a copy with an edge `x` in place of some has these labels.
fn is_spliced(alloc: Global, edges: &Edges, from: usize, to: usize, labels: &[u8]) -> Told {
    if from > to || to > edges.len() {
        return Ok(false);
    }
    let copy = edges.spliced(from, to, edge(alloc, b'x')?)?;
    Ok(labels_are(&copy, labels))
}

/// Whether a copy without an edge has these labels.
fn is_without(edges: &Edges, at: usize, labels: &[u8]) -> Told {
    if at >= edges.len() {
        return Ok(false);
    }
    let copy = edges.without(at)?;
    Ok(labels_are(&copy, labels))
}

/// Whether a second owner has these labels.
fn is_shared(edges: &Edges, labels: &[u8]) -> Told {
    let copy = edges.share()?;
    Ok(labels_are(&copy, labels))
}

/// Whether a step is answered as it says.
fn is_done(alloc: Global, edges: &mut Edges, step: &Step) -> Told
    requires { EdgesRise (nodes_in (edges_of edges.old)) }
    ensures { EdgesRise (nodes_in (edges_of edges.new)) }
{
    match step {
        Step::Put(label, had) => is_put(alloc, edges, *label, *had),
        Step::Find(label, place) => Ok(edges.find(*label) == *place),
        Step::Spliced(from, to, labels) => is_spliced(alloc, edges, *from, *to, labels),
        Step::Without(at, labels) => is_without(edges, *at, labels),
        Step::Share(labels) => is_shared(edges, labels),
    }
}

/// Whether all steps are.
fn are_done(alloc: Global) -> Told {
    let mut edges = Edges::new(alloc);
    for step in &STEPS {
        if !is_done(alloc, &mut edges, step)? {
            return Ok(false);
        }
    }
    Ok(true)
}

#[test]
fn edges_are_placed_and_copied_by_their_labels(rt: HostRuntime) -> Result<(), Fail> {
    holds(are_done(rt.alloc()))
}

/// Whether all bytes are labels in order once they are put in a scattered one, since 167 is odd.
fn all_are_placed(alloc: Global) -> Told {
    let mut edges = Edges::new(alloc);
    for byte in &BYTES {
        if !is_put(alloc, &mut edges, byte.wrapping_mul(167), false)? {
            return Ok(false);
        }
    }
    Ok(labels_are(&edges, &BYTES) && edges.get(256).is_none())
}

#[test]
fn all_256_labels_are_in_order(rt: HostRuntime) -> Result<(), Fail> {
    holds(all_are_placed(rt.alloc()))
}

// ---- nodes

/// The leaf of the key `foo`, whose cell has the id 5.
fn leaf(alloc: Global) -> Result<Arc<Leaf, Global>, AllocError> {
    let row = row(alloc, 1)?;
    Leaf::of(alloc, b"foo", &row, cell(alloc, 5)?)
}

/// A node of the prefix `foo`, whose cell has the id 3, with that leaf and an edge.
fn foo(alloc: Global) -> Result<NodeRef, AllocError> {
    let mut edges = Edges::new(alloc);
    is_put(alloc, &mut edges, b'a', false)?;
    Node::of(alloc, b"foo", Some(leaf(alloc)?), edges, cell(alloc, 3)?)
}

/// A key, what it has after the prefix `foo`, and how many bytes they have in common.
static AFTER_FOO: [(&[u8], Option<&[u8]>, usize); 4] = [
    (b"football", Some(b"tball"), 3),
    (b"foo", Some(b""), 3),
    (b"fox", None, 2),
    (b"", None, 0),
];

/// Whether a node tells of each key what it has after the prefix, and the common bytes.
fn are_after(node: &Node) -> bool {
    for (key, rest, common) in &AFTER_FOO {
        if node.strip_prefix(key) != *rest || node.common_prefix_len(key) != *common {
            return false;
        }
    }
    true
}

/// Bounds, and how many cells have an id below: that of the edge's node has the id 1.
static BELOW: [(u64, usize); 4] = [(6, 3), (5, 2), (3, 1), (1, 0)];

/// Whether so many cells of a node are listed, where ids below a bound are.
fn lists(node: &Node, below: u64, count: usize, alloc: Global) -> Told {
    let mut cells = Left::new(alloc);
    node.push_cells(below, &mut cells)?;
    Ok(cells.len() == count)
}

/// Whether they are for each bound.
fn lists_each(node: &Node, alloc: Global) -> Told {
    for (below, count) in &BELOW {
        if !lists(node, *below, *count, alloc)? {
            return Ok(false);
        }
    }
    Ok(true)
}

/// Whether both hold of that node.
fn is_foo(alloc: Global) -> Told {
    let foo = foo(alloc)?;
    let told = lists_each(foo.node(), alloc)?;
    Ok(told && are_after(foo.node()))
}

#[test]
fn a_node_tells_what_is_after_its_prefix_and_lists_cells_below_a_bound(
    rt: HostRuntime,
) -> Result<(), Fail> {
    holds(is_foo(rt.alloc()))
}
