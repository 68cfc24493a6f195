//! The walk of an old tree beside a new one.
ghost use Rattle.std.specs.Prelude.{◌≡◌, ◌≤◌, map};
ghost use Rattle.notify_walk.specs.Fired.{StayOrFire};
ghost use Rattle.notify_walk.specs.inner.Parts.{AreNodesOf, IsNodeOf, cells_at, nodes_at};
ghost use Rattle.radix_node.specs.CellNode.{cell_node};
ghost use Rattle.radix_node.specs.Cells.{AreCellsOf, AreOf, CellTree, cells_of, leaf_pieces};
ghost use Rattle.radix_node.specs.Cells.{piece_cell};
ghost use Rattle.radix_node.specs.Left.{all_cells};
ghost use Rattle.radix_node.specs.Watches.{TellTheSame};
ghost use Rattle.watch_word.specs.Logs.{AreDistinct, IsLater};

use crate::fire_one;
use radix_node::{Edge, Node, Tree};
use watch_word::Front;

/// Fires each cell of the old tree that the new one hasn't, by the commit with this number.
pub fn fire_gone(old: &Tree, new: &Tree, front: &Front, by: u64, attended: &mut bool) -> Front
    requires same { TellTheSame old.now new.now }
    requires of { AreOf front.now.book old.now }
    requires number { 1 ≤ by }
    ensures later { IsLater front.now result }
    ensures told { StayOrFire (cells_of old.now) new.now result }
    ensures once { AreDistinct result.fired }
{
    fire_node(old.root(), 0, new, front, by, attended)
}

/// Fires the cells that are gone of a node and of all under it. Where the new tree has the node,
/// none of them is. `depth` is the length of the node's path, by which the new tree is asked.
#[cycle(nodes)]
fn fire_node(
    node: &Node,
    depth: usize,
    new: &Tree,
    front: &Front,
    by: u64,
    attended: &mut bool,
) -> Front
    requires of { AreCellsOf front.now.book (all_cells (cell_node node.now)) }
    requires number { 1 ≤ by }
    ensures later { IsLater front.now result }
    ensures told { (old : CellTree) → TellTheSame old new.now → IsNodeOf (cell_node node.now) old
        → StayOrFire (all_cells (cell_node node.now)) new.now result }
    ensures once { AreDistinct result.fired }
{
    // Brings the new tree's shape into the proof.
    let _ = new.root();
    let key = first_key(node);
    let path = key.get(..depth).unwrap_or(key);
    if new.seek_watch(path).id() == node.cell().id() {
        return front.share();
    }
    let log = fire_one(node.cell(), front, by, attended);
    let log = fire_leaf(node, new, &log, by, attended);
    fire_edges(edges_under(node), depth, new, &log, by, attended)
}

/// Fires the cells that are gone of the nodes that edges of a node lead to, and of all under them.
#[cycle(nodes)]
fn fire_edges(
    edges: &[Edge],
    depth: usize,
    new: &Tree,
    front: &Front,
    by: u64,
    attended: &mut bool,
) -> Front
    requires of { AreCellsOf front.now.book (cells_at edges.now) }
    requires number { 1 ≤ by }
    ensures later { IsLater front.now result }
    ensures told { (old : CellTree) → TellTheSame old new.now → AreNodesOf (nodes_at edges.now) old
        → StayOrFire (cells_at edges.now) new.now result }
    ensures once { AreDistinct result.fired }
{
    let mut log = front.share();
    for edge in edges {
        let node = edge.node();
        let below = depth.saturating_add(1).saturating_add(node.prefix().len());
        log = fire_node(node, below, new, &log, by, attended);
    }
    log
}

/// Fires the cell of a node's leaf, if it has one and its cell is gone.
fn fire_leaf(node: &Node, new: &Tree, front: &Front, by: u64, attended: &mut bool) -> Front
    requires of { let n = cell_node node.now in
        AreCellsOf front.now.book (map piece_cell (leaf_pieces n.leaf)) }
    requires number { 1 ≤ by }
    ensures later { IsLater front.now result }
    ensures told { let n = cell_node node.now in
        (old : CellTree) → TellTheSame old new.now → IsNodeOf n old
        → StayOrFire (map piece_cell (leaf_pieces n.leaf)) new.now result }
    ensures once { AreDistinct result.fired }
{
    // Brings the new tree's shape into the proof.
    let _ = new.root();
    let Some(leaf) = node.leaf() else {
        return front.share();
    };
    if new.get_watch(leaf.key()).0.id() == leaf.cell().id() {
        return front.share();
    }
    fire_one(leaf.cell(), front, by, attended)
}

/// The first key at or under a node; empty, where there is none.
fn first_key(node: &Node) -> &[u8] {
    match (node.leaf(), node.edges().get(0)) {
        (Some(leaf), _) => leaf.key(),
        (None, Some(edge)) => first_key(edge.node()),
        (None, None) => b"",
    }
}

/// All edges of a node.
fn edges_under(node: &Node) -> &[Edge]
    ensures { let n = cell_node node.now in nodes_at result.now ≡ n.under }
{
    node.edges().iter().as_slice()
}
