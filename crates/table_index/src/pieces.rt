//! The pieces of a tree in turn: leaves, and nodes that are passed over or entered.
ghost use Rattle.std.specs.Prelude.{◌≡◌, ◌++◌, ◌∷◌, [], IfNone, IfOk, IfSome, OnOk, Some};
ghost use Rattle.radix_node.specs.CellNode.{cell_node, led_node};
ghost use Rattle.radix_node.specs.Cells.{a_node, leaf_pieces, node_pieces, piece_cell};
ghost use Rattle.table_index.specs.inner.PiecesIn.{all_of};
ghost use Rattle.table_index.specs.inner.PiecesLeft.{level_pieces, part_piece, part_pieces};
ghost use Rattle.table_index.specs.inner.PiecesLeft.{pieces_at, pieces_left};
ghost use Rattle.table_index.specs.declared.pieces.Part.TheVariants as part;

use radix_node::{Edge, Leaf, Node};
use std::alloc::{AllocError, Global};

/// A piece of a tree: a leaf, or the node that an edge leads to, with all that is under it.
#[derive(Clone, Copy)]
pub(crate) enum Part<'a> {
    Leaf(&'a Leaf),
    Under(&'a Edge),
}

impl Part<'_> {
    /// The id of its cell, which tells the piece.
    pub(crate) fn id(&self) -> u64
        ensures { let cell = piece_cell (part_piece self.now) in result ≡ cell.id }
    {
        match self {
            Part::Leaf(leaf) => leaf.cell().id(),
            Part::Under(edge) => edge.node().cell().id(),
        }
    }
}

/// What is still to come of one node: perhaps its leaf, and what is under some of its edges.
#[derive(Clone, Copy)]
pub(crate) struct Level<'a> {
    own: Option<&'a Leaf>,
    edges: &'a [Edge],
}

impl<'a> Level<'a> {
    /// All of a node but itself.
    fn of(node: &'a Node) -> Level<'a>
        ensures { let n = cell_node node.now in
            level_pieces result ≡ leaf_pieces n.leaf ++ node_pieces n.under }
    {
        Level {
            own: node.leaf(),
            edges: node.edges().iter().as_slice(),
        }
    }

    /// The first piece, if one is left, and what comes after it.
    fn split_first(self) -> Option<(Part<'a>, Level<'a>)>
        ensures first { IfSome result
            (λ split. level_pieces self.entry ≡ all_of (part_piece split.0) ++ level_pieces split.1) }
        ensures end { IfNone result (level_pieces self.entry ≡ []) }
    {
        if let Some(leaf) = self.own {
            return Some((Part::Leaf(leaf), Level { own: None, ..self }));
        }
        let (edge, edges) = self.edges.split_first()?;
        Some((Part::Under(edge), Level { own: None, edges }))
    }
}

/// The pieces of a tree that are still to come: one that was taken from the levels, and theirs.
#[derive(Drop)]
pub(crate) struct Pieces<'a> {
    front: Option<Part<'a>>,
    levels: Vec<Level<'a>>,
}

impl<'a> Pieces<'a> {
    /// The pieces under a root, and its leaf. It takes memory for its place.
    pub(crate) fn of(alloc: Global, root: &'a Node) -> Result<Pieces<'a>, AllocError>
        ensures { let n = cell_node root.now in
            IfOk result (λ p. pieces_at p ≡ leaf_pieces n.leaf ++ node_pieces n.under) }
    {
        let mut levels = Vec::new(alloc);
        levels.push(Level::of(root))?;
        Ok(Pieces {
            front: None,
            levels,
        })
    }

    /// The first piece, if one is left. It stays.
    pub(crate) fn first(&mut self) -> Option<Part<'a>>
        ensures first { result ≡ self.new.front }
        ensures unchanged { pieces_at self.new ≡ pieces_at self.old }
        ensures end { IfNone result (pieces_at self.new ≡ []) }
    {
        if self.front.is_none() {
            self.front = next_part(&mut self.levels);
        }
        self.front
    }

    /// Passes the first piece over, with all that is under it.
    pub(crate) fn pass(&mut self)
        ensures { pieces_at self.old ≡ part_pieces self.old.front ++ pieces_at self.new }
    {
        self.front = None;
    }

    /// Goes on to what is under the node that comes first.
    pub(crate) fn enter(&mut self, edge: &'a Edge) -> Result<(), AllocError>
        requires { self.old.front ≡ Some (part.Under edge) }
        ensures { OnOk result (pieces_at self.old ≡ a_node (led_node edge.now) ∷ pieces_at self.new) }
    {
        self.levels.push(Level::of(edge.node()))?;
        self.front = None;
        Ok(())
    }
}

/// The next piece of levels, the last of which comes first; the levels are left with what comes
/// after it.
fn next_part<'a>(levels: &mut Vec<Level<'a>>) -> Option<Part<'a>>
    ensures next { pieces_left levels.old.items
        ≡ part_pieces result ++ pieces_left levels.new.items }
    ensures end { IfNone result (pieces_left levels.new.items ≡ []) }
{
    while let Some(level) = levels.last() {
        match level.split_first() {
            Some((part, rest)) => {
                let at = levels.len() - 1;
                levels[at] = rest;
                return Some(part);
            }
            None => {
                levels.pop();
            }
        }
    }
    None
}
