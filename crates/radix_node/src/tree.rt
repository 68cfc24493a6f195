//! Trees, and the look-up of a key.
mod descent;
mod longest;
mod seek;
mod watch;

ghost use Rattle.std.specs.Prelude.{◌≡◌, ◌+◌, ◌≤◌, ◌<◌, ◌^◌, None, false, [], IfOk, OnOk, length};
ghost use Rattle.std.specs.Prelude.{option_copied};
ghost use Rattle.watch_word.specs.Logs.{has_fired};
ghost use Rattle.radix_node.specs.CellNode.{cell_node, cell_ref, tree_at};
ghost use Rattle.radix_node.specs.Cells.{AreApart, AreBelow, AreOf, no_cells, plain_of};
ghost use Rattle.radix_node.specs.Node.{below, below_prefix, node_of, plain_node};
ghost use Rattle.radix_node.specs.Nodes.{pairs_of};
ghost use Rattle.radix_node.specs.Pairs.{IsRising, find};
ghost use Rattle.radix_node.specs.Shape.{HasShape};

use crate::edges::Edges;
use crate::ids::Ids;
use crate::node::Node;
use crate::node_ref::NodeRef;
use mdb_datum::Row;
use std::alloc::{AllocError, Global};
use std::marker::Model;
use watch_word::Front;

/// A map from keys to rows, in the byte order of the keys, as shared nodes. It never
/// changes; whoever owns one may take it apart by [`Tree::into_root`].
/// Contracts see it as its nodes with their cells, `CellTree`; without the cells it is `plain_of`
/// the tree, whose pairs are the map.
#[derive(Drop)]
pub struct Tree {
    root: NodeRef,
    len: u64,
}

impl Model for Tree {
    ghost use Rattle.radix_node.specs.Cells.{CellTree};
    ghost use Rattle.radix_node.specs.Codes.{tree_code};

    ghost Value = { CellTree };

    ghost coded = { tree_code };

    ghost use Rattle.radix_node.specs.inner.TreeView.{tree_cells, IsTree};

    ghost view = { tree_cells };

    ghost invariant = { IsTree };
}

#[tactic(auto, using(crate::proofs::CellLevels::plain_root, crate::proofs::CellLevels::plain_under))]
impl Tree {
    /// A tree with no keys. It takes memory for its root, and for the root's cell, which gets the
    /// next id.
    pub fn empty(alloc: Global, front: &Front, ids: &mut Ids) -> Result<Tree, AllocError>
        requires book { front.now.book ≡ ids.old.book }
        requires left { ids.old.next < 2 ^ 63 }

        ensures pairs { IfOk result (λ t. pairs_of (plain_of t) ≡ []) }
        ensures tree { IfOk result
            (λ t. t ≡ record { cell = t.cell; leaf = None; nodes = no_cells }) }
        ensures below { IfOk result (λ t. AreBelow ids.new.next t) }
        ensures cell { IfOk result (λ t. t.cell.id ≡ ids.old.next) }
        ensures of { IfOk result (λ t. AreOf ids.old.book t) }
        ensures fired { IfOk result (λ t. has_fired t.cell front.now ≡ false) }
        ensures same_book { ids.new.book ≡ ids.old.book }
        ensures next { OnOk result (ids.new.next ≡ ids.old.next + 1) }

        ensures ids { (ids.old.next ≤ ids.new.next) × (ids.new.next ≤ ids.old.next + 1) }
    {
        let cell = ids.draw(alloc, front)?;
        let root = Node::of(alloc, b"", None, Edges::new(alloc), cell)?;
        Ok(Tree { root, len: 0 })
    }

    /// The tree under a root, which has as many keys as `len` says, and no two cells of one id.
    pub fn of_root(root: NodeRef, len: u64) -> Tree
        requires rooted { let n = node_of root in n.prefix ≡ [] }
        requires shape { HasShape (below (node_of root)) }
        requires counted { len ≡ length (pairs_of (below (node_of root))) }
        requires apart { AreApart (tree_at (cell_ref root)) }
        ensures tree { result ≡ tree_at (cell_ref root) }
        ensures plain { plain_of result ≡ below (node_of root) }
    {
        Tree { root, len }
    }

    /// The root.
    pub fn root(&self) -> &Node
        ensures root { below_prefix result.now ≡ plain_of self.now }
        ensures cells { tree_at (cell_node result.now) ≡ self.now }
        ensures rooted { let n = plain_node result.now in n.prefix ≡ [] }
        ensures shape { HasShape (plain_of self.now) }
        ensures apart { AreApart self.now }
    {
        self.root.node()
    }

    /// The root alone.
    pub fn into_root(self) -> NodeRef
        ensures root { below (node_of result) ≡ plain_of self }
        ensures cells { tree_at (cell_ref result) ≡ self }
        ensures rooted { let n = node_of result in n.prefix ≡ [] }
        ensures shape { HasShape (plain_of self) }
        ensures apart { AreApart self }
    {
        let Tree { root, len: _ } = self;
        root
    }

    /// How many keys there are.
    pub fn len(&self) -> u64
        ensures { result ≡ length (pairs_of (plain_of self.now)) }
    {
        self.len
    }

    /// The row under a key. It takes no memory, and time in the length of the key, with a binary
    /// search among the edges at each node on the way.
    pub fn get(&self, key: &[u8]) -> Option<&Row>
        ensures value { option_copied result ≡ find key.now (pairs_of (plain_of self.now)) }
        ensures rising { IsRising (pairs_of (plain_of self.now)) }
    {
        Some(self.look_up(key).1?.row())
    }

    /// A second owner of the same nodes. It takes no memory. `AllocError` comes where the kit's
    /// `Arc` refuses one more owner of the root.
    pub fn share(&self) -> Result<Tree, AllocError>
        ensures { IfOk result (λ t. t ≡ self.now) }
    {
        Ok(Tree {
            root: self.root.share()?,
            len: self.len,
        })
    }
}
