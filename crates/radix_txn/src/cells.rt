//! The cells that a write draws, and those that leave.
ghost use Rattle.std.specs.Prelude.{◌≡◌, ◌≤◌, ◌<◌, ◌^◌, true, IfOk, OnOk, length};
ghost use Rattle.std.specs.Arc.{arc_value};
ghost use Rattle.radix_node.specs.CellNode.{cell_node};
ghost use Rattle.radix_node.specs.Left.{all_cells};
ghost use Rattle.radix_node.specs.Node.{below_prefix};
ghost use Rattle.radix_node.specs.Nodes.{pairs_of};
ghost use Rattle.radix_txn.specs.inner.Steps.{IsNextOf, leaf_left, many_left, one_drawn, one_left};

use radix_node::{Ids, Left, Node};
use std::alloc::{AllocError, Global};
use std::marker::Model;
use std::sync::Arc;
use watch_word::{Front, WatchCell};

/// Where a write gets its cells, and the old tree's cells that are gone. An id below
/// `first` is one of the old tree's. A node or leaf
/// with an id from `mark` on is the transaction's own, where it has one owner.
#[derive(Drop)]
pub struct Cells {
    pub front: Front,
    pub ids: Ids,
    pub first: u64,
    pub mark: u64,
    pub left: Left,
}

impl Model for Cells {
    ghost use Rattle.std.specs.Prelude.{◌≡◌, ◌≤◌, map};
    ghost use Rattle.std.specs.Arc.{arc_value};
    ghost use Rattle.radix_txn.specs.inner.Steps.{Ledger};

    ghost Value = { Ledger };

    ghost view = { λ c. record {
      log = c.front;
      first = c.first;
      next = c.ids.next;
      left = c.left;
    } };

    ghost invariant = { λ c.
        (c.front.book ≡ c.ids.book) × (c.first ≤ c.ids.next) × (c.first ≤ c.mark) };
}

impl Cells {
    /// Whether a node's cell is one that the transaction has drawn since its tree was last shared.
    pub fn owns(&self, node: &Node) -> bool
        ensures { result ≡ true → (let n = cell_node node.now in self.now.first ≤ n.cell.id) }
    {
        node.cell().id() >= self.mark
    }

    /// A new cell.
    pub fn draw(&mut self, alloc: Global) -> Result<Arc<WatchCell>, AllocError>
        requires left { self.old.next < 2 ^ 63 }
        ensures next { IfOk result (λ c. IsNextOf self.old (arc_value c)) }
        ensures drawn { OnOk result (self.new ≡ one_drawn self.old) }
        ensures begun { self.old.first ≤ self.old.next }
    {
        self.ids.draw(alloc, &self.front)
    }

    /// A cell is in the tree no longer.
    pub fn leave(&mut self, cell: &Arc<WatchCell>) -> Result<(), AllocError>
        ensures left { OnOk result (self.new ≡ one_left (arc_value cell.now) self.old) }
        ensures begun { self.old.first ≤ self.old.next }
    {
        self.left.push(self.first, cell)
    }

    /// The cell of a node's leaf, if it has one, is in the tree no longer.
    pub fn leave_leaf(&mut self, node: &Node) -> Result<(), AllocError>
        ensures left { let n = cell_node node.now in
            OnOk result (self.new ≡ leaf_left n.leaf self.old) }
        ensures begun { self.old.first ≤ self.old.next }
    {
        node.push_leaf(self.first, &mut self.left)
    }

    /// The cells of a node and of all under it are in the tree no longer. It tells how many leaves
    /// these are.
    pub fn leave_all(&mut self, node: &Node) -> Result<u64, AllocError>
        requires few { length (pairs_of (below_prefix node.now)) < 2 ^ 64 }
        ensures left { OnOk result
            (self.new ≡ many_left (all_cells (cell_node node.now)) self.old) }
        ensures begun { self.old.first ≤ self.old.next }
        ensures count { IfOk result (λ n. n ≡ length (pairs_of (below_prefix node.now))) }
    {
        node.push_cells(self.first, &mut self.left)
    }
}
