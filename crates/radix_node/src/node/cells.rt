//! The cells of a node and of all under it.
ghost use Rattle.std.specs.Prelude.{◌≡◌, ◌<◌, ◌^◌, IfOk, OnOk, length};
ghost use Rattle.radix_node.specs.CellNode.{cell_node};
ghost use Rattle.radix_node.specs.Node.{below_prefix};
ghost use Rattle.radix_node.specs.Nodes.{pairs_of};
ghost use Rattle.radix_node.specs.Left.{all_cells, leave_all, leave_leaf};
ghost use Rattle.radix_node.specs.inner.OwnLeft.{own_left};

use crate::left::Left;
use crate::node::Node;
use std::alloc::AllocError;

#[tactic(auto, using(crate::proofs::CellLevels::out_cell, crate::proofs::CellLevels::out_cell_leaf, crate::proofs::CellLevels::out_cell_under))]
impl Node {
    /// Adds the cells of the node and its leaf, and of all under it, whose ids are below
    /// `first`. It gives the number of leaves at the node and under it, if that is below 2^64. It
    /// takes time in the number of nodes, and is refused as [`Left::push`] is.
    pub fn push_cells(&self, first: u64, into: &mut Left) -> Result<u64, AllocError>
        ensures cells { OnOk result
            (into.new ≡ leave_all first (all_cells (cell_node self.now)) into.old) }
        ensures count { IfOk result (λ n. length (pairs_of (below_prefix self.now)) < 2 ^ 64
            → n ≡ length (pairs_of (below_prefix self.now))) }
    {
        self.push_own(first, into)?;
        let mut count = u64::from(self.leaf.is_some());
        for edge in &self.edges.edges {
            count = count.saturating_add(edge.node.node.push_cells(first, into)?);
        }
        Ok(count)
    }

    /// Adds the cells of the node and of its leaf alone.
    fn push_own(&self, first: u64, into: &mut Left) -> Result<(), AllocError>
        ensures { let n = cell_node self.now in OnOk result (into.new ≡ own_left first n into.old) }
    {
        into.push(first, self.cell())?;
        self.push_leaf(first, into)
    }

    /// Adds the cell of the node's leaf, if it has one.
    pub fn push_leaf(&self, first: u64, into: &mut Left) -> Result<(), AllocError>
        ensures { let n = cell_node self.now in OnOk result (into.new ≡ leave_leaf first n.leaf into.old) }
    {
        match self.leaf() {
            None => Ok(()),
            Some(leaf) => into.push(first, leaf.cell()),
        }
    }
}
