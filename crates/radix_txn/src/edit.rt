//! The beginning of a transaction.
ghost use Rattle.std.specs.Prelude.{◌≡◌, [], false, IfOk};
ghost use Rattle.radix_node.specs.Cells.{CellTree};
ghost use Rattle.radix_txn.specs.Kept.{AreWritten};

use crate::txn::TreeTxn;
use radix_node::Tree;
use std::alloc::AllocError;

/// What a transaction can begin with.
pub trait Edit {
    /// Its nodes with their cells.
    ghost nodes: { Self → CellTree };

    /// A transaction that begins with the nodes, so with their pairs, and isn't spoiled; no key is
    /// written yet. What it began with stays as it is. It takes no memory. `AllocError` comes where
    /// the kit's `Arc` refuses one more owner of the root.
    fn txn(&self) -> Result<TreeTxn, AllocError>
        ensures begun { IfOk result (λ t. t
            ≡ record { start = nodes self.now; tree = nodes self.now; spoiled = false }) }
        ensures written { IfOk result (λ t. AreWritten t.start t.tree []) };
}

impl Edit for Tree {
    ghost nodes = { λ t. t };

    /// A transaction on two owners of the nodes.
    fn txn(&self) -> Result<TreeTxn, AllocError> {
        Ok(TreeTxn::of(self.share()?, self.share()?))
    }
}
