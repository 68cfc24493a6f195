//! Shared owners of nodes.
ghost use Rattle.std.specs.Prelude.{◌≡◌, IfOk, IfSome};
ghost use Rattle.std.specs.Borrow.{sem};
ghost use Rattle.radix_node.specs.CellNode.{cell_node, cell_ref};
ghost use Rattle.radix_node.specs.Lending.{LendsNode};
ghost use Rattle.radix_node.specs.Node.{plain_node, node_of};

use crate::node::Node;
use std::alloc::{AllocError, Global};
use std::sync::Arc;

/// An owner of a node. A node that has other owners never changes.
#[cycle(node)]
#[derive(Drop)]
pub struct NodeRef {
    pub(crate) node: Arc<Node, Global>,
}

#[tactic(auto, using(crate::proofs::Levels::ref_out, crate::proofs::Levels::ref_roll, crate::proofs::CellLevels::cell_ref_out, crate::proofs::CellLevels::cell_ref_roll))]
impl NodeRef {
    /// The node.
    pub fn node(&self) -> &Node
        ensures node { plain_node result.now ≡ node_of self.now }
        ensures cells { cell_node result.now ≡ cell_ref self.now }
    {
        &self.node
    }

    /// The node, to be changed, if this is its only owner.
    pub fn get_mut(&mut self) -> Option<&mut Node>
        ensures* writes_back { sem 𝓛 (LendsNode self.entry result) }
        ensures node { IfSome result (λ n. plain_node n.now ≡ node_of self.old) }
        ensures cells { IfSome result (λ n. cell_node n.now ≡ cell_ref self.old) }
    {
        Arc::get_mut(&mut self.node)
    }

    /// A second owner of the same node. It takes no memory. `AllocError` comes where the kit's
    /// `Arc` refuses one more owner.
    pub fn share(&self) -> Result<NodeRef, AllocError>
        ensures node { IfOk result (λ r. node_of r ≡ node_of self.now) }
        ensures cells { IfOk result (λ r. cell_ref r ≡ cell_ref self.now) }
    {
        Ok(NodeRef {
            node: Arc::try_clone(&self.node)?,
        })
    }
}
