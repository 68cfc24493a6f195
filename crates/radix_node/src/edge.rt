//! An edge of a node.
ghost use Rattle.std.specs.Prelude.{◌≡◌, IfOk};
ghost use Rattle.std.specs.Borrow.{sem};
ghost use Rattle.radix_node.specs.CellNode.{cell_edge, cell_node, cell_ref};
ghost use Rattle.radix_node.specs.Lending.{LendsRef};
ghost use Rattle.radix_node.specs.Node.{plain_edge, plain_node, node_of};

use crate::node::Node;
use crate::node_ref::NodeRef;
use std::alloc::AllocError;

/// An edge of a node: a byte, its label, and the node that it leads to. The label is kept here
/// alone, so that a search among edges looks at one array; the node's own prefix comes after it.
#[cycle(node)]
#[derive(Drop)]
pub struct Edge {
    label: u8,
    pub(crate) node: NodeRef,
}

#[tactic(auto, using(crate::proofs::Levels::out_label, crate::proofs::Levels::out_node, crate::proofs::Levels::edge_roll, crate::proofs::CellLevels::out_cell_node, crate::proofs::CellLevels::out_cell_edge, crate::proofs::CellLevels::cell_edge_roll))]
impl Edge {
    /// The edge of a byte to a node.
    pub fn of(label: u8, node: NodeRef) -> Edge
        ensures edge { plain_edge result ≡ record { label = label; node = node_of node } }
        ensures cells { cell_edge result ≡ record { label = label; node = cell_ref node } }
    {
        Edge { label, node }
    }

    /// The byte that leads to the node.
    pub fn label(&self) -> u8
        ensures edge { let e = plain_edge self.now in result ≡ e.label }
        ensures cells { let e = cell_edge self.now in result ≡ e.label }
    {
        self.label
    }

    /// The node.
    pub fn node(&self) -> &Node
        ensures node { let e = plain_edge self.now in plain_node result.now ≡ e.node }
        ensures cells { let e = cell_edge self.now in cell_node result.now ≡ e.node }
    {
        self.node.node()
    }

    /// The owner of the node, to be changed.
    pub fn node_mut(&mut self) -> &mut NodeRef
        ensures* writes_back { sem 𝓛 (LendsRef self.entry result) }
        ensures node { let e = plain_edge self.old in node_of result.now ≡ e.node }
        ensures cells { let e = cell_edge self.old in cell_ref result.now ≡ e.node }
    {
        &mut self.node
    }

    /// A second owner of the same node, at an edge of the same byte. It takes no memory.
    /// `AllocError` comes as from [`NodeRef::share`].
    pub fn share(&self) -> Result<Edge, AllocError>
        ensures edge { IfOk result (λ e. plain_edge e ≡ plain_edge self.now) }
        ensures cells { IfOk result (λ e. cell_edge e ≡ cell_edge self.now) }
    {
        Ok(Edge {
            label: self.label,
            node: self.node.share()?,
        })
    }
}
