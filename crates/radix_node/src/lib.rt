//! A persistent radix tree: a map from keys, which are byte strings, to rows.
//!
//! A [`Tree`] is a root and the nodes under it. A node or leaf that has other owners never changes,
//! so a copy of a tree is a second owner of its root, and a changed tree shares what lies off the
//! path of the change. The crates above read a node by [`Node`]'s calls, make new ones by
//! [`Node::of`], and change one that has no other owner by [`NodeRef::get_mut`]. A look-up takes no
//! memory, and time in the length of the key, each edge on the way being found by binary search.
#![tactic(auto)]

mod edge;
mod edges;
mod ids;
mod leaf;
mod left;
mod node;
mod node_ref;
mod tree;
pub mod tree_laws;

pub use edge::Edge;
pub use edges::Edges;
pub use ids::Ids;
pub use leaf::Leaf;
pub use left::{LISTED_CELLS, Left};
pub use node::Node;
pub use node_ref::NodeRef;
pub use tree::Tree;
