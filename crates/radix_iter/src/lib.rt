//! Walks over a radix tree, in the order of its keys and against it: the rows of the keys that
//! begin with a prefix, of those from a key on, and of those down from one; and the first and the
//! last row under a prefix.
//!
//! A [`Walk`] borrows the tree and keeps the place where it stands. To make it takes time and memory
//! in the length of the prefix or key alone. All steps together take time in the nodes that hold
//! rows of the walk, and memory in the depth of the tree. [`first`], [`last`] and [`one`] take none.
#![tactic(auto)]

mod edges;
mod ends;
mod level;
mod lower_bound;
mod prefixed;
mod upper_bound;
mod walk;

pub use ends::{first, last};
pub use lower_bound::from_key;
pub use prefixed::{ascend, descend};
pub use upper_bound::down_from;
pub use walk::{Walk, one};
