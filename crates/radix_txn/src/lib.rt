//! Transactions over the radix tree.
//!
//! A [`TreeTxn`] begins with the nodes of a tree, by [`Edit::txn`]. A write copies the shared nodes
//! on the path of its key and shares all others, so that the tree it began with, and each tree that
//! it gave since, stay as they are. Nodes and leaves that the transaction made since are its own,
//! as long as they have no other owner: a write changes them in place, and they keep their cells.
//! A write takes time and memory in the length of the key and in the edges of the nodes that it
//! copies, and a delete by prefix time in the number of keys that go too. A write that finds no
//! memory spoils the transaction, which then holds the pairs that it held before that write.
#![tactic(auto)]

mod cells;
mod edit;
mod insert;
mod made;
mod notice;
mod remains;
mod remove;
mod target;
mod txn;

pub use edit::Edit;
pub use notice::Notice;
pub use txn::TreeTxn;
