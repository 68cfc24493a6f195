//! The walks under a prefix.
ghost use Rattle.std.specs.Prelude.{◌≡◌, IfOk, reverse};
ghost use Rattle.mdb_datum.specs.Pairs.{rows_of, with_prefix};
ghost use Rattle.radix_node.specs.Cells.{plain_of};
ghost use Rattle.radix_node.specs.Nodes.{pairs_of};

use crate::level::{push_down, push_up};
use crate::walk::{Rest, Walk};
use radix_node::Tree;
use std::alloc::AllocError;

/// A walk over the rows whose keys begin with a prefix, in the order of the keys. It takes memory
/// for its place, and is refused only for want of it. It takes time in the length of the prefix.
pub fn ascend<'a>(tree: &'a Tree, prefix: &[u8]) -> Result<Walk<'a>, AllocError>
    ensures { IfOk result
        (λ w. w ≡ rows_of (with_prefix prefix.now (pairs_of (plain_of tree.now)))) }
{
    let mut levels = Vec::new(tree.root().edges().allocator());
    if let Some(node) = tree.seek(prefix) {
        push_up(&mut levels, node)?;
    }
    Ok(Walk::over(Rest::Rising(levels)))
}

/// A walk over the rows whose keys begin with a prefix, against the order of the keys. It takes
/// memory and time as [`ascend`] does.
pub fn descend<'a>(tree: &'a Tree, prefix: &[u8]) -> Result<Walk<'a>, AllocError>
    ensures { IfOk result
        (λ w. w ≡ reverse (rows_of (with_prefix prefix.now (pairs_of (plain_of tree.now))))) }
{
    let mut levels = Vec::new(tree.root().edges().allocator());
    if let Some(node) = tree.seek(prefix) {
        push_down(&mut levels, node)?;
    }
    Ok(Walk::over(Rest::Falling(levels)))
}
