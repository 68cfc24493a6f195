//! The walk from a key on.
ghost use Rattle.std.specs.Prelude.{◌≡◌, ◌++◌, IfOk, reverse};
ghost use Rattle.mdb_datum.specs.Pairs.{at_least, rows_of};
ghost use Rattle.radix_node.specs.Cells.{plain_of};
ghost use Rattle.radix_node.specs.Nodes.{pairs_of};
ghost use Rattle.radix_iter.specs.inner.LevelRows.{rows_up};

use crate::edges::split_at_label;
use crate::level::{Level, push_edges, push_if_higher, push_up};
use crate::walk::{Rest, Walk};
use radix_node::Tree;
use std::alloc::AllocError;

/// A walk over the rows of keys that are at least `key`, in the order of the keys. It takes memory
/// for its place, in the length of the key, and is refused only for want of it. It takes time in the
/// length of the key.
pub fn from_key<'a>(tree: &'a Tree, key: &[u8]) -> Result<Walk<'a>, AllocError>
    ensures { IfOk result (λ w. w ≡ rows_of (at_least key.now (pairs_of (plain_of tree.now)))) }
{
    let mut levels = Vec::new(tree.root().edges().allocator());
    push_at_least(&mut levels, tree, key)?;
    Ok(Walk::over(Rest::Rising(levels)))
}

/// Adds the levels of keys that are at least `key`, the last first: on the way down along the key
/// those beside it, which are higher, and at its end those under it.
fn push_at_least<'a>(
    levels: &mut Vec<Level<'a>>,
    tree: &'a Tree,
    key: &[u8],
) -> Result<(), AllocError>
    ensures { IfOk result (λ _. rows_up levels.new.items
        ≡ rows_up levels.old.items ++ reverse (rows_of (at_least key.now (pairs_of (plain_of tree.now))))) }
{
    let mut node = tree.root();
    let mut rest = key;
    while let Some((first, after)) = rest.split_first() {
        let (_, child, higher) = split_at_label(node, *first);
        push_edges(levels, higher)?;
        let Some(child) = child else {
            return Ok(());
        };
        let Some(left) = child.strip_prefix(after) else {
            return push_if_higher(levels, child, after);
        };
        node = child;
        rest = left;
    }
    push_up(levels, node)
}
