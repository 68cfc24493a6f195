//! The walk down from a key.
ghost use Rattle.std.specs.Prelude.{◌≡◌, ◌++◌, IfOk, reverse};
ghost use Rattle.mdb_datum.specs.Pairs.{at_most, rows_of};
ghost use Rattle.radix_node.specs.Cells.{plain_of};
ghost use Rattle.radix_node.specs.Nodes.{pairs_of};
ghost use Rattle.radix_iter.specs.inner.LevelRows.{rows_down};

use crate::edges::split_at_label;
use crate::level::{Level, push_before, push_if_lower, push_own};
use crate::walk::{Rest, Walk};
use radix_node::Tree;
use std::alloc::AllocError;

/// A walk over the rows of keys that are at most `key`, against the order of the keys. It takes
/// memory and time as [`crate::from_key`] does.
pub fn down_from<'a>(tree: &'a Tree, key: &[u8]) -> Result<Walk<'a>, AllocError>
    ensures { IfOk result
        (λ w. w ≡ reverse (rows_of (at_most key.now (pairs_of (plain_of tree.now))))) }
{
    let mut levels = Vec::new(tree.root().edges().allocator());
    push_at_most(&mut levels, tree, key)?;
    Ok(Walk::over(Rest::Falling(levels)))
}

/// Adds the levels of keys that are at most `key`, in order: on the way down along the key those of
/// prefixes of it and those beside it, which are lower.
fn push_at_most<'a>(
    levels: &mut Vec<Level<'a>>,
    tree: &'a Tree,
    key: &[u8],
) -> Result<(), AllocError>
    ensures { IfOk result (λ _. rows_down levels.new.items
        ≡ rows_down levels.old.items ++ rows_of (at_most key.now (pairs_of (plain_of tree.now)))) }
{
    let mut node = tree.root();
    let mut rest = key;
    while let Some((first, after)) = rest.split_first() {
        let (lower, child, _) = split_at_label(node, *first);
        push_before(levels, node, lower)?;
        let Some(child) = child else {
            return Ok(());
        };
        let Some(left) = child.strip_prefix(after) else {
            return push_if_lower(levels, child, after);
        };
        node = child;
        rest = left;
    }
    push_own(levels, node)
}
