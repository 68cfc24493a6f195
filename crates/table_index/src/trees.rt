//! Lists of trees, one an index.
ghost use Rattle.std.specs.Prelude.{◌≡◌, ◌+◌, ◌≤◌, ◌^◌, [], ◌∷◌, ◌++◌, All, List, IfOk, OnOk};
ghost use Rattle.std.specs.Prelude.{false, map, replicate};
ghost use Rattle.radix_node.specs.Cells.{AreApart};
ghost use Rattle.radix_node.specs.Nodes.{pairs_of};
ghost use Rattle.watch_word.specs.Logs.{Cell};
ghost use Rattle.table_index.specs.Frozen.{AreFrozen, IsFrozen};
ghost use Rattle.table_index.specs.Table.{AreAllBelow, AreAllOf, AreNewInTurn};
ghost use Rattle.table_index.specs.inner.IndexTrees.{AreSound, new_tree_txn, plains, starts_of, trees_of};

use crate::notices::Notices;
use radix_node::{Ids, Tree};
use radix_txn::{Edit, Notice, TreeTxn};
use std::alloc::{AllocError, Global};
use watch_word::Front;

/// So many trees without keys, with an id for the cell of each root.
pub(crate) fn empty_trees(
    alloc: Global,
    count: usize,
    front: &Front,
    ids: &mut Ids,
) -> Result<Vec<Tree>, AllocError>
    requires book { front.now.book ≡ ids.old.book }
    requires left { ids.old.next + count ≤ 2 ^ 63 }
    ensures pairs { IfOk result
        (λ trees. map pairs_of (plains trees.items) ≡ replicate count []) }
    ensures below { IfOk result (λ trees. AreAllBelow ids.new.next trees.items) }
    ensures of { IfOk result (λ trees. AreAllOf ids.new.book trees.items) }
    ensures drawn { IfOk result (λ trees. AreNewInTurn front.now ids.old ids.new trees.items) }
    ensures book { ids.new.book ≡ ids.old.book }
    ensures later { ids.old.next ≤ ids.new.next }
    ensures few { OnOk result (ids.new.next ≤ ids.old.next + count) }
{
    let mut trees = Vec::new(alloc);
    for at in 0..count {
        trees.push(Tree::empty(alloc, front, ids)?)?;
    }
    Ok(trees)
}

/// Transactions that begin with these trees. It takes memory for the list.
pub(crate) fn begin(alloc: Global, trees: &[Tree]) -> Result<Vec<TreeTxn>, AllocError>
    ensures { IfOk result (λ txns. txns.items ≡ map new_tree_txn trees.now) }
{
    let mut txns = Vec::with_capacity(alloc, trees.len())?;
    for tree in trees {
        txns.push(tree.txn()?)?;
    }
    Ok(txns)
}

/// The present trees of transactions, which stay as they are. It takes memory for the list.
pub(crate) fn standing(alloc: Global, txns: &mut [TreeTxn]) -> Result<Vec<Tree>, AllocError>
    requires sound { AreSound txns.old }
    ensures trees { IfOk result (λ trees. trees.items ≡ trees_of txns.old) }
    ensures unchanged { txns.new ≡ txns.old }
{
    let mut trees = Vec::with_capacity(alloc, txns.len())?;
    for at in 0..txns.len() {
        let txn = &mut txns[at];
        trees.push(txn.stand()?)?;
    }
    Ok(trees)
}

/// No two cells of one tree have one id. It does nothing: its contract is the law.
pub(crate) fn cells_are_apart(trees: &[Tree])
    ensures { All AreApart trees.now }
{
    for tree in trees {
        let _ = tree.root();
    }
}

/// The trees that transactions end with, and their notices. It takes memory for both lists.
pub(crate) fn frozen(alloc: Global, txns: Vec<TreeTxn>) -> Result<(Vec<Tree>, Notices), AllocError>
    requires sound { AreSound txns.items }
    ensures trees { IfOk result (λ r. let trees = r.0 in trees.items ≡ trees_of txns.items) }
    ensures frozen { IfOk result
        (λ r. AreFrozen r.1 (starts_of txns.items) (trees_of txns.items)) }
{
    let mut trees = Vec::with_capacity(alloc, txns.len())?;
    let mut list = Vec::with_capacity(alloc, txns.len())?;
    freeze_each(txns, &mut trees, &mut list)?;
    Ok((trees, Notices { list }))
}

/// Adds the trees that transactions end with, and their notices, to two empty lists.
fn freeze_each(
    txns: Vec<TreeTxn>,
    trees: &mut Vec<Tree>,
    notices: &mut Vec<Notice>,
) -> Result<(), AllocError>
    requires sound { AreSound txns.items }
    requires no_trees { trees.old.items ≡ [] }
    requires no_notices { notices.old.items ≡ [] }
    ensures trees { OnOk result (trees.new.items ≡ trees_of txns.items) }
    ensures frozen { OnOk result
        (AreFrozen notices.new.items (starts_of txns.items) (trees_of txns.items)) }
{
    for txn in txns {
        freeze_into(txn, trees, notices)?;
    }
    Ok(())
}

/// Adds the tree that a transaction ends with to trees, and its notice to notices.
fn freeze_into(
    txn: TreeTxn,
    trees: &mut Vec<Tree>,
    notices: &mut Vec<Notice>,
) -> Result<(), AllocError>
    requires { txn.spoiled ≡ false }
    ensures tree { OnOk result (trees.new.items ≡ trees.old.items ++ txn.tree ∷ []) }
    ensures notice { OnOk result ((gone : List Cell) × IsFrozen gone txn.start txn.tree
        × (notices.new.items ≡ notices.old.items ++ gone ∷ [])) }
{
    let (tree, notice) = txn.freeze()?;
    trees.push(tree)?;
    notices.push(notice)?;
    Ok(())
}
