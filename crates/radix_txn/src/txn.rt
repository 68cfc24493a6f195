//! Transactions on a tree.
mod writes;

ghost use Rattle.std.specs.Prelude.{◌≡◌, ◌<◌, ℕ, List, false, IfErr, IfOk, length, option_copied};
ghost use Rattle.radix_node.specs.Cells.{AreBelow};
ghost use Rattle.radix_node.specs.Pairs.{find};
ghost use Rattle.radix_node.specs.Watches.{HoldsWatched};
ghost use Rattle.radix_txn.specs.Notice.{IsNotice, IsOpened};
ghost use Rattle.radix_txn.specs.Txn.{txn_pairs};
ghost use Rattle.watch_word.specs.Logs.{Cell};

use crate::notice::Notice;
use mdb_datum::Row;
use radix_node::{Left, Tree};
use std::alloc::AllocError;
use std::marker::Model;

/// A tree that is being changed: a map from keys to rows. What others own of its nodes stays whole
/// for them; its own nodes are changed in place. Contracts see it as the tree that it began with,
/// its present one, and whether it is spoiled.
#[derive(Drop)]
pub struct TreeTxn {
    start: Tree,
    state: State,
    spoiled: bool,
}

/// The present tree, and what has become of the first one's cells.
#[derive(Drop)]
pub(crate) struct State {
    tree: Tree,
    changed: bool,
    /// The first id that was drawn, once something was changed.
    first: u64,
    /// The first id of those drawn since the tree was last shared; none where none was drawn since.
    mark: Option<u64>,
    /// The cells of the first tree that are gone.
    left: Left,
}

impl Model for TreeTxn {
    ghost use Rattle.radix_txn.specs.Txn.{Txn};
    ghost use Rattle.radix_txn.specs.Codes.{txn_code};

    ghost Value = { Txn };

    ghost coded = { txn_code };

    ghost use Rattle.radix_txn.specs.inner.Unspoiled.{HoldsUnlessSpoiled};

    ghost view = { λ t. record { start = t.start; tree = t.state.tree; spoiled = t.spoiled } };

    ghost invariant = { HoldsUnlessSpoiled };
}

impl TreeTxn {
    /// A transaction that begins with a tree, of which it gets two owners.
    pub(crate) fn of(start: Tree, tree: Tree) -> TreeTxn
        requires { tree ≡ start }
        ensures { result ≡ record { start = start; tree = tree; spoiled = false } }
    {
        let left = Left::new(tree.root().edges().allocator());
        TreeTxn {
            start,
            state: State {
                tree,
                changed: false,
                first: 0,
                mark: None,
                left,
            },
            spoiled: false,
        }
    }

    /// Whether an earlier write found no memory.
    pub fn spoiled(&self) -> bool
        ensures { result ≡ self.now.spoiled }
    {
        self.spoiled
    }

    /// How many keys there are.
    pub fn len(&self) -> u64
        ensures { result ≡ length (txn_pairs self.now) }
    {
        self.state.tree.len()
    }

    /// The row under a key. It takes no memory, and time in the length of the key, with a binary
    /// search among the edges at each node on the way.
    pub fn get(&self, key: &[u8]) -> Option<&Row>
        requires sound { self.now.spoiled ≡ false }
        ensures { option_copied result ≡ find key.now (txn_pairs self.now) }
    {
        self.state.tree.get(key)
    }

    /// The present tree, to be looked at. Unlike [`TreeTxn::stand`] it leaves the transaction's own
    /// nodes its own, so that later writes still change them in place.
    pub fn tree(&self) -> &Tree
        ensures { result.now ≡ self.now.tree }
    {
        &self.state.tree
    }

    /// The present tree, which later writes don't change. It takes no memory. `AllocError` comes
    /// where the kit's `Arc` refuses one more owner of the root.
    pub fn stand(&mut self) -> Result<Tree, AllocError>
        requires sound { self.old.spoiled ≡ false }
        ensures tree { IfOk result (λ t. t ≡ self.old.tree) }
        ensures unchanged { self.new ≡ self.old }
    {
        self.state.mark = None;
        self.state.tree.share()
    }

    /// The tree that the transaction ends with, and the notice of the cells that are gone. What is
    /// watched in the tree that it began with is in the notice, or it is as it was. It takes no
    /// memory. `AllocError` comes where more than 8,192 cells are gone and the kit's `Arc` refuses
    /// one more owner of the root.
    pub fn freeze(self) -> Result<(Tree, Notice), AllocError>
        requires sound { self.spoiled ≡ false }
        ensures tree { IfOk result (λ r. r.0 ≡ self.tree) }
        ensures notice { IfOk result (λ r. IsNotice r.1 self.start self.tree) }
        ensures held { IfOk result (λ r. HoldsWatched self.start self.tree) }
        ensures opened { IfOk result (λ r. (first : ℕ) × AreBelow first self.start
            × IsOpened first self.start self.tree) }
        ensures refused { IfErr result (λ _. (cells : List Cell)
            × IsNotice cells self.start self.tree × (8192 < length cells)) }
    {
        // Brings the shapes of both trees, and that the first has no id twice, into the proof.
        let _ = self.start.root();
        let _ = self.state.tree.root();
        let TreeTxn { start, state, .. } = self;
        let State { tree, left, .. } = state;
        let notice = Notice::of(left, start, &tree)?;
        Ok((tree, notice))
    }
}
