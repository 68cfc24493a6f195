//! The cells of an old tree that are gone.
ghost use Rattle.std.specs.Prelude.{◌≡◌, ◌≤◌, ◌<◌, [], IfErr, IfNone, IfOk, IfSome, length, map};
ghost use Rattle.std.specs.Arc.{arc_value};
ghost use Rattle.radix_txn.specs.Notice.{IsTold};

use radix_node::{LISTED_CELLS, Left, Tree};
use std::alloc::AllocError;
use std::marker::Model;
use std::sync::Arc;
use watch_word::WatchCell;

/// The cells of the tree that a transaction began with which aren't in its last one: those that are
/// to fire. Up to 8,192 are listed; where there are more, the notice has the two trees in place of
/// a list. Contracts see it as all these cells in either form.
#[derive(Drop)]
pub struct Notice {
    left: Left,
    trees: Option<(Tree, Tree)>,
}

impl Model for Notice {
    ghost use Rattle.std.specs.Prelude.{List};
    ghost use Rattle.watch_word.specs.Logs.{Cell};
    ghost use Rattle.radix_txn.specs.inner.Told.{HasForm};

    ghost Value = { List Cell };

    ghost view = { λ n. n.left };

    ghost invariant = { λ n. HasForm n.left n.trees };
}

impl Notice {
    /// The notice of the cells that have left an old tree on the way to a new one. It takes no
    /// memory. `AllocError` comes where the cells aren't listed and the kit's `Arc` refuses one more
    /// owner of the new tree's root.
    pub(crate) fn of(left: Left, old: Tree, new: &Tree) -> Result<Notice, AllocError>
        requires { 8192 < length left → IsTold left old new.now }
        ensures notice { IfOk result (λ n. n ≡ left) }
        ensures refused { IfErr result (λ _. 8192 < length left) }
    {
        if left.len() <= LISTED_CELLS {
            return Ok(Notice { left, trees: None });
        }
        let new = new.share()?;
        Ok(Notice {
            left,
            trees: Some((old, new)),
        })
    }

    /// How many cells there are, if they are listed.
    pub fn listed(&self) -> Option<u32>
        ensures listed { IfSome result (λ k. (k ≡ length self.now) × (k ≤ 8192)) }
        ensures beyond { IfNone result (8192 < length self.now) }
    {
        if self.trees.is_some() {
            return None;
        }
        Some(self.left.len() as u32)
    }

    /// The cells, if they are listed; else none.
    pub fn cells(&self) -> &[Arc<WatchCell>]
        ensures listed { length self.now ≤ 8192 → map arc_value result.now ≡ self.now }
        ensures beyond { 8192 < length self.now → result.now ≡ [] }
    {
        self.left.listed()
    }

    /// The old and the new tree, if the cells aren't listed.
    pub fn trees(&self) -> Option<(&Tree, &Tree)>
        ensures trees { IfSome result (λ t. IsTold self.now t.0.now t.1.now) }
        ensures beyond { IfSome result (λ _. 8192 < length self.now) }
        ensures listed { IfNone result (length self.now ≤ 8192) }
    {
        match &self.trees {
            None => None,
            Some((old, new)) => Some((old, new)),
        }
    }
}
