//! What a value says about commits.
ghost use Rattle.std.specs.Prelude.{◌≡◌, IfOk};
ghost use Rattle.std.specs.Arc.{arc_value};
ghost use Rattle.db_front.specs.inner.Copies.{AreCopies};

use std::alloc::{AllocError, Global};
use std::sync::Arc;

/// A value that stands for a list of commits. It says to contracts which values stand for which
/// lists, and which cells a commit fires.
///
/// A commit is a caller's number and the value that was committed, as contracts see it. The first
/// entry of a list is the opening value, under the number 0.
pub trait Version: Drop {
    ghost use Rattle.std.specs.Prelude.{ℕ, List};
    ghost use Rattle.watch_word.specs.Logs.{Log};

    /// The value stands for the list.
    ghost stands: { List (ℕ × Self) → Self → Type 0 };

    /// The log has every cell that the last commit of the list fires. Of a list that is the opening
    /// value alone this says which logs serve, as those of one book.
    ghost fired: { List (ℕ × Self) → Log → Type 0 };

    /// A second value that is the same to contracts, and shares with this one all that is large.
    fn copy(&self, alloc: Global) -> Result<Self, AllocError>
        ensures { IfOk result (λ v. v ≡ self.now) };
}

/// A copy of the value with a count of owners of its own.
pub(crate) fn copy_of<V: Version>(alloc: Global, value: &Arc<V>) -> Result<Arc<V>, AllocError>
    ensures { IfOk result (λ a. arc_value a ≡ arc_value value.now) }
{
    let copy = value.copy(alloc)?;
    Ok(Arc::new(alloc, copy)?)
}

/// Such a copy for each caller below the last one.
pub(crate) fn copies_of<V: Version>(
    alloc: Global,
    value: &Arc<V>,
    callers: u64,
) -> Result<Vec<Arc<V>>, AllocError>
    ensures { IfOk result (λ copies. AreCopies (arc_value value.now) copies.items) }
{
    let mut copies = Vec::with_capacity(alloc, callers.saturating_sub(1) as usize)?;
    for _ in 1..callers {
        copies.push(copy_of(alloc, value)?)?;
    }
    Ok(copies)
}
