//! The answer that a walk gives.
ghost use Rattle.std.specs.Prelude.{◌≡◌, IfOk};
ghost use Rattle.mdb_datum.specs.Pairs.{first_item};
ghost use Rattle.table_index.specs.inner.Collected.{answer_of};

use mdb_schema::{Answer, Ask, Rows};
use radix_iter::Walk;
use std::alloc::{AllocError, Global};

/// The answer to a question of this word, whose rows a walk gives. It takes memory for a list of
/// rows, and none for one row.
pub(crate) fn answer_of(alloc: Global, ask: Ask, walk: Walk<'_>) -> Result<Answer, AllocError>
    ensures { IfOk result (λ a. a ≡ answer_of ask walk.entry) }
{
    match ask {
        Ask::First | Ask::Last | Ask::Longest => one(walk),
        Ask::Get | Ask::GetReverse | Ask::Lower | Ask::ReverseLower => many(alloc, walk),
    }
}

/// An answer of the first row of a walk.
fn one(mut walk: Walk<'_>) -> Result<Answer, AllocError>
    ensures { IfOk result (λ a. a ≡ Answer.One (first_item walk.entry)) }
{
    Ok(Answer::One(walk.next()?))
}

/// An answer of the rows of a walk.
fn many(alloc: Global, walk: Walk<'_>) -> Result<Answer, AllocError>
    ensures { IfOk result (λ a. a ≡ Answer.Many walk.entry) }
{
    Ok(Answer::Many(gather(alloc, walk)?))
}

/// The rows of a walk.
pub(crate) fn gather(alloc: Global, mut walk: Walk<'_>) -> Result<Rows, AllocError>
    ensures { IfOk result (λ rows. rows ≡ walk.entry) }
{
    let mut rows = Rows::new(alloc);
    while let Some(row) = walk.next()? {
        rows.push(row)?;
    }
    Ok(rows)
}
