//! The keys of a list of texts, or of an object of texts.
ghost use Rattle.std.specs.Prelude.{◌≡◌, ◌++◌, [], IsOk, Ok, OnOk};
ghost use Rattle.mdb_encode.specs.KeyAnswers.{AnswersKeys};
ghost use Rattle.mdb_encode.specs.Keys.{limited};
ghost use Rattle.mdb_encode.specs.inner.RowReading.{piece_keys};
ghost use Rattle.mdb_encode.specs.inner.Tally.{CountsKeys};
ghost use Rattle.mdb_encode.specs.inner.Texts.{keys_from};

use super::tally::Tally;
use super::texts::Texts;
use crate::piece::Piece;
use crate::refusal::KeyRefusal;
use crate::{KeyError, Keys};
use std::alloc::{AllocError, Global};

/// The keys of the texts. It takes memory once it is known that none of them is refused.
pub(crate) fn text_keys(alloc: Global, texts: &Texts<'_>, lowercase: bool) -> Result<Keys, KeyError>
    ensures { AnswersKeys (limited (keys_from lowercase texts.now 0)) result }
{
    let count = count_texts(texts, lowercase)?;
    let mut keys = Keys::with_capacity(alloc, count)?;
    write_texts(alloc, texts, lowercase, &mut keys)?;
    Ok(keys)
}

/// How many keys the texts make, where none is refused.
fn count_texts(texts: &Texts<'_>, lowercase: bool) -> Result<usize, KeyRefusal>
    ensures { CountsKeys (keys_from lowercase texts.now 0) result }
{
    let mut tally = Tally::new();
    for at in 0..texts.len() {
        let piece = texts.read(at, lowercase)?;
        tally = tally.with(&piece);
    }
    tally.limited()
}

/// Adds the keys of the texts, none of which is refused, to an empty list.
fn write_texts(
    alloc: Global,
    texts: &Texts<'_>,
    lowercase: bool,
    keys: &mut Keys,
) -> Result<(), AllocError>
    requires kept { IsOk (keys_from lowercase texts.now 0) }
    requires empty { keys.old ≡ [] }
    ensures { OnOk result (keys_from lowercase texts.now 0 ≡ Ok keys.new) }
{
    for at in 0..texts.len() {
        match texts.read(at, lowercase) {
            Ok(piece) => push_piece(alloc, keys, &piece)?,
            Err(_) => unreachable!(),
        }
    }
    Ok(())
}

/// Adds the key of a piece, where there is one.
fn push_piece(alloc: Global, keys: &mut Keys, piece: &Option<Piece<'_>>) -> Result<(), AllocError>
    ensures { OnOk result (keys.new ≡ keys.old ++ piece_keys piece.now) }
{
    match piece {
        None => Ok(()),
        Some(piece) => keys.push(piece.key(alloc)?),
    }
}
