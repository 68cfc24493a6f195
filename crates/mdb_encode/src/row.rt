//! The keys of a row.
ghost use Rattle.std.specs.Prelude.{◌∷◌, [], Ok};
ghost use Rattle.mdb_encode.specs.KeyAnswers.{AnswersKeys};
ghost use Rattle.mdb_encode.specs.Keys.{keys, limited, str_list_keys, str_map_keys};
ghost use Rattle.mdb_encode.specs.Kind.{indexer_of, part_indexer};
ghost use Rattle.mdb_encode.specs.inner.Piece.{bytes_of};
ghost use Rattle.mdb_encode.specs.inner.RowReading.{doc_at};

mod compound;
mod listed;
mod part;
mod read;
mod tally;
mod texts;

use self::compound::compound_keys;
use self::listed::text_keys;
use self::part::{read_part, value_of};
use self::texts::Texts;
use crate::limit::LONGEST_KEY;
use crate::piece::Piece;
use crate::{KeyError, Keys, Kind, Part};
use mdb_datum::{Datum, Row};
use std::alloc::Global;

/// The keys under which a row stands in an index. No key: the row has none there.
///
/// Refused in this order: `WrongKind`, `OutOfRange` and `BadUuid`, in a compound index from the
/// left, then `TooMany`, then `TooLong`. It takes memory for the keys alone, and only where nothing
/// is refused. Each member that the index reads is found in the logarithm of the number of members;
/// beside that its time is linear in what it reads.
pub fn keys_of(alloc: Global, kind: &Kind, row: &Row) -> Result<Keys, KeyError>
    ensures { AnswersKeys (keys (indexer_of kind.now) row.now) result }
{
    match kind {
        Kind::Part(part) => part_keys(alloc, part, row),
        Kind::StrList { field, lowercase } => list_keys(alloc, value_of(row, field), *lowercase),
        Kind::StrMap { field, lowercase } => map_keys(alloc, value_of(row, field), *lowercase),
        Kind::Compound {
            parts,
            allow_missing,
        } => compound_keys(alloc, parts, *allow_missing, row),
    }
}

/// The key of an index of at most one key.
fn part_keys(alloc: Global, part: &Part, row: &Row) -> Result<Keys, KeyError>
    ensures { AnswersKeys (keys (part_indexer part.now) row.now) result }
{
    match read_part(part, row)? {
        None => Ok(Keys::new(alloc)),
        Some(piece) => piece_keys(alloc, &piece),
    }
}

/// The key of a piece, where it isn't too long.
fn piece_keys(alloc: Global, piece: &Piece<'_>) -> Result<Keys, KeyError>
    ensures { AnswersKeys (limited (Ok (bytes_of piece.now ∷ []))) result }
{
    if piece.len() > LONGEST_KEY {
        return Err(KeyError::TooLong);
    }
    Ok(Keys::of(alloc, piece.key(alloc)?)?)
}

/// The keys of the texts of a list.
fn list_keys(alloc: Global, value: Option<&Datum>, lowercase: bool) -> Result<Keys, KeyError>
    ensures { AnswersKeys (limited (str_list_keys lowercase (doc_at value.entry))) result }
{
    match value {
        None | Some(Datum::Nil) => Ok(Keys::new(alloc)),
        Some(Datum::Items(items)) => text_keys(alloc, &Texts::Items(items), lowercase),
        Some(_) => Err(KeyError::WrongKind),
    }
}

/// The keys of the texts of an object, with their names.
fn map_keys(alloc: Global, value: Option<&Datum>, lowercase: bool) -> Result<Keys, KeyError>
    ensures { AnswersKeys (limited (str_map_keys lowercase (doc_at value.entry))) result }
{
    match value {
        None | Some(Datum::Nil) => Ok(Keys::new(alloc)),
        Some(Datum::Members(members)) => text_keys(alloc, &Texts::Members(members), lowercase),
        Some(_) => Err(KeyError::WrongKind),
    }
}
