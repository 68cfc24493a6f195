//! The key of a row under several parts, joined.
ghost use Rattle.std.specs.Prelude.{◌≡◌, ◌∷◌, [], IfOk, Ok, OnOk};
ghost use Rattle.mdb_encode.specs.KeyAnswers.{AnswersKeys};
ghost use Rattle.mdb_encode.specs.Keys.{joined_keys, limited};
ghost use Rattle.mdb_encode.specs.inner.KeyLength.{MeasuresKey, HasOneKey};
ghost use Rattle.mdb_encode.specs.inner.CompoundParts.{parts_of};

use super::part::read_part;
use crate::limit::LONGEST_KEY;
use crate::refusal::KeyRefusal;
use crate::{Key, KeyError, Keys, Parts};
use mdb_datum::Row;
use std::alloc::{AllocError, Global};

/// The key of a row under several parts. It takes memory once it is known that no part is refused.
pub(crate) fn compound_keys(
    alloc: Global,
    parts: &Parts,
    allow_missing: bool,
    row: &Row,
) -> Result<Keys, KeyError>
    ensures { AnswersKeys
        (limited (joined_keys allow_missing [] (parts_of parts.now) row.now)) result }
{
    match compound_len(parts, allow_missing, row)? {
        None => Ok(Keys::new(alloc)),
        Some(len) if len > LONGEST_KEY => Err(KeyError::TooLong),
        Some(len) => {
            let key = compound_key(alloc, parts, allow_missing, row, len)?;
            Ok(Keys::of(alloc, key)?)
        }
    }
}

/// How many bytes the key has, or the greatest count that there is; nothing where the row has no
/// key.
fn compound_len(parts: &Parts, allow_missing: bool, row: &Row) -> Result<Option<usize>, KeyRefusal>
    ensures { MeasuresKey
        (joined_keys allow_missing [] (parts_of parts.now) row.now) result }
{
    let mut len: usize = 0;
    for part in parts.iter() {
        let Some(piece) = read_part(part, row)? else {
            return Ok(allow_missing.then_some(len));
        };
        len = len.saturating_add(piece.len());
    }
    Ok(Some(len))
}

/// The key of a row that has one, in memory for so many bytes.
fn compound_key(
    alloc: Global,
    parts: &Parts,
    allow_missing: bool,
    row: &Row,
    len: usize,
) -> Result<Key, AllocError>
    requires one { HasOneKey (joined_keys allow_missing [] (parts_of parts.now) row.now) }
    ensures { IfOk result (λ key.
        joined_keys allow_missing [] (parts_of parts.now) row.now ≡ Ok (key ∷ [])) }
{
    let mut bytes = Vec::with_capacity(alloc, len)?;
    write_parts(parts, allow_missing, row, &mut bytes)?;
    Ok(Key::of(bytes))
}

/// Writes the key of a row that has one into an empty buffer.
fn write_parts(
    parts: &Parts,
    allow_missing: bool,
    row: &Row,
    bytes: &mut Vec<u8>,
) -> Result<(), AllocError>
    requires one { HasOneKey (joined_keys allow_missing [] (parts_of parts.now) row.now) }
    requires empty { bytes.old.items ≡ [] }
    ensures { OnOk result (joined_keys allow_missing [] (parts_of parts.now) row.now
        ≡ Ok (bytes.new.items ∷ [])) }
{
    for part in parts.iter() {
        match read_part(part, row) {
            Ok(Some(piece)) => piece.write(bytes)?,
            // A row that has a key lacks a part only where the key may end there.
            Ok(None) => return Ok(()),
            Err(_) => unreachable!(),
        }
    }
    Ok(())
}
