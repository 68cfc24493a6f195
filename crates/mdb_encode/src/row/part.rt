//! What a row puts into the key of an index of at most one key, which may also be a part of a
//! compound one.
ghost use Rattle.std.specs.Prelude.{◌≡◌};
ghost use Rattle.mdb_encode.specs.Keys.{raw_keys, value_at};
ghost use Rattle.mdb_encode.specs.Kind.{name_of, part_indexer};
ghost use Rattle.mdb_encode.specs.inner.RowReading.{doc_at, keys_read};

use super::read::{is_same, is_zero_value, read_flag, read_sint, read_str, read_uint, read_uuid};
use crate::piece::Piece;
use crate::refusal::KeyRefusal;
use crate::{Field, Part};
use mdb_datum::{Datum, Row};

/// What a part puts into the key of a row, or nothing where the row has no key there.
pub(crate) fn read_part<'a>(part: &Part, row: &'a Row) -> Result<Option<Piece<'a>>, KeyRefusal>
    ensures { keys_read result ≡ raw_keys (part_indexer part.now) row.now }
{
    match part {
        Part::Str { field, lowercase } => read_str(value_of(row, field), *lowercase),
        Part::Uint { field, width } => read_uint(value_of(row, field), *width),
        Part::Sint { field, width } => read_sint(value_of(row, field), *width),
        Part::Flag { field } => read_flag(value_of(row, field)),
        Part::Uuid { field } => read_uuid(value_of(row, field)),
        Part::IsSet { field } => Ok(Some(Piece::Flag(!is_zero_value(value_of(row, field))))),
        Part::Equals { field, scalar } => Ok(Some(Piece::Flag(is_same(
            value_of(row, field),
            scalar,
        )))),
    }
}

/// The member of a row that an index reads. It is found in the logarithm of the number of members.
pub(crate) fn value_of<'a>(row: &'a Row, field: &Field) -> Option<&'a Datum>
    ensures { doc_at result ≡ value_at (name_of field.now) row.now }
{
    row.get(field.name())
}
