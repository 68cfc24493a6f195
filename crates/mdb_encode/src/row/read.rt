//! What a row's members put into a key, read and tested before any memory is taken.
ghost use Rattle.std.specs.Prelude.{◌≡◌};
ghost use Rattle.mdb_datum.specs.Doc.{list, object, doc_list, field_list};
ghost use Rattle.mdb_encode.specs.Keys.{str_keys, uint_keys, sint_keys, truth_keys, uuid_keys};
ghost use Rattle.mdb_encode.specs.Keys.{is_zero_value, same_scalar};
ghost use Rattle.mdb_encode.specs.Kind.{scalar_doc, width_bytes};
ghost use Rattle.mdb_encode.specs.inner.RowReading.{doc_at, keys_read};

use crate::fixed::{Id, Number};
use crate::identifier::parse_uuid;
use crate::number::{signed_number, unsigned_number};
use crate::piece::Piece;
use crate::refusal::KeyRefusal;
use crate::{Scalar, Width};
use mdb_datum::{Datum, Items, Members};

/// A text that is not empty.
pub(crate) fn read_str(
    value: Option<&Datum>,
    lowercase: bool,
) -> Result<Option<Piece<'_>>, KeyRefusal>
    ensures { keys_read result ≡ str_keys lowercase (doc_at value.entry) }
{
    match value {
        None | Some(Datum::Nil) => Ok(None),
        Some(Datum::Str(text)) if text.as_str().is_empty() => Ok(None),
        Some(Datum::Str(text)) => Ok(Some(Piece::Text(text.as_str(), lowercase))),
        Some(_) => Err(KeyRefusal::WrongKind),
    }
}

/// A number from 0 on.
pub(crate) fn read_uint(
    value: Option<&Datum>,
    width: Width,
) -> Result<Option<Piece<'_>>, KeyRefusal>
    ensures { keys_read result ≡ uint_keys (width_bytes width) (doc_at value.entry) }
{
    match value {
        None | Some(Datum::Nil) => Ok(None),
        Some(Datum::Whole(number)) => match unsigned_number(*number, width) {
            Some(number) => Ok(Some(Piece::Number(Number { number, width }))),
            None => Err(KeyRefusal::OutOfRange),
        },
        Some(_) => Err(KeyRefusal::WrongKind),
    }
}

/// A number of either sign.
pub(crate) fn read_sint(
    value: Option<&Datum>,
    width: Width,
) -> Result<Option<Piece<'_>>, KeyRefusal>
    ensures { keys_read result ≡ sint_keys (width_bytes width) (doc_at value.entry) }
{
    match value {
        None | Some(Datum::Nil) => Ok(None),
        Some(Datum::Whole(number)) => match signed_number(*number, width) {
            Some(number) => Ok(Some(Piece::Number(Number { number, width }))),
            None => Err(KeyRefusal::OutOfRange),
        },
        Some(_) => Err(KeyRefusal::WrongKind),
    }
}

/// A truth value.
pub(crate) fn read_flag(value: Option<&Datum>) -> Result<Option<Piece<'_>>, KeyRefusal>
    ensures { keys_read result ≡ truth_keys (doc_at value.entry) }
{
    match value {
        None | Some(Datum::Nil) => Ok(None),
        Some(Datum::Flag(value)) => Ok(Some(Piece::Flag(*value))),
        Some(_) => Err(KeyRefusal::WrongKind),
    }
}

/// A hyphenated UUID that is not empty.
pub(crate) fn read_uuid(value: Option<&Datum>) -> Result<Option<Piece<'_>>, KeyRefusal>
    ensures { keys_read result ≡ uuid_keys (doc_at value.entry) }
{
    match value {
        None | Some(Datum::Nil) => Ok(None),
        Some(Datum::Str(text)) if text.as_str().is_empty() => Ok(None),
        Some(Datum::Str(text)) => match parse_uuid(text.as_str()) {
            Some(bytes) => Ok(Some(Piece::Id(Id { bytes }))),
            None => Err(KeyRefusal::BadUuid),
        },
        Some(_) => Err(KeyRefusal::WrongKind),
    }
}

/// Whether the member is absent, or has the zero value of its type.
pub(crate) fn is_zero_value(value: Option<&Datum>) -> bool
    ensures { result ≡ is_zero_value (doc_at value.entry) }
{
    match value {
        None | Some(Datum::Nil) => true,
        Some(Datum::Flag(value)) => !*value,
        Some(Datum::Whole(number)) => *number == 0,
        Some(Datum::Str(text)) => text.as_str().is_empty(),
        Some(Datum::Items(items)) => has_no_items(items),
        Some(Datum::Members(members)) => has_no_members(members),
    }
}

/// Whether a list is empty.
#[tactic(auto, using(crate::proofs::ZeroValues::zero_items))]
fn has_no_items(items: &Items) -> bool
    ensures { result ≡ is_zero_value (list (doc_list items.now)) }
{
    items.len() == 0
}

/// Whether an object is empty.
#[tactic(auto, using(crate::proofs::ZeroValues::zero_members))]
fn has_no_members(members: &Members) -> bool
    ensures { result ≡ is_zero_value (object (field_list members.now)) }
{
    members.len() == 0
}

/// Whether the member equals a scalar. No list or object equals one.
pub(crate) fn is_same(value: Option<&Datum>, scalar: &Scalar) -> bool
    ensures { result ≡ same_scalar (doc_at value.entry) (scalar_doc scalar.now) }
{
    match (value, scalar) {
        (None | Some(Datum::Nil), Scalar::Nil) => true,
        (Some(Datum::Flag(value)), Scalar::Flag(wanted)) => *value == *wanted,
        (Some(Datum::Whole(value)), Scalar::Whole(wanted)) => *value == *wanted,
        (Some(Datum::Str(value)), Scalar::Str(wanted)) => value.as_str() == wanted.as_str(),
        _ => false,
    }
}
