//! What one argument puts into a key, read and tested before any memory is taken.
ghost use Rattle.std.specs.Prelude.{◌≡◌, ◌∷◌, [], if◌then◌else◌};
ghost use Rattle.mdb_datum.specs.Datum.{doc_of};
ghost use Rattle.mdb_encode.specs.inner.ArgReading.{arg_read};
ghost use Rattle.mdb_encode.specs.Arguments.{text_arg, text_pre, uint_arg, sint_arg, truth_arg};
ghost use Rattle.mdb_encode.specs.Arguments.{uuid_arg, uuid_pre, raw_arg, raw_pre};
ghost use Rattle.mdb_encode.specs.Kind.{part_indexer, width_bytes};

use crate::fixed::{Id, Number};
use crate::identifier::{parse_start, parse_uuid};
use crate::number::{signed_number, unsigned_number};
use crate::piece::Piece;
use crate::refusal::ArgRefusal;
use crate::{Part, Width};
use mdb_datum::Datum;

/// An argument for the value of one member.
pub(crate) fn read_arg<'a>(part: &Part, value: &'a Datum) -> Result<Piece<'a>, ArgRefusal>
    ensures { arg_read result ≡ raw_arg (part_indexer part.now) (doc_of value.now ∷ []) }
{
    match part {
        Part::Str { lowercase, .. } => arg_text(value, *lowercase),
        Part::Uint { width, .. } => arg_uint(value, *width),
        Part::Sint { width, .. } => arg_sint(value, *width),
        Part::Flag { .. } | Part::IsSet { .. } | Part::Equals { .. } => arg_flag(value),
        Part::Uuid { .. } => arg_uuid(value),
    }
}

/// An argument in the prefix form.
fn read_prefix<'a>(part: &Part, value: &'a Datum) -> Result<Piece<'a>, ArgRefusal>
    ensures { arg_read result ≡ raw_pre (part_indexer part.now) (doc_of value.now ∷ []) }
{
    match part {
        Part::Str { lowercase, .. } => prefix_text(value, *lowercase),
        Part::Uuid { .. } => prefix_uuid(value),
        _ => Err(ArgRefusal::NoPrefixForm),
    }
}

/// An argument for a part, exact or in the prefix form.
pub(crate) fn read_form<'a>(
    part: &Part,
    value: &'a Datum,
    is_prefix: bool,
) -> Result<Piece<'a>, ArgRefusal>
    ensures { arg_read result ≡ (if is_prefix
        then raw_pre (part_indexer part.now) (doc_of value.now ∷ [])
        else raw_arg (part_indexer part.now) (doc_of value.now ∷ [])) }
{
    if is_prefix {
        read_prefix(part, value)
    } else {
        read_arg(part, value)
    }
}

/// The key of a text.
pub(crate) fn arg_text(value: &Datum, lowercase: bool) -> Result<Piece<'_>, ArgRefusal>
    ensures { arg_read result ≡ text_arg lowercase (doc_of value.now) }
{
    match value {
        Datum::Str(text) => Ok(Piece::Text(text.as_str(), lowercase)),
        _ => Err(ArgRefusal::ArgKind),
    }
}

/// The key of a number from 0 on, in so many bytes.
fn arg_uint(value: &Datum, width: Width) -> Result<Piece<'_>, ArgRefusal>
    ensures { arg_read result ≡ uint_arg (width_bytes width) (doc_of value.now) }
{
    match value {
        Datum::Whole(number) => match unsigned_number(*number, width) {
            Some(number) => Ok(Piece::Number(Number { number, width })),
            None => Err(ArgRefusal::OutOfRange),
        },
        _ => Err(ArgRefusal::ArgKind),
    }
}

/// The key of a number of either sign, in so many bytes.
fn arg_sint(value: &Datum, width: Width) -> Result<Piece<'_>, ArgRefusal>
    ensures { arg_read result ≡ sint_arg (width_bytes width) (doc_of value.now) }
{
    match value {
        Datum::Whole(number) => match signed_number(*number, width) {
            Some(number) => Ok(Piece::Number(Number { number, width })),
            None => Err(ArgRefusal::OutOfRange),
        },
        _ => Err(ArgRefusal::ArgKind),
    }
}

/// The key of a truth value.
fn arg_flag(value: &Datum) -> Result<Piece<'_>, ArgRefusal>
    ensures { arg_read result ≡ truth_arg (doc_of value.now) }
{
    match value {
        Datum::Flag(value) => Ok(Piece::Flag(*value)),
        _ => Err(ArgRefusal::ArgKind),
    }
}

/// The key of a hyphenated UUID.
fn arg_uuid(value: &Datum) -> Result<Piece<'_>, ArgRefusal>
    ensures { arg_read result ≡ uuid_arg (doc_of value.now) }
{
    match value {
        Datum::Str(text) => match parse_uuid(text.as_str()) {
            Some(bytes) => Ok(Piece::Id(Id { bytes })),
            None => Err(ArgRefusal::BadUuid),
        },
        _ => Err(ArgRefusal::ArgKind),
    }
}

/// The bytes with which the keys of the texts with this prefix begin.
pub(crate) fn prefix_text(value: &Datum, lowercase: bool) -> Result<Piece<'_>, ArgRefusal>
    ensures { arg_read result ≡ text_pre lowercase (doc_of value.now) }
{
    match value {
        Datum::Str(text) => Ok(Piece::Open(text.as_str(), lowercase)),
        _ => Err(ArgRefusal::ArgKind),
    }
}

/// The bytes with which the keys of the UUIDs with this start begin.
pub(crate) fn prefix_uuid(value: &Datum) -> Result<Piece<'_>, ArgRefusal>
    ensures { arg_read result ≡ uuid_pre (doc_of value.now) }
{
    match value {
        Datum::Str(text) => match parse_start(text.as_str()) {
            Some(start) => Ok(Piece::Start(start)),
            None => Err(ArgRefusal::BadUuid),
        },
        _ => Err(ArgRefusal::ArgKind),
    }
}
