//! The keys of a question's arguments.
ghost use Rattle.std.specs.Prelude.{◌≡◌, ◌≢◌, Err};
ghost use Rattle.mdb_encode.specs.KeyAnswers.{AnswersKey};
ghost use Rattle.mdb_encode.specs.Arguments.{arg, pre, raw_arg, raw_pre, map_arg, limited_arg};
ghost use Rattle.mdb_encode.specs.Arguments.{one, text_arg, text_pre, uuid_pre};
ghost use Rattle.mdb_encode.specs.Kind.{indexer_of, part_indexer};
ghost use Rattle.mdb_encode.specs.inner.ArgReading.{arg_read};
ghost use Rattle.mdb_encode.specs.inner.ArgForms.{IsOnly};

mod compound;
mod read;

use self::compound::{compound_exact, compound_prefix};
use self::read::{arg_text, prefix_text, prefix_uuid, read_arg};
use crate::item::item_at;
use crate::limit::LONGEST_KEY;
use crate::piece::Piece;
use crate::refusal::ArgRefusal;
use crate::{ArgError, Key, Kind, Part};
use mdb_datum::{Datum, Items};
use std::alloc::Global;

/// The key of an exact question: the arguments stand for the values of an index's members.
///
/// Refused: `ArgCount`, then for each argument from the left `ArgKind`, `OutOfRange` or `BadUuid`,
/// then `TooLong`. It takes memory for the key alone, and only where nothing is refused.
#[tactic(auto, using(crate::proofs::Exact::answer_exact))]
pub fn arg_key(alloc: Global, kind: &Kind, args: &Items) -> Result<Key, ArgError>
    ensures key { AnswersKey (arg (indexer_of kind.now) args.now) result }
    ensures exact { result ≢ Err ArgError.NoPrefixForm }
{
    match kind {
        Kind::Part(part) => piece_answer(alloc, read_only_arg(part, args)),
        Kind::StrList { lowercase, .. } => piece_answer(alloc, read_only_text(args, *lowercase)),
        Kind::StrMap { lowercase, .. } => piece_answer(alloc, read_map_arg(args, *lowercase)),
        Kind::Compound { parts, .. } => compound_exact(alloc, parts, args),
    }
}

/// The prefix form: the key of a question for all keys that begin with it.
///
/// Refused as by `arg_key`, and `NoPrefixForm` for an index that has none, first; of a compound
/// index at its last argument.
pub fn prefix_key(alloc: Global, kind: &Kind, args: &Items) -> Result<Key, ArgError>
    ensures { AnswersKey (pre (indexer_of kind.now) args.now) result }
{
    match kind {
        Kind::Part(part) => piece_answer(alloc, read_only_prefix(part, args)),
        Kind::StrList { lowercase, .. } => piece_answer(alloc, read_only_start(args, *lowercase)),
        Kind::StrMap { .. } => Err(ArgError::NoPrefixForm),
        Kind::Compound { parts, .. } => compound_prefix(alloc, parts, args),
    }
}

/// The only argument.
#[tactic(auto, using(crate::proofs::Forms::only_arg))]
fn only(args: &Items) -> Result<&Datum, ArgRefusal>
    ensures { IsOnly args.now result }
{
    if args.len() == 1 {
        Ok(item_at(args, 0))
    } else {
        Err(ArgRefusal::ArgCount)
    }
}

/// The only argument of an index of at most one key.
#[tactic(auto, using(crate::proofs::Forms::other_count))]
fn read_only_arg<'a>(part: &Part, args: &'a Items) -> Result<Piece<'a>, ArgRefusal>
    ensures { arg_read result ≡ raw_arg (part_indexer part.now) args.now }
{
    read_arg(part, only(args)?)
}

/// The only argument of an index of at most one key, in the prefix form.
fn read_only_prefix<'a>(part: &Part, args: &'a Items) -> Result<Piece<'a>, ArgRefusal>
    ensures { arg_read result ≡ raw_pre (part_indexer part.now) args.now }
{
    match part {
        Part::Str { lowercase, .. } => read_only_start(args, *lowercase),
        Part::Uuid { .. } => read_only_uuid(args),
        _ => Err(ArgRefusal::NoPrefixForm),
    }
}

/// The only argument, which is a text.
#[tactic(auto, using(crate::proofs::Forms::one_other))]
fn read_only_text(args: &Items, lowercase: bool) -> Result<Piece<'_>, ArgRefusal>
    ensures { arg_read result ≡ one (text_arg lowercase) args.now }
{
    arg_text(only(args)?, lowercase)
}

/// The only argument, which is the start of a text.
#[tactic(auto, using(crate::proofs::Forms::one_other))]
fn read_only_start(args: &Items, lowercase: bool) -> Result<Piece<'_>, ArgRefusal>
    ensures { arg_read result ≡ one (text_pre lowercase) args.now }
{
    prefix_text(only(args)?, lowercase)
}

/// The only argument, which is the start of a UUID.
#[tactic(auto, using(crate::proofs::Forms::one_other))]
fn read_only_uuid(args: &Items) -> Result<Piece<'_>, ArgRefusal>
    ensures { arg_read result ≡ one uuid_pre args.now }
{
    prefix_uuid(only(args)?)
}

/// A name, or a name and a value.
fn read_map_arg(args: &Items, lowercase: bool) -> Result<Piece<'_>, ArgRefusal>
    ensures { arg_read result ≡ map_arg lowercase args.now }
{
    if args.len() == 1 {
        return match item_at(args, 0) {
            Datum::Str(name) => Ok(Piece::Text(name.as_str(), lowercase)),
            _ => Err(ArgRefusal::ArgKind),
        };
    }
    if args.len() == 2 {
        return match (item_at(args, 0), item_at(args, 1)) {
            (Datum::Str(name), Datum::Str(value)) => Ok(Piece::Pair(
                name.as_str(),
                value.as_str(),
                lowercase,
            )),
            _ => Err(ArgRefusal::ArgKind),
        };
    }
    Err(ArgRefusal::ArgCount)
}

/// The key of a piece that is not too long.
fn piece_answer(alloc: Global, read: Result<Piece<'_>, ArgRefusal>) -> Result<Key, ArgError>
    ensures { AnswersKey (limited_arg (arg_read read.entry)) result }
{
    let piece = read?;
    if piece.len() > LONGEST_KEY {
        return Err(ArgError::TooLong);
    }
    Ok(piece.key(alloc)?)
}
