//! The arguments of several parts, joined.
ghost use Rattle.std.specs.Prelude.{◌≡◌, ◌++◌, ◌+◌, ◌<◌, ◌≤◌, ◌==◌, ◌≢◌, ◌&&◌, [], length, drop, ℕ};
ghost use Rattle.std.specs.Prelude.{Ok, Err, OnOk};
ghost use Rattle.mdb_encode.specs.KeyAnswers.{AnswersKey};
ghost use Rattle.mdb_encode.specs.inner.ArgReading.{arg_read, joined_form, exact_parts};
ghost use Rattle.mdb_encode.specs.inner.ArgReading.{prefix_parts, MeasuresArg, HasKey};
ghost use Rattle.mdb_encode.specs.Arguments.{limited_arg, then_with};
ghost use Rattle.mdb_encode.specs.Bytes.{Bytes};
ghost use Rattle.mdb_encode.specs.Kind.{indexers_of, part_list};
ghost use Rattle.mdb_encode.specs.inner.CompoundParts.{parts_of};

use super::read::read_form;
use crate::item::item_at;
use crate::limit::LONGEST_KEY;
use crate::piece::Piece;
use crate::refusal::ArgRefusal;
use crate::{ArgError, Key, Parts};
use mdb_datum::Items;
use std::alloc::{AllocError, Global};

/// The exact key, which takes an argument for each part.
#[tactic(auto, using(crate::proofs::Forms::part_count_list))]
pub(crate) fn compound_exact(alloc: Global, parts: &Parts, args: &Items) -> Result<Key, ArgError>
    ensures key { AnswersKey
        (limited_arg (exact_parts (parts_of parts.now) args.now)) result }
    ensures exact { result ≢ Err ArgError.NoPrefixForm }
{
    if args.len() != parts.len() {
        return Err(ArgError::ArgCount);
    }
    compound_arg(alloc, parts, args, false)
}

/// The prefix form, which takes from one argument to as many as there are parts.
#[tactic(auto, using(crate::proofs::Forms::part_count_list))]
pub(crate) fn compound_prefix(alloc: Global, parts: &Parts, args: &Items) -> Result<Key, ArgError>
    ensures { AnswersKey
        (limited_arg (prefix_parts (parts_of parts.now) args.now)) result }
{
    if args.len() == 0 {
        return Err(ArgError::ArgCount);
    }
    if args.len() > parts.len() {
        return Err(ArgError::ArgCount);
    }
    compound_arg(alloc, parts, args, true)
}

/// The key of the arguments of several parts, exact or in the prefix form. It takes memory once it
/// is known that no argument is refused.
fn compound_arg(
    alloc: Global,
    parts: &Parts,
    args: &Items,
    is_prefix: bool,
) -> Result<Key, ArgError>
    requires room { length args.now ≤ length (indexers_of parts.now) }
    ensures { AnswersKey
        (limited_arg (joined_form is_prefix [] (parts_of parts.now) args.now)) result }
{
    let len = args_len(parts, args, is_prefix)?;
    if len > LONGEST_KEY {
        return Err(ArgError::TooLong);
    }
    let mut bytes = Vec::with_capacity(alloc, len)?;
    write_args(parts, args, is_prefix, &mut bytes)?;
    Ok(Key::of(bytes))
}

/// What the argument at a place puts into the key, behind what stands so far. The last one is read
/// in the prefix form, where that is asked.
fn read_next<'a>(
    parts: &Parts,
    args: &'a Items,
    at: usize,
    is_prefix: bool,
) -> Result<Piece<'a>, ArgRefusal>
    requires there { at < length args.now }
    requires room { length args.now ≤ length (indexers_of parts.now) }
    ensures { (so_far : Bytes)
        → let form = λ (key : Bytes) (n : ℕ). joined_form is_prefix key
        (part_list (drop n (indexers_of parts.now))) (drop n args.now) in
        form so_far at ≡ then_with (arg_read result) (λ key. form (so_far ++ key) (at + 1)) }
{
    let is_last = is_prefix_place(args, at, is_prefix);
    read_form(parts.part(at), item_at(args, at), is_last)
}

/// Whether the argument at a place is read in the prefix form.
#[tactic(auto, using(crate::proofs::Forms::last_place))]
fn is_prefix_place(args: &Items, at: usize, is_prefix: bool) -> bool
    requires { at < length args.now }
    ensures { result ≡ (is_prefix && (length (drop at args.now) == 1)) }
{
    let count = args.len();
    is_prefix && at + 1 == count
}

/// How many bytes the key has.
#[tactic(auto, using(crate::proofs::Forms::joined_form_end))]
fn args_len(parts: &Parts, args: &Items, is_prefix: bool) -> Result<usize, ArgRefusal>
    requires room { length args.now ≤ length (indexers_of parts.now) }
    ensures { MeasuresArg
        (joined_form is_prefix [] (parts_of parts.now) args.now) result }
{
    let mut len: usize = 0;
    for at in 0..args.len() {
        let piece = read_next(parts, args, at, is_prefix)?;
        len = len.saturating_add(piece.len());
    }
    Ok(len)
}

/// Writes the key of arguments none of which is refused into an empty buffer.
#[tactic(auto, using(crate::proofs::Forms::joined_form_end))]
fn write_args(
    parts: &Parts,
    args: &Items,
    is_prefix: bool,
    bytes: &mut Vec<u8>,
) -> Result<(), AllocError>
    requires room { length args.now ≤ length (indexers_of parts.now) }
    requires key { HasKey (joined_form is_prefix [] (parts_of parts.now) args.now) }
    requires empty { bytes.old.items ≡ [] }
    ensures { OnOk result (joined_form is_prefix [] (parts_of parts.now) args.now
        ≡ Ok bytes.new.items) }
{
    for at in 0..args.len() {
        match read_next(parts, args, at, is_prefix) {
            Ok(piece) => piece.write(bytes)?,
            Err(_) => unreachable!(),
        }
    }
    Ok(())
}
