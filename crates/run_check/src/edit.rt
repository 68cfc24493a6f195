//! Writes of rows: what is refused is told, and what isn't is written under all keys of the row.
ghost use Rattle.std.specs.Prelude.{◌≡◌, ◌<◌, [], IfOk, List, MatchResult, OnOk, is_some, length, map};
ghost use Rattle.std.specs.Prelude.{option_copied, Some, slice_get};
ghost use Rattle.mdb_datum.specs.Pairs.{rows_of, with_prefix};
ghost use Rattle.mdb_datum.specs.Row.{Fields};
ghost use Rattle.mdb_schema.specs.State.{row_at};
ghost use Rattle.mdb_schema.specs.Write.{is_among, put_row};
ghost use Rattle.run_check.specs.inner.EditView.{AnswersOldKeys, AnswersPut, AnswersRemove, AreOut};
ghost use Rattle.run_check.specs.inner.EditView.{AreReady, AreReplaced, AreSeen, IsAccepted};
ghost use Rattle.run_check.specs.inner.EditView.{IsFirst, IsIn, IsOut, IsReplaced, is_taken};
ghost use Rattle.run_check.specs.inner.EditView.{is_taken_at, keys_in, old_lists, seen_of};
ghost use Rattle.run_check.specs.inner.IndexView.{KeyVersions, MayWrite, pairs_seen};
ghost use Rattle.run_check.specs.inner.KeyView.{bytes_of};
ghost use Rattle.mdb_schema.specs.Edits.{stale_keys};
ghost use Rattle.mdb_schema.specs.ErrorsTold.{TellsRefusal};

use crate::index::{Index, Keys};
use crate::keys::{FullKeys, RowKeys, id_key, id_place, row_keys, told_place};
use crate::lookup::Lookup;
use crate::sight::{Sight, Stamp};
use mdb_datum::Row;
use mdb_schema::{TableDef, WriteError};
use std::alloc::{AllocError, Global};

/// The keys of a row that may be put, and of the row that it replaces, if there is one.
#[derive(Drop)]
struct PutKeys {
    new: RowKeys,
    old: Option<RowKeys>,
}

/// The row that is seen under an `id` key.
pub(crate) fn row_at<'a>(
    def: &TableDef,
    indexes: &'a [Index],
    id: &[u8],
    sight: Sight,
) -> Option<&'a Row>
    ensures { (rows : List Fields) → AreSeen def.now rows sight indexes.now
        → option_copied result ≡ row_at def.now id.now rows }
{
    indexes.get(id_place(def))?.row(id, sight)
}

/// The keys of the row that is seen under an `id` key.
fn old_keys(
    alloc: Global,
    def: &TableDef,
    indexes: &[Index],
    id: &[u8],
    sight: Sight,
) -> Result<Option<RowKeys>, WriteError>
    ensures { (rows : List Fields) → AreSeen def.now rows sight indexes.now
        → AnswersOldKeys def.now (row_at def.now id.now rows) result }
{
    // The definition is lawful by its type.
    let _ = def.len();
    match row_at(def, indexes, id, sight) {
        Some(row) => match row_keys(alloc, def, row) {
            Ok(keys) => Ok(Some(keys)),
            Err(error) => Err(error),
        },
        None => Ok(None),
    }
}

/// The full keys of a row that was there, in each index.
fn old_lists(old: Option<&RowKeys>) -> &[FullKeys]
    ensures { result.now ≡ old_lists (option_copied old.entry) }
{
    match old {
        Some(keys) => &keys.indexes,
        None => &[],
    }
}

/// The full keys in the index at a place.
fn keys_in(keys: &[FullKeys], place: usize) -> &[Vec<u8>]
    ensures { map bytes_of result.now ≡ keys_in keys.now place }
{
    match keys.get(place) {
        Some(full) => full.as_slice(),
        None => &[],
    }
}

/// Whether a key is one of these.
fn is_among(keys: &[Vec<u8>], key: &[u8]) -> bool
    ensures { result ≡ is_among (map bytes_of keys.now) key.now }
{
    for own in keys {
        if key == own.as_slice() {
            return true;
        }
    }
    false
}

/// Whether another row is seen under one of a row's full keys: under one that isn't an old key.
fn is_taken(index: &Index, new: &[Vec<u8>], old: &[Vec<u8>], sight: Sight) -> bool
    ensures { result
        ≡ is_taken (map bytes_of new.now) (map bytes_of old.now) (seen_of sight index.now) }
{
    for key in new {
        if index.row(key, sight).is_some() && !is_among(old, key) {
            return true;
        }
    }
    false
}

/// The first index in which another row is seen under one of a row's full keys.
fn taken_in(indexes: &[Index], new: &[FullKeys], old: &[FullKeys], sight: Sight) -> Option<usize>
    ensures { IsFirst (is_taken_at sight new.now old.now indexes.now) (length indexes.now) result }
{
    for at in 0..indexes.len() {
        let index = &indexes[at];
        if is_taken(index, keys_in(new, at), keys_in(old, at), sight) {
            return Some(at);
        }
    }
    None
}

/// Takes keys out of an index, but those that are kept.
fn take_out(
    alloc: Global,
    index: &mut Index,
    keys: &[Vec<u8>],
    kept: &[Vec<u8>],
    stamp: Stamp,
) -> Result<(), AllocError>
    requires { MayWrite stamp index.old }
    ensures { OnOk result (IsOut stamp (stale_keys (map bytes_of kept.now) (map bytes_of keys.now))
        index.old index.new) }
{
    for key in keys {
        if is_among(kept, key) {
            continue;
        }
        index.put(alloc, key, stamp, None)?;
    }
    Ok(())
}

/// Puts a row into an index under each of these keys.
fn put_in(
    alloc: Global,
    index: &mut Index,
    keys: &[Vec<u8>],
    row: &Row,
    stamp: Stamp,
) -> Result<(), AllocError>
    requires { MayWrite stamp index.old }
    ensures { OnOk result (IsIn stamp row.now (map bytes_of keys.now) index.old index.new) }
{
    for key in keys {
        index.put(alloc, key, stamp, Some(row.share()?))?;
    }
    Ok(())
}

/// Puts a row into an index in the place of the one of the old keys.
fn replace_in(
    alloc: Global,
    index: &mut Index,
    new: &[Vec<u8>],
    old: &[Vec<u8>],
    row: &Row,
    stamp: Stamp,
) -> Result<(), AllocError>
    requires { MayWrite stamp index.old }
    ensures { OnOk result (IsReplaced stamp row.now (map bytes_of new.now) (map bytes_of old.now)
        index.old index.new) }
{
    take_out(alloc, index, old, new, stamp)?;
    put_in(alloc, index, new, row, stamp)
}

/// Puts a row of these keys into each index, and takes out the one of the old keys.
fn replace(
    alloc: Global,
    indexes: &mut [Index],
    new: &[FullKeys],
    old: &[FullKeys],
    row: &Row,
    stamp: Stamp,
) -> Result<(), AllocError>
    requires { AreReady stamp indexes.old }
    ensures replaced { OnOk result (AreReplaced stamp row.now new.now old.now indexes.old indexes.new) }
    ensures long { OnOk result (length indexes.new ≡ length indexes.old) }
{
    for at in 0..indexes.len() {
        let index = &mut indexes[at];
        replace_in(alloc, index, keys_in(new, at), keys_in(old, at), row, stamp)?;
    }
    Ok(())
}

/// Takes the row of these keys out of each index.
fn take_all(
    alloc: Global,
    indexes: &mut [Index],
    keys: &[FullKeys],
    stamp: Stamp,
) -> Result<(), AllocError>
    requires { AreReady stamp indexes.old }
    ensures out { OnOk result (AreOut stamp keys.now indexes.old indexes.new) }
    ensures long { OnOk result (length indexes.new ≡ length indexes.old) }
{
    for at in 0..indexes.len() {
        let index = &mut indexes[at];
        take_out(alloc, index, keys_in(keys, at), &[], stamp)?;
    }
    Ok(())
}

/// The keys that a put takes out and puts in, if it isn't refused.
fn accepted_keys(
    alloc: Global,
    def: &TableDef,
    indexes: &[Index],
    row: &Row,
    sight: Sight,
) -> Result<PutKeys, WriteError>
    requires { length indexes.now ≡ length def.now.indexes }
    ensures { (rows : List Fields) → AreSeen def.now rows sight indexes.now
        → MatchResult result (IsAccepted def.now row.now rows)
        (TellsRefusal (put_row def.now row.now rows)) }
{
    let new = match row_keys(alloc, def, row) {
        Ok(keys) => keys,
        Err(error) => return Err(error),
    };
    let old = match old_keys(alloc, def, indexes, &new.id, sight) {
        Ok(keys) => keys,
        Err(error) => return Err(error),
    };
    match taken_in(indexes, &new.indexes, old_lists(old.as_ref()), sight) {
        Some(place) => Err(WriteError::KeyTaken {
            index: told_place(def, place),
        }),
        None => Ok(PutKeys { new, old }),
    }
}

/// Puts a row of these keys into each index, and tells its `id` key and whether it replaces another.
fn put_by_keys(
    alloc: Global,
    indexes: &mut [Index],
    keys: PutKeys,
    row: &Row,
    stamp: Stamp,
) -> Result<(Vec<u8>, bool), AllocError>
    requires { AreReady stamp indexes.old }
    ensures told { IfOk result (λ p. (p.0.items ≡ keys.new.id.items) × (p.1 ≡ is_some keys.old)) }
    ensures replaced { OnOk result (AreReplaced stamp row.now keys.new.indexes.items
        (old_lists keys.old) indexes.old indexes.new) }
    ensures long { OnOk result (length indexes.new ≡ length indexes.old) }
{
    let PutKeys { new, old } = keys;
    replace(
        alloc,
        indexes,
        &new.indexes,
        old_lists(old.as_ref()),
        row,
        stamp,
    )?;
    Ok((new.id, old.is_some()))
}

/// Puts a row in the place of the one of its `id` key, if there is one, and tells its `id` key and
/// whether there was.
pub(crate) fn put(
    alloc: Global,
    def: &TableDef,
    indexes: &mut [Index],
    row: &Row,
    sight: Sight,
    stamp: Stamp,
) -> Result<(Vec<u8>, bool), WriteError>
    requires ready { AreReady stamp indexes.old }
    requires all { length indexes.old ≡ length def.now.indexes }
    ensures done { (rows : List Fields) → AreSeen def.now rows sight indexes.old
        → AnswersPut def.now row.now rows stamp result indexes.old indexes.new }
    ensures long { OnOk result (length indexes.new ≡ length indexes.old) }
{
    match accepted_keys(alloc, def, indexes, row, sight) {
        Ok(keys) => Ok(put_by_keys(alloc, indexes, keys, row, stamp)?),
        Err(error) => Err(error),
    }
}

/// Takes out the row of another's `id` key, and tells that key.
pub(crate) fn remove(
    alloc: Global,
    def: &TableDef,
    indexes: &mut [Index],
    row: &Row,
    sight: Sight,
    stamp: Stamp,
) -> Result<Vec<u8>, WriteError>
    requires { AreReady stamp indexes.old }
    ensures done { (rows : List Fields) → AreSeen def.now rows sight indexes.old
        → AnswersRemove def.now row.now rows stamp result indexes.old indexes.new }
    ensures long { OnOk result (length indexes.new ≡ length indexes.old) }
{
    let id = match id_key(alloc, def, row) {
        Ok(id) => id,
        Err(error) => return Err(error),
    };
    match old_keys(alloc, def, indexes, &id, sight) {
        Ok(Some(old)) => {
            take_all(alloc, indexes, &old.indexes, stamp)?;
            Ok(id)
        }
        Ok(None) => Err(WriteError::NotFound),
        Err(error) => Err(error),
    }
}

/// Second owners of the rows that a question's index lists, in order; a row that it lists under
/// several keys comes several times.
pub(crate) fn listed(
    alloc: Global,
    indexes: &[Index],
    at: &Lookup,
    sight: Sight,
) -> Result<Vec<Row>, AllocError>
    requires { at.now.index < length indexes.now }
    ensures { IfOk result (λ rows. (x : KeyVersions) → slice_get indexes.now at.now.index ≡ Some x
        → rows.items ≡ rows_of (with_prefix at.now.key.items (seen_of sight x))) }
{
    let keys = Keys::with_prefix(alloc, &at.key)?;
    let found = indexes[at.index].rows(alloc, &keys, sight)?;
    shared(alloc, &found)
}

/// Second owners of rows.
fn shared(alloc: Global, found: &[&Row]) -> Result<Vec<Row>, AllocError>
    ensures { IfOk result (λ rows. rows.items ≡ map (λ r. r.now) found.now) }
{
    let mut rows = Vec::new(alloc);
    for row in found {
        rows.push(row.share()?)?;
    }
    Ok(rows)
}
