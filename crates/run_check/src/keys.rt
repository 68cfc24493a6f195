//! The full keys of a row in the indexes of its table.
ghost use Rattle.std.specs.Prelude.{◌≡◌, ◌<◌, ◌++◌, [], IfOk, Some, codes, length, map};
ghost use Rattle.std.specs.Prelude.{if◌then◌else◌, slice_get};
ghost use Rattle.mdb_datum.specs.Pairs.{first_item};
ghost use Rattle.mdb_encode.specs.Keys.{keys};
ghost use Rattle.mdb_schema.specs.LawfulSchema.{IsLawfulTable};
ghost use Rattle.mdb_schema.specs.Schema.{index_place};
ghost use Rattle.mdb_schema.specs.Tests.{each, needed};
ghost use Rattle.mdb_schema.specs.Write.{Placed, full_keys_at, id_of, indexes_of, keys_at, no_id};
ghost use Rattle.run_check.specs.inner.KeyView.{AnswersBy, AnswersRowKeys, bytes_of, keys_of, lists_of};

use mdb_datum::Row;
use mdb_encode::{Keys, keys_of};
use mdb_schema::{IndexDef, TableDef, WriteError};
use std::alloc::{AllocError, Global};

/// Full keys of a row in one index.
pub(crate) type FullKeys = Vec<Vec<u8>>;

/// The `id` key of a row, and its full keys in each index.
#[derive(Drop)]
pub(crate) struct RowKeys {
    pub(crate) id: Vec<u8>,
    pub(crate) indexes: Vec<FullKeys>,
}

/// An index's place as errors tell it.
pub(crate) fn told_place(def: &TableDef, at: usize) -> u32
    requires { at < length def.now.indexes }
    ensures { result ≡ at }
{
    let count = def.len();
    prove!(at < count);
    at as u32
}

/// The place of the index `id`.
pub(crate) fn id_place(def: &TableDef) -> usize
    ensures placed { Some result ≡ index_place (codes "id") def.now.indexes }
    ensures within { result < length def.now.indexes }
    ensures lawful { IsLawfulTable def.now }
{
    // The definition is lawful by its type.
    let _ = def.len();
    let Some(place) = def.find("id") else {
        unreachable!();
    };
    place
}

/// The keys of a row in the index at a place, without what makes them full.
fn keys_at(alloc: Global, place: u32, index: &IndexDef, row: &Row) -> Result<Keys, WriteError>
    ensures { AnswersBy (λ ks. ks) (keys_at place (keys index.now.indexer row.now)) result }
{
    match keys_of(alloc, index.kind(), row) {
        Ok(keys) => Ok(keys),
        Err(error) => Err(WriteError::of_key(place, error)),
    }
}

/// The first of some keys.
fn first_key(alloc: Global, keys: &Keys) -> Result<Vec<u8>, WriteError>
    ensures { AnswersBy bytes_of (needed no_id (first_item keys.now)) result }
{
    match keys.get(0) {
        Some(key) => Ok(key.bytes().to_vec(alloc)?),
        None => Err(WriteError::NoId),
    }
}

/// The `id` key of a row, which has to have one.
pub(crate) fn id_key(alloc: Global, def: &TableDef, row: &Row) -> Result<Vec<u8>, WriteError>
    ensures { AnswersBy bytes_of (id_of def.now row.now) result }
{
    let place = id_place(def);
    let Some(index) = def.index(place) else {
        unreachable!();
    };
    let keys = keys_at(alloc, told_place(def, place), index, row)?;
    first_key(alloc, &keys)
}

/// The `id` key and the full keys of a row, or the first rule that it breaks: of the index `id`, and
/// then of each index in order.
pub(crate) fn row_keys(alloc: Global, def: &TableDef, row: &Row) -> Result<RowKeys, WriteError>
    ensures { AnswersRowKeys def.now row.now result }
{
    let id = id_key(alloc, def, row)?;
    let indexes = full_keys_of(alloc, def, &id, row)?;
    Ok(RowKeys { id, indexes })
}

/// The full keys of a row of an `id` key in each index, if each takes the row.
fn full_keys_of(
    alloc: Global,
    def: &TableDef,
    id: &[u8],
    row: &Row,
) -> Result<Vec<FullKeys>, WriteError>
    ensures { AnswersBy lists_of (each (full_keys_at id.now row.now) (indexes_of def.now)) result }
{
    let mut found = Vec::new(alloc);
    for at in 0..def.len() {
        match full_keys_at(alloc, def, at, id, row) {
            Ok(keys) => found.push(keys)?,
            Err(error) => return Err(error),
        }
    }
    Ok(found)
}

/// The full keys of a row of an `id` key in the index at a place, if it takes the row.
fn full_keys_at(
    alloc: Global,
    def: &TableDef,
    at: usize,
    id: &[u8],
    row: &Row,
) -> Result<FullKeys, WriteError>
    requires { at < length def.now.indexes }
    ensures { (index : Placed) × (Some index ≡ slice_get (indexes_of def.now) at)
        × AnswersBy keys_of (full_keys_at id.now row.now index) result }
{
    let Some(index) = def.index(at) else {
        unreachable!();
    };
    full_keys_in(alloc, told_place(def, at), index, id, row)
}

/// The same in an index that has been found.
fn full_keys_in(
    alloc: Global,
    place: u32,
    index: &IndexDef,
    id: &[u8],
    row: &Row,
) -> Result<FullKeys, WriteError>
    ensures { AnswersBy keys_of (full_keys_at id.now row.now (place, index.now)) result }
{
    let keys = keys_at(alloc, place, index, row)?;
    if !index.allow_missing() && keys.len() == 0 {
        return Err(WriteError::Missing { index: place });
    }
    Ok(with_ending(alloc, &keys, ending(index, id))?)
}

/// What stands behind a key in an index: nothing in a unique one, else the row's `id` key.
fn ending<'a>(index: &IndexDef, id: &'a [u8]) -> &'a [u8]
    ensures { result.now ≡ (if index.now.unique then [] else id.now) }
{
    if index.unique() { &[] } else { id }
}

/// Keys with these bytes behind each.
fn with_ending(alloc: Global, keys: &Keys, ending: &[u8]) -> Result<FullKeys, AllocError>
    ensures { IfOk result (λ full. keys_of full ≡ map (λ key. key ++ ending.now) keys.now) }
{
    let mut full = Vec::new(alloc);
    for at in 0..keys.len() {
        let Some(key) = keys.get(at) else {
            unreachable!();
        };
        full.push(joined(alloc, key.bytes(), ending)?)?;
    }
    Ok(full)
}

/// Bytes, and others behind them.
pub(crate) fn joined(alloc: Global, front: &[u8], back: &[u8]) -> Result<Vec<u8>, AllocError>
    ensures { IfOk result (λ whole. whole.items ≡ front.now ++ back.now) }
{
    [front, back].concat(alloc)
}
