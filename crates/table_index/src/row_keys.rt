//! The keys of a row in the indexes of a table, with the refusals that come of them.
ghost use Rattle.std.specs.Prelude.{◌≡◌, ◌<◌, ◌≤◌, ◌∷◌, [], All, IfOk, Ok, Some, codes, length};
ghost use Rattle.std.specs.Prelude.{slice_get};
ghost use Rattle.mdb_datum.specs.Pairs.{first_item};
ghost use Rattle.mdb_datum.specs.Row.{Fields};
ghost use Rattle.mdb_encode.specs.Keys.{keys};
ghost use Rattle.mdb_schema.specs.Schema.{index_place};
ghost use Rattle.mdb_schema.specs.Tests.{each, needed};
ghost use Rattle.mdb_schema.specs.Write.{Placed, full_keys_at, id_of, indexes_of, keys_at, no_id};
ghost use Rattle.table_index.specs.inner.Keys.{IsTestedResult, IsShort};

use crate::full_key::{FullKeys, RowKeys};
use crate::id_key::IdKey;
use mdb_datum::Row;
use mdb_encode::{Keys, keys_of};
use mdb_schema::{IndexDef, TableDef, WriteError};
use std::alloc::Global;

/// An index's place as errors tell it.
pub(crate) fn told_place(def: &TableDef, at: usize) -> u32
    requires { at < length def.now.indexes }
    ensures { result ≡ at }
{
    let count = def.len();
    prove!(at < count);
    at as u32
}

/// The place of the index `id`.
pub(crate) fn id_place(def: &TableDef) -> usize
    ensures placed { Some result ≡ index_place (codes "id") def.now.indexes }
    ensures within { result < length def.now.indexes }
{
    // The definition is lawful by its type.
    let _ = def.len();
    let Some(place) = def.find("id") else {
        unreachable!();
    };
    place
}

/// The keys of a row in the index at a place.
fn keys_in(alloc: Global, place: u32, index: &IndexDef, row: &Row) -> Result<Keys, WriteError>
    ensures answers { IsTestedResult (keys_at place (keys index.now.indexer row.now)) result }
    ensures short { IfOk result (λ found. All IsShort found) }
    ensures few { IfOk result (λ found. length found ≤ 256) }
{
    match keys_of(alloc, index.kind(), row) {
        Ok(found) => Ok(found),
        Err(error) => Err(WriteError::of_key(place, error)),
    }
}

/// The `id` key of a row. It takes memory for the row's keys in the index `id`.
pub(crate) fn id_key_of(alloc: Global, def: &TableDef, row: &Row) -> Result<IdKey, WriteError>
    ensures { IsTestedResult (id_of def.now row.now) result }
{
    let place = id_place(def);
    let Some(index) = def.index(place) else {
        unreachable!();
    };
    match keys_in(alloc, told_place(def, place), index, row) {
        Ok(found) => first_key(found),
        Err(error) => Err(error),
    }
}

/// The `id` key of a row that has these keys in the index `id`.
fn first_key(found: Keys) -> Result<IdKey, WriteError>
    requires { All IsShort found }
    ensures { IsTestedResult (needed no_id (first_item found)) result }
{
    match IdKey::of(found) {
        Some(id) => Ok(id),
        None => Err(WriteError::NoId),
    }
}

/// The full keys of a row in the index at a place, which has to take the row. In the index `id`
/// that is its `id` key, which isn't made again.
fn full_keys_in(
    alloc: Global,
    place: u32,
    index: &IndexDef,
    id: &IdKey,
    row: &Row,
) -> Result<FullKeys, WriteError>
    requires { index.now.name ≡ codes "id" → keys index.now.indexer row.now ≡ Ok (id.now ∷ []) }
    ensures { IsTestedResult (full_keys_at id.now row.now (place, index.now)) result }
{
    if index.name().as_str() == "id" {
        return Ok(FullKeys::of_id(alloc, id)?);
    }
    full_keys_made(alloc, place, index, id, row)
}

/// The full keys of a row in the index at a place, made of its keys there.
fn full_keys_made(
    alloc: Global,
    place: u32,
    index: &IndexDef,
    id: &IdKey,
    row: &Row,
) -> Result<FullKeys, WriteError>
    ensures { IsTestedResult (full_keys_at id.now row.now (place, index.now)) result }
{
    match keys_in(alloc, place, index, row) {
        Ok(found) => full_keys_by(alloc, place, index, id, &found),
        Err(error) => Err(error),
    }
}

/// The full keys of a row that has these keys in the index at a place.
fn full_keys_by(
    alloc: Global,
    place: u32,
    index: &IndexDef,
    id: &IdKey,
    found: &Keys,
) -> Result<FullKeys, WriteError>
    requires short { All IsShort found.now }
    requires few { length found.now ≤ 256 }
    ensures { (row : Fields) → keys_at place (keys index.now.indexer row) ≡ Ok found.now
        → IsTestedResult (full_keys_at id.now row (place, index.now)) result }
{
    if !index.allow_missing() && found.len() == 0 {
        return Err(WriteError::Missing { index: place });
    }
    Ok(FullKeys::of(alloc, index, id, found)?)
}

/// The full keys of a row of an `id` key in the index at a place, if it takes the row.
fn full_keys_at(
    alloc: Global,
    def: &TableDef,
    at: usize,
    id: &IdKey,
    row: &Row,
) -> Result<FullKeys, WriteError>
    requires known { id_of def.now row.now ≡ Ok id.now }
    requires within { at < length def.now.indexes }
    ensures { (index : Placed) × (Some index ≡ slice_get (indexes_of def.now) at)
        × IsTestedResult (full_keys_at id.now row.now index) result }
{
    // The definition is lawful by its type.
    let _ = def.len();
    let Some(index) = def.index(at) else {
        unreachable!();
    };
    full_keys_in(alloc, told_place(def, at), index, id, row)
}

/// The full keys of a row of an `id` key in each index, if each takes the row. It takes memory for
/// them, and time in their lengths.
pub(crate) fn full_keys_of(
    alloc: Global,
    def: &TableDef,
    id: &IdKey,
    row: &Row,
) -> Result<RowKeys, WriteError>
    requires { id_of def.now row.now ≡ Ok id.now }
    ensures { IsTestedResult (each (full_keys_at id.now row.now) (indexes_of def.now)) result }
{
    let mut found = Vec::with_capacity(alloc, def.len())?;
    for at in 0..def.len() {
        match full_keys_at(alloc, def, at, id, row) {
            Ok(keys) => found.push(keys)?,
            Err(error) => return Err(error),
        }
    }
    Ok(RowKeys::of(found))
}
