//! The full keys of a row in one index.
ghost use Rattle.std.specs.Prelude.{◌≡◌, ◌≤◌, ◌<◌, ◌++◌, ◌∷◌, [], IfOk, OnOk, All, length, map};
ghost use Rattle.std.specs.Prelude.{if◌then◌else◌, replicate};
ghost use Rattle.mdb_schema.specs.State.{full_key};
ghost use Rattle.mdb_schema.specs.Write.{is_among};
ghost use Rattle.table_index.specs.inner.Keys.{IsShort};

use crate::id_key::IdKey;
use mdb_encode::{Key, Keys};
use mdb_schema::IndexDef;
use std::alloc::{AllocError, Global};
use std::marker::Model;

/// The bytes under which a tree holds a row, at most 2,048, seen as the list of these bytes.
#[derive(Drop)]
pub(crate) struct FullKey {
    bytes: Vec<u8>,
}

impl Model for FullKey {
    ghost use Rattle.std.specs.Prelude.{List, ℕ, ◌≤◌, length};

    ghost Value = { List ℕ };

    ghost view = { λ k. k.bytes.items };

    ghost invariant = { λ k. length k.bytes.items ≤ 2048 };
}

impl FullKey {
    /// The full key of a key: of a unique index the key alone, else the key and behind it the row's
    /// `id` key. It takes memory for the bytes.
    fn of(alloc: Global, index: &IndexDef, id: &IdKey, key: &Key) -> Result<FullKey, AllocError>
        requires { IsShort key.now }
        ensures { IfOk result (λ k. k ≡ full_key index.now id.now key.now) }
    {
        let key = key.bytes();
        let rest = rest_of(index, id);
        let mut bytes = Vec::with_capacity(alloc, key.len() + rest.len())?;
        bytes.extend_from_slice(key)?;
        bytes.extend_from_slice(rest)?;
        Ok(FullKey { bytes })
    }

    /// The full key of an `id` key in the index `id`. It takes memory for the bytes.
    fn of_id(alloc: Global, id: &IdKey) -> Result<FullKey, AllocError>
        ensures { IfOk result (λ k. k ≡ id.now) }
    {
        Ok(FullKey {
            bytes: id.bytes().to_vec(alloc)?,
        })
    }

    /// The bytes.
    pub(crate) fn bytes(&self) -> &[u8]
        ensures bytes { result.now ≡ self.now }
        ensures short { length result.now ≤ 2048 }
    {
        self.bytes.as_slice()
    }
}

/// What stands behind a key in an index: nothing in a unique one, else the row's `id` key.
fn rest_of<'a>(index: &IndexDef, id: &'a IdKey) -> &'a [u8]
    ensures rest { result.now ≡ (if index.now.unique then [] else id.now) }
    ensures short { IsShort result.now }
{
    if index.unique() { &[] } else { id.bytes() }
}

/// The full keys of one row in one index, at most 256, seen as a list of byte strings.
#[derive(Drop)]
pub(crate) struct FullKeys {
    keys: Vec<FullKey>,
}

impl Model for FullKeys {
    ghost use Rattle.std.specs.Prelude.{List, ℕ, ◌≤◌, length};

    ghost Value = { List (List ℕ) };

    ghost view = { λ ks. ks.keys.items };

    ghost invariant = { λ ks. length ks.keys.items ≤ 256 };
}

impl FullKeys {
    /// The full keys of a row's keys in an index. It takes memory for them.
    pub(crate) fn of(
        alloc: Global,
        index: &IndexDef,
        id: &IdKey,
        keys: &Keys,
    ) -> Result<FullKeys, AllocError>
        requires short { All IsShort keys.now }
        requires few { length keys.now ≤ 256 }
        ensures { IfOk result (λ found. found ≡ map (full_key index.now id.now) keys.now) }
    {
        let mut full = FullKeys::with_capacity(alloc, keys.len())?;
        for at in 0..keys.len() {
            let Some(key) = keys.get(at) else {
                unreachable!();
            };
            full.add(alloc, index, id, key)?;
        }
        Ok(full)
    }

    /// Adds the full key of a key.
    fn add(
        &mut self,
        alloc: Global,
        index: &IndexDef,
        id: &IdKey,
        key: &Key,
    ) -> Result<(), AllocError>
        requires short { IsShort key.now }
        requires room { length self.old < 256 }
        ensures { OnOk result
            (self.new ≡ self.old ++ full_key index.now id.now key.now ∷ []) }
    {
        let full = FullKey::of(alloc, index, id, key)?;
        Ok(self.keys.push(full)?)
    }

    /// The only full key of a row in the index `id`. It takes memory for it.
    pub(crate) fn of_id(alloc: Global, id: &IdKey) -> Result<FullKeys, AllocError>
        ensures { IfOk result (λ found. found ≡ id.now ∷ []) }
    {
        let mut full = FullKeys::with_capacity(alloc, 1)?;
        full.keys.push(FullKey::of_id(alloc, id)?)?;
        Ok(full)
    }

    /// No keys, with memory for so many.
    fn with_capacity(alloc: Global, count: usize) -> Result<FullKeys, AllocError>
        ensures { IfOk result (λ found. found ≡ []) }
    {
        Ok(FullKeys {
            keys: Vec::with_capacity(alloc, count)?,
        })
    }

    /// No keys.
    fn none(alloc: Global) -> FullKeys
        ensures { result ≡ [] }
    {
        FullKeys {
            keys: Vec::new(alloc),
        }
    }

    /// The keys.
    pub(crate) fn keys(&self) -> &[FullKey]
        ensures keys { result.now ≡ self.now }
        ensures few { length result.now ≤ 256 }
    {
        self.keys.as_slice()
    }

    /// Whether a key is one of these.
    pub(crate) fn contains(&self, key: &FullKey) -> bool
        ensures { result ≡ is_among self.now key.now }
    {
        let keys = self.keys.as_slice();
        for own in keys {
            if key.bytes() == own.bytes() {
                return true;
            }
        }
        false
    }
}

/// The full keys of one row in each index of a table, seen as a list of lists of byte strings.
#[derive(Drop)]
pub(crate) struct RowKeys {
    keys: Vec<FullKeys>,
}

impl Model for RowKeys {
    ghost use Rattle.std.specs.Prelude.{List, ℕ};

    ghost Value = { List (List (List ℕ)) };

    ghost view = { λ ks. ks.keys.items };
}

impl RowKeys {
    /// These full keys, each at its index's place.
    pub(crate) fn of(keys: Vec<FullKeys>) -> RowKeys
        ensures { result ≡ keys.items }
    {
        RowKeys { keys }
    }

    /// No full keys in so many indexes. It takes memory for the list.
    pub(crate) fn none(alloc: Global, count: usize) -> Result<RowKeys, AllocError>
        ensures { IfOk result (λ keys. keys ≡ replicate count []) }
    {
        let mut keys = Vec::with_capacity(alloc, count)?;
        for at in 0..count {
            keys.push(FullKeys::none(alloc))?;
        }
        Ok(RowKeys { keys })
    }

    /// The full keys, each at its index's place.
    pub(crate) fn lists(&self) -> &[FullKeys]
        ensures { result.now ≡ self.now }
    {
        self.keys.as_slice()
    }
}
