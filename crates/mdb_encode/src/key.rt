//! Keys, and the keys of one row in one index.
ghost use Rattle.std.specs.Prelude.{◌≡◌, ◌++◌, ◌∷◌, [], List, ℕ, length, is_ok, if◌then◌else◌};
ghost use Rattle.std.specs.Prelude.{slice_get, option_map, IfOk};
ghost use Rattle.std.specs.Slice.Iter.{iter_rest};

use std::alloc::{AllocError, Global};
use std::marker::Model;
use std::slice;

/// The bytes under which a row stands in an index, seen as the list of these bytes.
#[derive(Drop)]
pub struct Key {
    bytes: Vec<u8>,
}

impl Model for Key {
    ghost use Rattle.std.specs.Prelude.{List, ℕ};

    ghost Value = { List ℕ };

    ghost view = { λ k. k.bytes.items };
}

impl Key {
    /// A key of these bytes.
    pub(crate) fn of(bytes: Vec<u8>) -> Key
        ensures { result ≡ bytes.items }
    {
        Key { bytes }
    }

    /// The bytes.
    pub fn bytes(&self) -> &[u8]
        ensures { result.now ≡ self.now }
    {
        self.bytes.as_slice()
    }
}

/// The keys of one row in one index, seen as a list of byte strings.
#[derive(Drop)]
pub struct Keys {
    keys: Vec<Key>,
}

impl Model for Keys {
    ghost use Rattle.std.specs.Prelude.{List, ℕ};

    ghost Value = { List (List ℕ) };

    ghost view = { λ ks. ks.keys.items };
}

impl Keys {
    /// No keys. It takes no memory.
    pub(crate) fn new(alloc: Global) -> Keys
        ensures { result ≡ [] }
    {
        Keys {
            keys: Vec::new(alloc),
        }
    }

    /// One key.
    pub(crate) fn of(alloc: Global, key: Key) -> Result<Keys, AllocError>
        ensures { IfOk result (λ keys. keys ≡ key ∷ []) }
    {
        let mut keys = Vec::with_capacity(alloc, 1)?;
        keys.push(key)?;
        Ok(Keys { keys })
    }

    /// No keys, with memory for so many.
    pub(crate) fn with_capacity(alloc: Global, count: usize) -> Result<Keys, AllocError>
        ensures { IfOk result (λ keys. keys ≡ []) }
    {
        Ok(Keys {
            keys: Vec::with_capacity(alloc, count)?,
        })
    }

    /// How many there are.
    pub fn len(&self) -> usize
        ensures { result ≡ length self.now }
    {
        self.keys.len()
    }

    /// The key at a place, counted from 0.
    pub fn get(&self, at: usize) -> Option<&Key>
        ensures { option_map (λ k. k.now) result ≡ slice_get self.now at }
    {
        if at < self.keys.len() {
            Some(&self.keys[at])
        } else {
            None
        }
    }

    /// The keys, from the first.
    pub fn iter(&self) -> slice::Iter<'_, Key>
        ensures { iter_rest result ≡ self.now }
    {
        self.keys.iter()
    }

    /// Adds a key at the end. After want of memory the list is unchanged.
    pub(crate) fn push(&mut self, key: Key) -> Result<(), AllocError>
        ensures { self.new ≡ (if is_ok result then self.old ++ key ∷ [] else self.old) }
    {
        self.keys.push(key)?;
        Ok(())
    }
}
