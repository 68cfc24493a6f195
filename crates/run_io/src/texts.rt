//! A list of texts.
ghost use Rattle.std.specs.Prelude.{◌≡◌, ◌<◌, ◌-◌, ◌^◌, ◌++◌, ◌∷◌, [], length, is_ok};
ghost use Rattle.std.specs.Prelude.{if◌then◌else◌, slice_get, option_copied};
ghost use Rattle.std.specs.Slice.Iter.{iter_rest};

use mdb_datum::Text;
use std::alloc::{AllocError, Global};
use std::marker::Model;
use std::slice;

/// Texts, in the order in which they were added, seen as a list of byte strings. There are fewer
/// than 2^32, so that each has a number, counted from 1.
#[derive(Drop)]
pub struct Texts {
    texts: Vec<Text>,
}

impl Model for Texts {
    ghost use Rattle.std.specs.Prelude.{List, ◌<◌, ◌^◌, vec_len};
    ghost use Rattle.mdb_datum.specs.Bytes.{Bytes};

    ghost Value = { List Bytes };

    ghost view = { λ t. t.texts.items };

    ghost invariant = { λ t. vec_len t.texts < 2 ^ 32 };
}

impl Texts {
    /// No texts. It takes no memory.
    pub fn new(alloc: Global) -> Texts
        ensures { result ≡ [] }
    {
        Texts {
            texts: Vec::new(alloc),
        }
    }

    /// How many there are.
    pub fn len(&self) -> usize
        ensures count { result ≡ length self.now }
        ensures few { result < 2 ^ 32 }
    {
        self.texts.len()
    }

    /// Adds a text at the end. After `AllocError`, which comes too where there are 2^32 - 1, the
    /// list is unchanged.
    pub fn push(&mut self, text: Text) -> Result<(), AllocError>
        ensures { self.new ≡ (if is_ok result then self.old ++ text ∷ [] else self.old) }
    {
        if self.texts.len() >= u32::MAX as usize {
            return Err(AllocError);
        }
        self.texts.push(text)?;
        Ok(())
    }

    /// The text at a place, counted from 0.
    pub fn get(&self, at: usize) -> Option<&Text>
        ensures { option_copied result ≡ slice_get self.now at }
    {
        self.texts.get(at)
    }

    /// The texts, in order.
    pub fn iter(&self) -> slice::Iter<'_, Text>
        ensures { iter_rest result ≡ self.now }
    {
        self.texts.iter()
    }

    /// The same as a slice.
    pub(crate) fn as_slice(&self) -> &[Text]
        ensures texts { result.now ≡ self.now }
        ensures few { length result.now < 2 ^ 32 }
    {
        &self.texts
    }
}
