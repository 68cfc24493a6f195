//! Values under names.
ghost use Rattle.std.specs.Prelude.{◌≡◌, None, OnErr, OnOk, Some, cond, is_some, option_map};
ghost use Rattle.std.specs.Prelude.{string_bytes};
ghost use Rattle.std.specs.BTreeMap.{IsUnchanged, get_by_text};
ghost use Rattle.std.specs.Str.{bytes_eq};
ghost use Rattle.mdb_datum.specs.Bytes.{Bytes};

use mdb_datum::Text;
use std::alloc::{AllocError, Global};
use std::collections::BTreeMap;

/// Values of one kind, each under a name of its own.
#[derive(Drop)]
pub(crate) struct Named<T: Drop> {
    kept: BTreeMap<String, T, Global>,
}

impl<T: Drop> Named<T> {
    /// No values. It takes no memory.
    pub(crate) fn new(alloc: Global) -> Named<T>
        ensures { (name : Bytes) → get_by_text result.kept name ≡ None }
    {
        Named {
            kept: BTreeMap::new(alloc),
        }
    }

    /// The value of a name.
    pub(crate) fn get(&self, name: &Text) -> Option<&T>
        ensures { option_map (λ k. k.now) result ≡ get_by_text self.now.kept name.now }
    {
        self.kept.get(name.as_str())
    }

    /// Whether a value has this name.
    pub(crate) fn has(&self, name: &Text) -> bool
        ensures { result ≡ is_some (get_by_text self.now.kept name.now) }
    {
        self.kept.contains_key(name.as_str())
    }

    /// Keeps a value under a name, in the place of the one of that name. After `AllocError` all is
    /// as before.
    pub(crate) fn keep(&mut self, alloc: Global, name: &Text, value: T) -> Result<(), AllocError>
        ensures kept { OnOk result ((q : Bytes) → get_by_text self.new.kept q
            ≡ cond (bytes_eq name.now q) (Some value) (get_by_text self.old.kept q)) }
        ensures unchanged { OnErr result (IsUnchanged self.old.kept self.new.kept) }
    {
        let name = String::from_str(alloc, name.as_str())?;
        self.put(name, value)
    }

    /// Keeps a value under a name that is handed over.
    fn put(&mut self, name: String, value: T) -> Result<(), AllocError>
        ensures kept { OnOk result ((q : Bytes) → get_by_text self.new.kept q
            ≡ cond (bytes_eq (string_bytes name) q) (Some value) (get_by_text self.old.kept q)) }
        ensures unchanged { OnErr result (IsUnchanged self.old.kept self.new.kept) }
    {
        self.kept.insert(name, value)?;
        Ok(())
    }

    /// Takes the value of a name out.
    pub(crate) fn take(&mut self, name: &Text) -> Option<T>
        ensures taken { result ≡ get_by_text self.old.kept name.now }
        ensures left { (q : Bytes) → get_by_text self.new.kept q
            ≡ cond (bytes_eq name.now q) None (get_by_text self.old.kept q) }
    {
        self.kept.remove(name.as_str())
    }
}
