//! Names that a client gives to what it keeps.
ghost use Rattle.std.specs.Prelude.{◌≡◌, ◌++◌, ◌∷◌, [], IfOk, None, OnErr, OnOk, length, option_map};
ghost use Rattle.std.specs.Prelude.{slice_get, vec_len};
ghost use Rattle.run_check.specs.inner.NamedView.{place_in, value_named};

use mdb_datum::Text;
use std::alloc::{AllocError, Global};
use std::collections::BTreeMap;
use std::marker::Model;

/// Names, no two of which are the same, in the order in which they were added. They are seen as the
/// list of their texts.
#[derive(Drop)]
pub(crate) struct Names<'a> {
    places: BTreeMap<String, usize, Global>,
    list: Vec<&'a Text>,
}

impl<'a> Model for Names<'a> {
    ghost use Rattle.std.specs.Prelude.{List};
    ghost use Rattle.mdb_datum.specs.Bytes.{Bytes};
    ghost use Rattle.run_check.specs.inner.PlacesOfNames.{ArePlaces, texts_of};

    ghost Value = { List Bytes };

    ghost view = { λ n. texts_of n.list.items };

    ghost invariant = { λ n. ArePlaces n.places (texts_of n.list.items) };
}

impl<'a> Names<'a> {
    /// No names. It takes no memory.
    pub(crate) fn new(alloc: Global) -> Names<'a>
        ensures { result ≡ [] }
    {
        Names {
            places: BTreeMap::new(alloc),
            list: Vec::new(alloc),
        }
    }

    /// The place of a name.
    pub(crate) fn place(&self, name: &Text) -> Option<usize>
        ensures { result ≡ place_in name.now self.now }
    {
        self.places.get(name.as_str()).copied()
    }

    /// The name at a place.
    pub(crate) fn at(&self, place: usize) -> Option<&'a Text>
        ensures { option_map (λ name. name.now) result ≡ slice_get self.now place }
    {
        self.list.get(place).copied()
    }

    /// Adds a name that is another than all. After `AllocError` all is as before.
    pub(crate) fn add(&mut self, alloc: Global, name: &'a Text) -> Result<(), AllocError>
        requires { place_in name.now self.old ≡ None }
        ensures added { OnOk result (self.new ≡ self.old ++ name.now ∷ []) }
        ensures kept { OnErr result (self.new ≡ self.old) }
    {
        let key = String::from_str(alloc, name.as_str())?;
        self.list.reserve(1)?;
        self.places.insert(key, self.list.len())?;
        if self.list.push(name).is_err() {
            unreachable!();
        }
        Ok(())
    }
}

/// Values of one kind, each under a name of its own, in the order in which they were added.
#[derive(Drop)]
pub(crate) struct Named<'a, T: Drop> {
    pub(crate) names: Names<'a>,
    pub(crate) values: Vec<T>,
    // Each value has a name.
    ghost paired: { length names ≡ vec_len values },
}

impl<'a, T: Drop> Named<'a, T> {
    /// No values. It takes no memory.
    pub(crate) fn new(alloc: Global) -> Named<'a, T>
        ensures names { result.names ≡ [] }
        ensures values { result.values.items ≡ [] }
    {
        Named {
            names: Names::new(alloc),
            values: Vec::new(alloc),
        }
    }

    /// The value of a name.
    pub(crate) fn get(&self, name: &Text) -> Option<&T>
        ensures { option_map (λ v. v.now) result
            ≡ value_named name.now self.now.names self.now.values.items }
    {
        self.at(self.names.place(name)?)
    }

    /// The value at a place.
    pub(crate) fn at(&self, place: usize) -> Option<&T>
        ensures { option_map (λ v. v.now) result ≡ slice_get self.now.values.items place }
    {
        self.values.get(place)
    }

    /// Adds a value under a name that none has, and tells its place.
    pub(crate) fn add(
        &mut self,
        alloc: Global,
        name: &'a Text,
        value: T,
    ) -> Result<usize, AllocError>
        requires { place_in name.now self.old.names ≡ None }
        ensures place { IfOk result (λ place. place ≡ length self.old.values.items) }
        ensures names { OnOk result (self.new.names ≡ self.old.names ++ name.now ∷ []) }
        ensures values { OnOk result (self.new.values.items ≡ self.old.values.items ++ value ∷ []) }
    {
        let place = self.values.len();
        self.values.reserve(1)?;
        self.names.add(alloc, name)?;
        if self.values.push(value).is_err() {
            unreachable!();
        }
        Ok(place)
    }
}
