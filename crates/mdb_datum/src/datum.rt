//! Documents as values.
ghost use Rattle.std.specs.Prelude.{◌≡◌, ◌++◌, ◌∷◌, [], length, is_ok, if◌then◌else◌, slice_get};
ghost use Rattle.std.specs.Prelude.{option_map, map};
ghost use Rattle.std.specs.Slice.Iter.{iter_rest};
ghost use Rattle.mdb_datum.specs.Datum.{doc_of, field_of};
ghost use Rattle.mdb_datum.specs.Doc.{member};

use crate::Text;
use std::alloc::{AllocError, Global};
use std::marker::Model;
use std::slice;

/// A JSON value whose numbers are whole.
#[cycle(datum)]
#[derive(Drop)]
pub enum Datum {
    /// `null`.
    Nil,
    /// `true` or `false`.
    Flag(bool),
    /// A number. What is read fits a `u64` or an `i64`.
    Whole(i128),
    /// A string.
    Str(Text),
    /// An array.
    Items(Items),
    /// An object.
    Members(Members),
}

/// The items of a list, in order, seen as their documents.
#[cycle(datum)]
#[derive(Drop)]
pub struct Items {
    pub(crate) items: Vec<Datum>,
}

/// The members of an object in canonical form, in the order of their names' bytes.
#[cycle(datum)]
#[derive(Drop)]
pub struct Members {
    pub(crate) pairs: Vec<(Text, Datum)>,
}

impl Model for Items {
    ghost use Rattle.std.specs.Prelude.{List, map};
    ghost use Rattle.mdb_datum.specs.Doc.{Doc};
    ghost use Rattle.mdb_datum.specs.Canonical.{docs_nesting};
    ghost use Rattle.mdb_datum.specs.Codes.{docs_code};

    ghost Value = { List Doc };

    ghost coded = { docs_code };

    ghost use Rattle.mdb_datum.specs.Datum.{doc_of};

    ghost view = { λ l. map doc_of l.items.items };

    ghost size = { docs_nesting };

    ghost use Rattle.mdb_datum.specs.inner.Falls.{items_fall};

    ghost size_decreases = { λ l h. items_fall l.items.items };
}

impl Model for Members {
    ghost use Rattle.std.specs.Prelude.{map};
    ghost use Rattle.mdb_datum.specs.Canonical.{fields_nesting};
    ghost use Rattle.mdb_datum.specs.Row.{Fields, IsCanonicalRow};
    ghost use Rattle.mdb_datum.specs.Codes.{fields_code};

    ghost Value = { Fields };

    ghost coded = { fields_code };

    ghost use Rattle.mdb_datum.specs.Datum.{field_of};

    ghost view = { λ m. map field_of m.pairs.items };

    ghost invariant = { λ m. IsCanonicalRow (map field_of m.pairs.items) };

    ghost size = { fields_nesting };

    ghost use Rattle.mdb_datum.specs.inner.Falls.{members_fall};

    ghost size_decreases = { λ m canonical. members_fall m.pairs.items };
}

impl Items {
    /// No items. It takes no memory.
    pub fn new(alloc: Global) -> Items
        ensures { result ≡ [] }
    {
        Items {
            items: Vec::new(alloc),
        }
    }

    /// How many there are.
    #[tactic(auto, using(crate::proofs::Levels::seen_length))]
    pub fn len(&self) -> usize
        ensures { result ≡ length self.now }
    {
        self.items.len()
    }

    /// Adds an item at the end. After want of memory the list is unchanged.
    pub fn push(&mut self, item: Datum) -> Result<(), AllocError>
        ensures { self.new ≡ (if is_ok result then self.old ++ doc_of item ∷ []
            else self.old) }
    {
        self.items.push(item)?;
        Ok(())
    }

    /// The item at a place, counted from 0.
    #[tactic(auto, using(crate::proofs::Levels::seen_there, crate::proofs::Levels::seen_past))]
    pub fn get(&self, at: usize) -> Option<&Datum>
        ensures { option_map (λ d. doc_of d.now) result ≡ slice_get self.now at }
    {
        if at < self.items.len() {
            Some(&self.items[at])
        } else {
            None
        }
    }

    /// The items, in order.
    pub fn iter(&self) -> slice::Iter<'_, Datum>
        ensures { map doc_of (iter_rest result) ≡ self.now }
    {
        self.items.iter()
    }
}

impl Members {
    /// How many there are.
    #[tactic(auto, using(crate::proofs::Levels::seen_length))]
    pub fn len(&self) -> usize
        ensures { result ≡ length self.now }
    {
        self.pairs.len()
    }

    /// The value under a name. It takes time in the logarithm of the number of members.
    pub fn get(&self, name: &str) -> Option<&Datum>
        ensures { option_map (λ d. doc_of d.now) result ≡ member name.now self.now }
    {
        let name = name.as_bytes();
        match self
            .pairs
            .binary_search_by(|pair| pair.0.as_str().as_bytes().cmp(&name))
        {
            Ok(at) => Some(&self.pairs[at].1),
            Err(_) => None,
        }
    }

    /// The member at a place, counted from 0.
    #[tactic(auto, using(crate::proofs::Levels::seen_there, crate::proofs::Levels::seen_past))]
    pub fn pair(&self, at: usize) -> Option<(&Text, &Datum)>
        ensures { option_map (λ p. (p.0.now, doc_of p.1.now)) result
            ≡ slice_get self.now at }
    {
        if at < self.pairs.len() {
            let (name, value) = &self.pairs[at];
            Some((name, value))
        } else {
            None
        }
    }

    /// The members, in order: each a name and its value.
    pub fn iter(&self) -> slice::Iter<'_, (Text, Datum)>
        ensures { map field_of (iter_rest result) ≡ self.now }
    {
        self.pairs.iter()
    }
}
