//! The parts of a compound index.
ghost use Rattle.std.specs.Prelude.{◌≡◌, ◌<◌, length};

use super::Part;
use std::slice;

/// The parts of a compound index, in order. There is at least one.
#[derive(Drop)]
pub struct Parts {
    parts: Vec<Part>,
    pub ghost some: { 0 < length parts.items },
}

impl Parts {
    ghost use Rattle.std.specs.Prelude.{Some, None, nat_lt, option_map, map, slice_get};
    ghost use Rattle.std.specs.Prelude.{if◌then◌else◌};
    ghost use Rattle.std.specs.Slice.Iter.{iter_rest};
    ghost use Rattle.mdb_encode.specs.Kind.{part_indexer, indexers_of};

    /// These parts, none where there are none.
    pub fn of(parts: Vec<Part>) -> Option<Parts>
        ensures { option_map indexers_of result ≡ (if nat_lt 0 (length parts.items)
            then Some (map part_indexer parts.items) else None) }
    {
        if parts.is_empty() {
            None
        } else {
            Some(Parts { parts })
        }
    }

    /// How many there are.
    pub fn len(&self) -> usize
        ensures { result ≡ length (indexers_of self.now) }
    {
        self.parts.len()
    }

    /// The part at a place, counted from 0.
    pub fn get(&self, at: usize) -> Option<&Part>
        ensures { option_map (λ p. part_indexer p.now) result
            ≡ slice_get (indexers_of self.now) at }
    {
        if at < self.parts.len() {
            Some(&self.parts[at])
        } else {
            None
        }
    }

    /// The parts, from the first.
    pub fn iter(&self) -> slice::Iter<'_, Part>
        ensures { map part_indexer (iter_rest result) ≡ indexers_of self.now }
    {
        self.parts.iter()
    }

    /// The part at a place that is there, counted from 0.
    pub(crate) fn part(&self, at: usize) -> &Part
        requires { at < length (indexers_of self.now) }
        ensures { slice_get (indexers_of self.now) at ≡ Some (part_indexer result.now) }
    {
        match self.get(at) {
            Some(part) => part,
            None => unreachable!(),
        }
    }
}
