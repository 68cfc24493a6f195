//! An index of a table, with all that has stood in it.
ghost use Rattle.std.specs.Prelude.{◌≡◌, ◌≤◌, ◌<◌, ◌⊎◌, ◌↔◌, ℕ, Bool, Contains, Decides, IfOk, OnOk};
ghost use Rattle.std.specs.Prelude.{IsTrue, length, map, option_copied, option_map};
ghost use Rattle.std.specs.List.Sorted.{IsPartitionPoint};
ghost use Rattle.std.specs.FinMap as finite;
ghost use Rattle.std.specs.FinMap.Entries.{where_key};
ghost use Rattle.std.specs.Ordering.{is_ge, is_le};
ghost use Rattle.mdb_datum.specs.Bytes.{Bytes, byte_order, is_prefix};
ghost use Rattle.mdb_datum.specs.Pairs.{longest_pair, prefixes_of, rows_of};
ghost use Rattle.mdb_datum.specs.Row.{Pair};
ghost use Rattle.run_check.specs.declared.sight.Stamp.TheVariants.{Commit};
ghost use Rattle.run_check.specs.inner.IndexView.{AreKeys, IsBelow, IsCommit, IsKeyWritten};
ghost use Rattle.run_check.specs.inner.IndexView.{IsRowSame, IsTouchedIn, IsWritten};
ghost use Rattle.run_check.specs.inner.IndexView.{MayWrite, Means, end_of, is_within, items_of, meant_pairs, no_keys};
ghost use Rattle.run_check.specs.inner.IndexView.{pairs_seen, slot_at, slot_of, with_slot};
ghost use Rattle.run_check.specs.inner.SlotView.{IsLatest, Rises};

use crate::keys::joined;
use crate::sight::{Sight, Stamp};
use crate::slot::Slot;
use crate::slots::{Slots, all_rows};
use mdb_datum::Row;
use std::alloc::{AllocError, Global};
use std::collections::BTreeMap;
use std::marker::Model;
use std::ops::Bound;

/// The slots of an index by their full keys, and the commits that wrote any of these.
#[derive(Drop)]
pub(crate) struct Index {
    slots: BTreeMap<Vec<u8>, Slot>,
    touched: Vec<u64>,
}

impl Model for Index {
    ghost use Rattle.std.specs.Prelude.{map};
    ghost use Rattle.run_check.specs.inner.IndexView.{AreInOrder, KeyVersions, key_versions_code};
    ghost use Rattle.run_check.specs.inner.IndexView.{slot_of};

    ghost Value = { KeyVersions };

    ghost coded = { key_versions_code };

    ghost view = { λ x. record { slots = map slot_of x.slots.entries; touched = x.touched.items } };

    ghost invariant = { λ x. AreInOrder (map slot_of x.slots.entries) x.touched.items };
}

/// Which keys of an index are meant: from a key on, up to one.
#[derive(Drop)]
pub(crate) struct Keys {
    from: Bound<Vec<u8>>,
    to: Bound<Vec<u8>>,
}

impl Model for Keys {
    ghost use Rattle.run_check.specs.inner.IndexView.{IsForward, KeyRange, bytes_of, key_range_code};

    ghost Value = { KeyRange };

    ghost coded = { key_range_code };

    ghost view = { λ k. record { from = bytes_of k.from; to = bytes_of k.to } };

    ghost invariant = { λ k. IsForward (bytes_of k.from) (bytes_of k.to) };
}

impl Keys {
    /// Those that begin with a prefix.
    pub(crate) fn with_prefix(alloc: Global, prefix: &[u8]) -> Result<Keys, AllocError>
        ensures { IfOk result (λ keys. Means keys (is_prefix prefix.now)) }
    {
        let from = Bound::Included(prefix.to_vec(alloc)?);
        match after_prefix(alloc, prefix)? {
            Some(end) => Ok(Keys {
                from,
                to: Bound::Excluded(end),
            }),
            None => Ok(Keys {
                from,
                to: Bound::Unbounded,
            }),
        }
    }

    /// Those from a key on.
    pub(crate) fn at_least(alloc: Global, key: &[u8]) -> Result<Keys, AllocError>
        ensures { IfOk result (λ keys. Means keys (λ k. is_ge (byte_order k key.now))) }
    {
        Ok(Keys {
            from: Bound::Included(key.to_vec(alloc)?),
            to: Bound::Unbounded,
        })
    }

    /// Those up to a key.
    pub(crate) fn at_most(alloc: Global, key: &[u8]) -> Result<Keys, AllocError>
        ensures { IfOk result (λ keys. Means keys (λ k. is_le (byte_order k key.now))) }
    {
        Ok(Keys {
            from: Bound::Unbounded,
            to: Bound::Included(key.to_vec(alloc)?),
        })
    }
}

/// The first byte string behind all that begin with a prefix, if there is one: the prefix without the
/// bytes ff at its end, and with its last byte raised by one.
fn after_prefix(alloc: Global, prefix: &[u8]) -> Result<Option<Vec<u8>>, AllocError>
    ensures { IfOk result (λ end. option_map items_of end ≡ end_of prefix.now) }
{
    let mut rest = prefix;
    'bytes: while let Some((last, first)) = rest.split_last() {
        if *last < u8::MAX {
            let end = joined(alloc, first, &[*last + 1])?;
            return Ok(Some(end));
        }
        rest = first;
    }
    Ok(None)
}

impl Index {
    /// Nothing has stood in it. It takes no memory.
    pub(crate) fn new(alloc: Global) -> Index
        ensures { result ≡ no_keys }
    {
        Index {
            slots: BTreeMap::new(alloc),
            touched: Vec::new(alloc),
        }
    }

    /// The slot of a key.
    fn slot(&self, key: &[u8]) -> Option<&Slot>
        ensures found { option_copied result ≡ finite.find byte_order key.now self.now.slots }
        ensures order { AreKeys self.now.slots }
    {
        self.slots.get(key)
    }

    /// The row that is seen under a key.
    pub(crate) fn row(&self, key: &[u8], sight: Sight) -> Option<&Row>
        ensures { option_copied result
            ≡ finite.find byte_order key.now (pairs_seen sight self.now.slots) }
    {
        self.slot(key)?.row(sight)
    }

    /// Writes a row under a key, or that there is none.
    pub(crate) fn put(
        &mut self,
        alloc: Global,
        key: &[u8],
        stamp: Stamp,
        row: Option<Row>,
    ) -> Result<(), AllocError>
        requires { MayWrite stamp self.old }
        ensures { OnOk result (IsWritten stamp key.now row self.old self.new) }
    {
        touch(&mut self.touched, stamp)?;
        put_slot(&mut self.slots, alloc, key, stamp, row)
    }

    /// The slots of some keys, in order.
    pub(crate) fn slots_of(&self, keys: &Keys) -> Slots<'_>
        ensures within { map slot_of result
            ≡ where_key byte_order (is_within keys.now) self.now.slots }
        ensures order { AreKeys self.now.slots }
        ensures sorted { IsTrue (finite.is_sorted byte_order (map slot_of result)) }
    {
        self.slots.range((keys.from.as_ref(), keys.to.as_ref()))
    }

    /// The rows that are seen under some keys, in order.
    pub(crate) fn rows(
        &self,
        alloc: Global,
        keys: &Keys,
        sight: Sight,
    ) -> Result<Vec<&Row>, AllocError>
        ensures { IfOk result (λ rows. (meant : Bytes → Bool) → Means keys.now meant
            → map (λ r. r.now) rows.items ≡ rows_of (meant_pairs meant sight self.now)) }
    {
        all_rows(alloc, self.slots_of(keys), sight)
    }

    /// The row under the longest key that is a prefix of this one.
    pub(crate) fn longest(&self, key: &[u8], sight: Sight) -> Option<&Row>
        ensures { option_copied result ≡ option_map (λ (e : Pair). e.1)
            (longest_pair (prefixes_of key.now (pairs_seen sight self.now.slots))) }
    {
        let mut prefix = key;
        'prefixes: loop {
            if let Some(row) = self.row(prefix, sight) {
                return Some(row);
            }
            match prefix.split_last() {
                Some((_, shorter)) => prefix = shorter,
                None => return None,
            }
        }
    }

    /// How many commits up to a number wrote a key.
    fn count_touched(&self, last: u64) -> usize
        ensures bound { result ≤ length self.now.touched }
        ensures parted { IsPartitionPoint (λ j. j ≤ last) (λ j. last < j) self.now.touched result }
    {
        self.touched.partition_point(|commit| *commit <= last)
    }

    /// Whether one of the commits behind the first number, up to the second, wrote a key.
    pub(crate) fn is_touched(&self, after: u64, last: u64) -> bool
        ensures { Decides result (IsTouchedIn after last self.now) }
    {
        self.count_touched(after) < self.count_touched(last)
    }

    /// Whether one of them wrote this key.
    pub(crate) fn is_key_touched(&self, key: &[u8], after: u64, last: u64) -> bool
        ensures { Decides result (IsKeyWritten key.now after last self.now) }
    {
        match self.slot(key) {
            Some(slot) => slot.is_touched(after, last),
            None => false,
        }
    }

    /// Whether the row under a key is the same after each commit from the first number to the second.
    pub(crate) fn is_key_unchanged(&self, key: &[u8], first: u64, last: u64) -> bool
        ensures { Decides result (IsRowSame key.now first last self.now) }
    {
        match self.slot(key) {
            Some(slot) => slot.is_unchanged(first, last),
            None => true,
        }
    }
}

/// Keeps that a commit wrote a key.
fn touch(touched: &mut Vec<u64>, stamp: Stamp) -> Result<(), AllocError>
    requires { (n j : ℕ) → stamp ≡ Commit n → Contains touched.old.items j → j ≤ n }
    ensures touched { OnOk result ((j : ℕ) → Contains touched.new.items j
        ↔ (Contains touched.old.items j ⊎ IsCommit stamp j)) }
    ensures rises { Rises IsBelow touched.old.items → Rises IsBelow touched.new.items }
{
    if let Stamp::Commit(commit) = stamp {
        if touched.last() != Some(&commit) {
            touched.push(commit)?;
        }
    }
    Ok(())
}

/// Writes a row under a key, or that there is none.
fn put_slot(
    slots: &mut BTreeMap<Vec<u8>, Slot>,
    alloc: Global,
    key: &[u8],
    stamp: Stamp,
    row: Option<Row>,
) -> Result<(), AllocError>
    requires keys { AreKeys (map slot_of slots.old.entries) }
    requires latest { IsLatest stamp (slot_at key.now (map slot_of slots.old.entries)) }
    ensures put { OnOk result (map slot_of slots.new.entries
        ≡ with_slot stamp key.now row (map slot_of slots.old.entries)) }
    ensures keys { AreKeys (map slot_of slots.new.entries) }
{
    match slots.get_mut(key) {
        Some(slot) => slot.put(stamp, row),
        None => {
            let mut slot = Slot::new(alloc);
            slot.put(stamp, row)?;
            slots.insert(key.to_vec(alloc)?, slot)?;
            Ok(())
        }
    }
}
