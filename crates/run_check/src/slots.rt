//! What is seen in some slots of an index, in the order of their keys.
ghost use Rattle.std.specs.Prelude.{◌≡◌, Decides, IfOk, IsTrue, map, option_copied};
ghost use Rattle.std.specs.FinMap as finite;
ghost use Rattle.mdb_datum.specs.Bytes.{byte_order};
ghost use Rattle.mdb_datum.specs.Pairs.{first_item, last_item, rows_of};
ghost use Rattle.run_check.specs.inner.IndexView.{AreAllSame, IsPickSame, pairs_seen, slot_of};

use crate::sight::Sight;
use crate::slot::Slot;
use mdb_datum::Row;
use std::alloc::{AllocError, Global};
use std::collections::btree_map::Range;

/// Slots under their keys, in order.
pub(crate) type Slots<'a> = Range<'a, Vec<u8>, Slot>;

/// The first row that is seen.
pub(crate) fn first_row<'a>(mut slots: Slots<'a>, sight: Sight) -> Option<&'a Row>
    ensures { option_copied result
        ≡ first_item (rows_of (pairs_seen sight (map slot_of slots.entry))) }
{
    'slots: while let Some((_, slot)) = slots.next() {
        if let Some(row) = slot.row(sight) {
            return Some(row);
        }
    }
    None
}

/// The last row that is seen.
pub(crate) fn last_row<'a>(mut slots: Slots<'a>, sight: Sight) -> Option<&'a Row>
    ensures { option_copied result
        ≡ last_item (rows_of (pairs_seen sight (map slot_of slots.entry))) }
{
    'slots: while let Some((_, slot)) = slots.next_back() {
        if let Some(row) = slot.row(sight) {
            return Some(row);
        }
    }
    None
}

/// All rows that are seen, in order.
pub(crate) fn all_rows<'a>(
    alloc: Global,
    mut slots: Slots<'a>,
    sight: Sight,
) -> Result<Vec<&'a Row>, AllocError>
    ensures { IfOk result (λ rows. map (λ r. r.now) rows.items
        ≡ rows_of (pairs_seen sight (map slot_of slots.entry))) }
{
    let mut rows = Vec::new(alloc);
    'slots: while let Some((_, slot)) = slots.next() {
        if let Some(row) = slot.row(sight) {
            rows.push(row)?;
        }
    }
    Ok(rows)
}

/// Whether each row is the same after each commit from the first number to the second.
pub(crate) fn are_all_same(mut slots: Slots<'_>, first: u64, last: u64) -> bool
    ensures { Decides result (AreAllSame first last (map slot_of slots.entry)) }
{
    'slots: while let Some((_, slot)) = slots.next() {
        if !slot.is_unchanged(first, last) {
            return false;
        }
    }
    true
}

/// Whether the first row is: that of the first key which had one, and no key before it has got one.
pub(crate) fn is_first_same(mut slots: Slots<'_>, first: u64, last: u64) -> bool
    requires { IsTrue (finite.is_sorted byte_order (map slot_of slots)) }
    ensures { Decides result (IsPickSame first_item first last (map slot_of slots.entry)) }
{
    'slots: while let Some((_, slot)) = slots.next() {
        if !slot.is_unchanged(first, last) {
            return false;
        }
        if slot.has_row_after(first) {
            return true;
        }
    }
    true
}

/// The same of the last row.
pub(crate) fn is_last_same(mut slots: Slots<'_>, first: u64, last: u64) -> bool
    requires { IsTrue (finite.is_sorted byte_order (map slot_of slots)) }
    ensures { Decides result (IsPickSame last_item first last (map slot_of slots.entry)) }
{
    'slots: while let Some((_, slot)) = slots.next_back() {
        if !slot.is_unchanged(first, last) {
            return false;
        }
        if slot.has_row_after(first) {
            return true;
        }
    }
    true
}
