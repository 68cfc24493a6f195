//! An item of a list, at a place that is there.
ghost use Rattle.std.specs.Prelude.{◌≡◌, ◌<◌, Some, length, slice_get};
ghost use Rattle.mdb_datum.specs.Datum.{doc_of};

use mdb_datum::{Datum, Items};

/// The item at a place that is there, counted from 0.
pub(crate) fn item_at(items: &Items, at: usize) -> &Datum
    requires { at < length items.now }
    ensures { slice_get items.now at ≡ Some (doc_of result.now) }
{
    match items.get(at) {
        Some(item) => item,
        None => unreachable!(),
    }
}
