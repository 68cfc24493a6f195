//! Whether two documents are the same: one walk over both, which takes no memory and stops at the
//! first difference.
ghost use Rattle.std.specs.Prelude.{◌≡◌, Decides};
ghost use Rattle.mdb_datum.specs.Datum.{doc_of, field_of};

use crate::{Datum, Items, Members, Text};

impl Items {
    /// Whether two lists have the same items in the same order. It takes no memory, and stops at the
    /// first difference.
    pub fn has_same_items(&self, other: &Items) -> bool
        ensures { Decides result (self.now ≡ other.now) }
    {
        has_same_items(self, other)
    }
}

/// Whether two documents are the same.
#[cycle(same)]
fn is_same(one: &Datum, other: &Datum) -> bool
    ensures { Decides result (doc_of one.now ≡ doc_of other.now) }
{
    match (one, other) {
        (Datum::Nil, Datum::Nil) => true,
        (Datum::Flag(a), Datum::Flag(b)) => a == b,
        (Datum::Whole(a), Datum::Whole(b)) => a == b,
        (Datum::Str(a), Datum::Str(b)) => a.as_str() == b.as_str(),
        (Datum::Items(a), Datum::Items(b)) => has_same_items(a, b),
        (Datum::Members(a), Datum::Members(b)) => has_same_members(a, b),
        _ => false,
    }
}

/// Whether two lists have the same items.
#[cycle(same)]
fn has_same_items(one: &Items, other: &Items) -> bool
    ensures { Decides result (one.now ≡ other.now) }
{
    if one.items.len() != other.items.len() {
        return false;
    }
    for (at, item) in one.items.iter().enumerate() {
        if !is_same(item, &other.items[at]) {
            return false;
        }
    }
    true
}

/// Whether two objects have the same members in the same order.
#[cycle(same)]
pub(crate) fn has_same_members(one: &Members, other: &Members) -> bool
    ensures { Decides result (one.now ≡ other.now) }
{
    if one.pairs.len() != other.pairs.len() {
        return false;
    }
    for (at, pair) in one.pairs.iter().enumerate() {
        if !is_same_member(pair, &other.pairs[at]) {
            return false;
        }
    }
    true
}

/// Whether two members have the same name and the same value.
#[cycle(same)]
fn is_same_member(one: &(Text, Datum), other: &(Text, Datum)) -> bool
    ensures { Decides result (field_of one.now ≡ field_of other.now) }
{
    one.0.as_str() == other.0.as_str() && is_same(&one.1, &other.1)
}
