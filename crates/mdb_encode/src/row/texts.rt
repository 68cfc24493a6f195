//! The texts of a list or an object, each of which may make a key.
ghost use Rattle.std.specs.Prelude.{◌≡◌, ◌+◌, ◌<◌, Some, length, slice_get};
ghost use Rattle.mdb_datum.specs.Datum.{doc_of};
ghost use Rattle.mdb_datum.specs.Doc.{doc, DocList, field, FieldList};
ghost use Rattle.mdb_encode.specs.Keys.{item_keys, pair_keys};
ghost use Rattle.mdb_encode.specs.inner.RowReading.{keys_read};
ghost use Rattle.mdb_encode.specs.inner.Texts.{keys_from, text_count, followed};

use crate::item::item_at;
use crate::piece::Piece;
use crate::refusal::KeyRefusal;
use mdb_datum::{Datum, Items, Members, Text};

/// The items of a list or the members of an object.
#[derive(Clone, Copy)]
pub(crate) enum Texts<'a> {
    /// The items of a list, each of which is a text.
    Items(&'a Items),
    /// The members of an object, each of which is a name and a text.
    Members(&'a Members),
}

impl<'a> Texts<'a> {
    /// How many there are.
    pub(crate) fn len(&self) -> usize
        ensures { result ≡ text_count self.now }
    {
        match self {
            Texts::Items(items) => items.len(),
            Texts::Members(members) => members.len(),
        }
    }

    /// The key of the text at a place, or nothing where it has none.
    #[tactic(auto, using(crate::proofs::Walk::item_keys_at, crate::proofs::Walk::pair_keys_at))]
    pub(crate) fn read(&self, at: usize, lowercase: bool) -> Result<Option<Piece<'a>>, KeyRefusal>
        requires { at < text_count self.now }
        ensures { keys_from lowercase self.now at
            ≡ followed (keys_read result) (keys_from lowercase self.now (at + 1)) }
    {
        match self {
            Texts::Items(items) => read_item(item_at(items, at), lowercase),
            Texts::Members(members) => {
                let (name, value) = pair_at(members, at);
                read_pair(name, value, lowercase)
            }
        }
    }
}

/// The key of an item, which is a text; the empty one has none.
fn read_item(item: &Datum, lowercase: bool) -> Result<Option<Piece<'_>>, KeyRefusal>
    ensures { (ds : DocList) → item_keys lowercase (doc (doc_of item.now) ds)
        ≡ followed (keys_read result) (item_keys lowercase ds) }
{
    match item {
        Datum::Str(text) if text.as_str().is_empty() => Ok(None),
        Datum::Str(text) => Ok(Some(Piece::Text(text.as_str(), lowercase))),
        _ => Err(KeyRefusal::WrongKind),
    }
}

/// The key of a member, whose value is a text; the one with the empty name has none.
fn read_pair<'a>(
    name: &'a Text,
    value: &'a Datum,
    lowercase: bool,
) -> Result<Option<Piece<'a>>, KeyRefusal>
    ensures { (fs : FieldList) → pair_keys lowercase (field name.now (doc_of value.now) fs)
        ≡ followed (keys_read result) (pair_keys lowercase fs) }
{
    match value {
        Datum::Str(_) if name.as_str().is_empty() => Ok(None),
        Datum::Str(text) => Ok(Some(Piece::Pair(name.as_str(), text.as_str(), lowercase))),
        _ => Err(KeyRefusal::WrongKind),
    }
}

/// The member at a place that is there, counted from 0.
fn pair_at(members: &Members, at: usize) -> (&Text, &Datum)
    requires { at < length members.now }
    ensures { slice_get members.now at ≡ Some (result.0.now, doc_of result.1.now) }
{
    match members.pair(at) {
        Some(pair) => pair,
        None => unreachable!(),
    }
}
