//! The shapes of the objects in a schema's document: which members they have, and of which form.
ghost use Rattle.std.specs.Prelude.{◌≡◌, map, option_map, option_copied, option_and_then, IfSome};
ghost use Rattle.mdb_encode.specs.Lawful.{IsFieldName, IsScalar, scalar_in};
ghost use Rattle.std.specs.List.{list_any};
ghost use Rattle.std.specs.Str.{bytes_eq};
ghost use Rattle.mdb_datum.specs.Doc.{member};
ghost use Rattle.mdb_datum.specs.Datum.{doc_of};
ghost use Rattle.mdb_schema.specs.Members.{object_fields, text_bytes};
ghost use Rattle.mdb_schema.specs.Shapes.{has_only, flag_or_false, number_in, list_in};
ghost use Rattle.mdb_schema.specs.Shapes.{field_in, schema_shape, names_of_table, table_shape};
ghost use Rattle.mdb_schema.specs.Shapes.{index_shape, folded_shape, width_shape, plain_shape};
ghost use Rattle.mdb_schema.specs.Shapes.{equals_shape, compound_shape};

use crate::version::Version;
use mdb_datum::{Datum, Items, Members, Text};

/// The members that a schema may have.
const SCHEMA_NAMES: [&str; 2] = ["memdb", "tables"];

/// The members that a table may have in version 1.
const TABLE_NAMES: [&str; 1] = ["indexes"];

/// The members that a table may have in version 2.
const TRACKED_TABLE_NAMES: [&str; 2] = ["indexes", "tracked"];

/// The members that an index may have.
const INDEX_NAMES: [&str; 3] = ["indexer", "unique", "allow_missing"];

/// The members that an indexer of texts may have.
const FOLDED_NAMES: [&str; 3] = ["kind", "field", "lowercase"];

/// The members that an indexer of numbers may have.
const WIDTH_NAMES: [&str; 3] = ["kind", "field", "width"];

/// The members that an indexer with no choice may have.
const PLAIN_NAMES: [&str; 2] = ["kind", "field"];

/// The members that an indexer with a condition may have.
const EQUALS_NAMES: [&str; 3] = ["kind", "field", "equals"];

/// The members that an indexer of several parts may have.
const COMPOUND_NAMES: [&str; 3] = ["kind", "parts", "allow_missing"];

/// The members of an object.
#[tactic(auto, using(crate::proofs::ShapeLemmas::object_found))]
pub(crate) fn object_in(document: &Datum) -> Option<&Members>
    ensures { option_map (λ m. m.now) result ≡ object_fields (doc_of document.now) }
{
    match document {
        Datum::Members(members) => Some(members),
        _ => None,
    }
}

/// The text that a document is.
pub(crate) fn text_in(document: &Datum) -> Option<&Text>
    ensures { option_copied result ≡ text_bytes (doc_of document.now) }
{
    match document {
        Datum::Str(text) => Some(text),
        _ => None,
    }
}

/// Whether a name is one of these.
fn is_one_of(name: &Text, names: &[&str]) -> bool
    ensures { result ≡ list_any (λ own. bytes_eq name.now own) (map (λ own. own.now) names.now) }
{
    for own in names {
        if name.as_str() == *own {
            return true;
        }
    }
    false
}

/// Whether each member has one of these names.
fn has_only(members: &Members, names: &[&str]) -> bool
    ensures { result ≡ has_only (map (λ own. own.now) names.now) members.now }
{
    for at in 0..members.len() {
        let Some((name, _)) = members.pair(at) else {
            unreachable!();
        };
        if !is_one_of(name, names) {
            return false;
        }
    }
    true
}

/// The whole number that a document is.
fn number_in(document: &Datum) -> Option<i128>
    ensures { result ≡ number_in (doc_of document.now) }
{
    match document {
        Datum::Whole(number) => Some(*number),
        _ => None,
    }
}

/// The list that a document is.
#[tactic(auto, using(crate::proofs::ShapeLemmas::list_found))]
fn list_in(document: &Datum) -> Option<&Items>
    ensures { option_map (λ l. l.now) result ≡ list_in (doc_of document.now) }
{
    match document {
        Datum::Items(items) => Some(items),
        _ => None,
    }
}

/// The document, where it is no list and no object.
fn scalar_in(document: &Datum) -> Option<&Datum>
    ensures found { option_map (λ d. doc_of d.now) result ≡ scalar_in (doc_of document.now) }
    ensures scalar { IfSome result (λ d. IsScalar (doc_of d.now)) }
{
    match document {
        Datum::Items(_) | Datum::Members(_) => None,
        _ => Some(document),
    }
}

/// The text under a name.
pub(crate) fn text_under<'a>(members: &'a Members, name: &str) -> Option<&'a Text>
    ensures { option_copied result
        ≡ option_and_then text_bytes (member name.now members.now) }
{
    text_in(members.get(name)?)
}

/// The whole number under a name.
fn number_under(members: &Members, name: &str) -> Option<i128>
    ensures { result ≡ option_and_then number_in (member name.now members.now) }
{
    number_in(members.get(name)?)
}

/// The members of the object under a name.
fn object_under<'a>(members: &'a Members, name: &str) -> Option<&'a Members>
    ensures { option_map (λ m. m.now) result
        ≡ option_and_then object_fields (member name.now members.now) }
{
    object_in(members.get(name)?)
}

/// The list under a name.
fn list_under<'a>(members: &'a Members, name: &str) -> Option<&'a Items>
    ensures { option_map (λ l. l.now) result
        ≡ option_and_then list_in (member name.now members.now) }
{
    list_in(members.get(name)?)
}

/// The document under a name, where it is no list and no object.
fn scalar_under<'a>(members: &'a Members, name: &str) -> Option<&'a Datum>
    ensures found { option_map (λ d. doc_of d.now) result
        ≡ option_and_then scalar_in (member name.now members.now) }
    ensures scalar { IfSome result (λ d. IsScalar (doc_of d.now)) }
{
    scalar_in(members.get(name)?)
}

/// The truth value under a name, or false where there is no such member.
fn flag_under(members: &Members, name: &str) -> Option<bool>
    ensures { result ≡ flag_or_false (member name.now members.now) }
{
    match members.get(name) {
        None => Some(false),
        Some(Datum::Flag(flag)) => Some(*flag),
        Some(_) => None,
    }
}

/// The member that an indexer reads.
fn field_in(members: &Members) -> Option<&Text>
    ensures found { option_copied result ≡ field_in members.now }
    ensures name { IfSome result (λ s. IsFieldName s.now) }
{
    let name = text_under(members, "field")?;
    if name.as_str().is_empty() {
        None
    } else {
        Some(name)
    }
}

/// `memdb` and `tables` of a schema.
pub(crate) fn schema_shape(members: &Members) -> Option<(i128, &Members)>
    ensures { option_map (λ p. (p.0, p.1.now)) result
        ≡ schema_shape members.now }
{
    if !has_only(members, &SCHEMA_NAMES) {
        return None;
    }
    let version = number_under(members, "memdb")?;
    let tables = object_under(members, "tables")?;
    Some((version, tables))
}

/// Whether a table has the members of a version alone.
fn has_names_of_table(version: Version, members: &Members) -> bool
    ensures { result ≡ has_only (names_of_table version) members.now }
{
    match version {
        Version::One => has_only(members, &TABLE_NAMES),
        Version::Two => has_only(members, &TRACKED_TABLE_NAMES),
    }
}

/// `indexes` and `tracked` of a table.
pub(crate) fn table_shape(version: Version, members: &Members) -> Option<(&Members, bool)>
    ensures { option_map (λ p. (p.0.now, p.1)) result
        ≡ table_shape version members.now }
{
    if !has_names_of_table(version, members) {
        return None;
    }
    let indexes = object_under(members, "indexes")?;
    let tracked = flag_under(members, "tracked")?;
    Some((indexes, tracked))
}

/// `indexer`, `unique` and `allow_missing` of an index.
pub(crate) fn index_shape(members: &Members) -> Option<(&Datum, (bool, bool))>
    ensures { option_map (λ p. (doc_of p.0.now, p.1)) result
        ≡ index_shape members.now }
{
    if !has_only(members, &INDEX_NAMES) {
        return None;
    }
    let indexer = members.get("indexer")?;
    let unique = flag_under(members, "unique")?;
    let allow_missing = flag_under(members, "allow_missing")?;
    Some((indexer, (unique, allow_missing)))
}

/// `field` and `lowercase` of an indexer.
pub(crate) fn folded_shape(members: &Members) -> Option<(&Text, bool)>
    ensures found { option_map (λ p. (p.0.now, p.1)) result ≡ folded_shape members.now }
    ensures name { IfSome result (λ p. IsFieldName p.0.now) }
{
    if !has_only(members, &FOLDED_NAMES) {
        return None;
    }
    let field = field_in(members)?;
    let lowercase = flag_under(members, "lowercase")?;
    Some((field, lowercase))
}

/// `field` and `width` of an indexer.
pub(crate) fn width_shape(members: &Members) -> Option<(&Text, i128)>
    ensures found { option_map (λ p. (p.0.now, p.1)) result ≡ width_shape members.now }
    ensures name { IfSome result (λ p. IsFieldName p.0.now) }
{
    if !has_only(members, &WIDTH_NAMES) {
        return None;
    }
    let field = field_in(members)?;
    let width = number_under(members, "width")?;
    Some((field, width))
}

/// `field` of an indexer that has no more.
pub(crate) fn plain_shape(members: &Members) -> Option<&Text>
    ensures found { option_copied result ≡ plain_shape members.now }
    ensures name { IfSome result (λ s. IsFieldName s.now) }
{
    if !has_only(members, &PLAIN_NAMES) {
        return None;
    }
    field_in(members)
}

/// `field` and `equals` of an indexer.
pub(crate) fn equals_shape(members: &Members) -> Option<(&Text, &Datum)>
    ensures found { option_map (λ p. (p.0.now, doc_of p.1.now)) result
        ≡ equals_shape members.now }
    ensures name { IfSome result (λ p. IsFieldName p.0.now) }
    ensures scalar { IfSome result (λ p. IsScalar (doc_of p.1.now)) }
{
    if !has_only(members, &EQUALS_NAMES) {
        return None;
    }
    let field = field_in(members)?;
    let scalar = scalar_under(members, "equals")?;
    Some((field, scalar))
}

/// `parts` and `allow_missing` of an indexer.
pub(crate) fn compound_shape(members: &Members) -> Option<(&Items, bool)>
    ensures { option_map (λ p. (p.0.now, p.1)) result
        ≡ compound_shape members.now }
{
    if !has_only(members, &COMPOUND_NAMES) {
        return None;
    }
    let parts = list_under(members, "parts")?;
    let allow_missing = flag_under(members, "allow_missing")?;
    Some((parts, allow_missing))
}
