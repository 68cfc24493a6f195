//! From a text to a document: `serde_json` reads the value, and what it owns is moved out of it.
ghost use Rattle.std.specs.Prelude.{◌≡◌, ◌≤◌, ◌<◌, ◌⊎◌, ◌++◌, ◌∷◌, [], Some, None, option_map, IfSome, IfOk, map};
ghost use Rattle.std.specs.Prelude.{IfErr, IsErr, IsErrOf, IsUtf8, OnOk, is_ok, if◌then◌else◌, nat_lt};
ghost use Rattle.std.specs.Prelude.{string_bytes};
ghost use Rattle.serde_json.specs.Data.{depth, items_depth, members_depth};
ghost use Rattle.serde_json.specs.Read.{read};
ghost use Rattle.serde_json.specs.View.{view, number_view, items_view, members_view};
ghost use Rattle.mdb_datum.specs.Doc.{whole, object, doc_list, field_list};
ghost use Rattle.mdb_datum.specs.Canonical.{FitsWord, IsRegular, AreRegular, IsCanonical};
ghost use Rattle.mdb_datum.specs.Datum.{doc_of, field_of};
ghost use Rattle.mdb_datum.specs.Reading.{reading, read_as, no_json, too_deep, not_whole, nesting_limit};
ghost use Rattle.mdb_datum.specs.Reading.{whole_number, whole_doc, whole_docs, whole_fields};
ghost use Rattle.mdb_datum.specs.inner.Gains.{GainsMember};

use crate::{Datum, DocError, Items, Members, Text};
use serde_json::{Map, Number, Value};
use std::alloc::Global;

/// Lists and objects nest at most so deep in a document.
const NESTING_LIMIT: usize = 100;

/// The document that a text is (RFC 8259, as `serde_json` reads it). It takes memory for the
/// whole document, and time in proportion to the text.
///
/// # Errors
/// `Syntax` where the text is no JSON, else `Deep`, else `NotWhole`; `Memory` may come at any text.
pub fn read_doc(alloc: Global, bytes: &[u8]) -> Result<Datum, DocError>
    ensures ok { IfOk result (λ d. reading bytes.now ≡ read_as (doc_of d)) }
    ensures canonical { IfOk result (λ d. IsCanonical (doc_of d)) }
    ensures syntax { IsErrOf result DocError.Syntax → reading bytes.now ≡ no_json }
    ensures deep { IsErrOf result DocError.Deep → reading bytes.now ≡ too_deep }
    ensures not_whole { IsErrOf result DocError.NotWhole → reading bytes.now ≡ not_whole }
{
    let value = json_value(alloc, bytes)?;
    if is_deeper(&value, NESTING_LIMIT) {
        return Err(DocError::Deep);
    }
    Ok(datum_from(alloc, value)?)
}

/// The value that a text is.
fn json_value(alloc: Global, bytes: &[u8]) -> Result<Value, DocError>
    ensures ok { IfOk result (λ v. IsUtf8 bytes.now × (read bytes.now ≡ Some (view v))) }
    ensures syntax { IsErrOf result DocError.Syntax → reading bytes.now ≡ no_json }
    ensures only { IfErr result (λ e. (e ≡ DocError.Memory) ⊎ (e ≡ DocError.Syntax)) }
{
    match Value::from_slice(alloc, bytes) {
        Ok(value) => Ok(value),
        Err(e) => if e.is_memory() {
            Err(DocError::Memory)
        } else {
            Err(DocError::Syntax)
        },
    }
}

/// Whether arrays and objects nest deeper in it than a limit.
#[cycle(is_deeper)]
fn is_deeper(value: &Value, limit: usize) -> bool
    ensures { result ≡ nat_lt limit (depth (view value.now)) }
{
    match value {
        Value::Array(list) => limit == 0 || any_item_is_deeper(list, limit - 1),
        Value::Object(map) => limit == 0 || any_member_is_deeper(map, limit - 1),
        _ => false,
    }
}

/// Whether an item of a list nests deeper than the limit.
#[cycle(is_deeper)]
fn any_item_is_deeper(list: &Vec<Value>, limit: usize) -> bool
    ensures { result ≡ nat_lt limit (items_depth (items_view list.now.items)) }
{
    for item in list {
        if is_deeper(item, limit) {
            return true;
        }
    }
    false
}

/// Whether a member of an object does.
#[cycle(is_deeper)]
fn any_member_is_deeper(map: &Map<String, Value>, limit: usize) -> bool
    ensures { result ≡ nat_lt limit (members_depth (members_view map.now.entries)) }
{
    for member in map.values() {
        if is_deeper(member, limit) {
            return true;
        }
    }
    false
}

/// The number, where it is given as a `u64` or an `i64`.
fn whole_from(number: &Number) -> Option<i128>
    ensures value { option_map whole result ≡ whole_number (number_view number.now) }
    ensures fits { IfSome result FitsWord }
{
    if let Some(n) = number.as_u64() {
        return Some(i128::from(n));
    }
    let n = number.as_i64()?;
    Some(i128::from(n))
}

/// The document that a number is.
fn number_from(number: &Number) -> Result<Datum, DocError>
    ensures ok { IfOk result (λ d. whole_number (number_view number.now) ≡ Some (doc_of d)) }
    ensures regular { IfOk result (λ d. IsRegular (doc_of d)) }
    ensures not_whole { IsErr result → whole_number (number_view number.now) ≡ None }
    ensures only { IfErr result (λ e. e ≡ DocError.NotWhole) }
{
    Ok(Datum::Whole(whole_from(number).ok_or(DocError::NotWhole)?))
}

/// Adds an item at the end.
fn push_item(items: &mut Items, item: Datum) -> Result<(), DocError>
    ensures pushed { items.new
        ≡ (if is_ok result then items.old ++ doc_of item ∷ [] else items.old) }
    ensures only { IfErr result (λ e. e ≡ DocError.Memory) }
{
    Ok(items.push(item)?)
}

/// The document that a value is, whose texts it takes over.
#[cycle(datum_from)]
fn datum_from(alloc: Global, value: Value) -> Result<Datum, DocError>
    requires { depth (view value) ≤ nesting_limit }
    ensures ok { IfOk result (λ d. whole_doc (view value) ≡ Some (doc_of d)) }
    ensures regular { IfOk result (λ d. IsRegular (doc_of d)) }
    ensures not_whole { IsErrOf result DocError.NotWhole → whole_doc (view value) ≡ None }
    ensures only { IfErr result (λ e. (e ≡ DocError.Memory) ⊎ (e ≡ DocError.NotWhole)) }
{
    match value {
        Value::Null => Ok(Datum::Nil),
        Value::Bool(flag) => Ok(Datum::Flag(flag)),
        Value::Number(number) => number_from(&number),
        Value::String(text) => Ok(Datum::Str(Text::from_string(text))),
        Value::Array(list) => Ok(Datum::Items(items_from(alloc, list)?)),
        Value::Object(map) => Ok(Datum::Members(members_from(alloc, map)?)),
    }
}

/// The documents of a list. A number that isn't whole is refused.
#[cycle(datum_from)]
fn items_from(alloc: Global, list: Vec<Value>) -> Result<Items, DocError>
    requires { items_depth (items_view list.items) < nesting_limit }
    ensures ok { IfOk result
        (λ l. whole_docs (items_view list.items) ≡ Some (doc_list l)) }
    ensures regular { IfOk result (λ l. AreRegular (doc_list l)) }
    ensures not_whole { IsErrOf result DocError.NotWhole
        → whole_docs (items_view list.items) ≡ None }
    ensures only { IfErr result (λ e. (e ≡ DocError.Memory) ⊎ (e ≡ DocError.NotWhole)) }
{
    let mut items = Items::new(alloc);
    for value in list {
        let item = datum_from(alloc, value)?;
        push_item(&mut items, item)?;
    }
    Ok(items)
}

/// The members of an object. A number that isn't whole is refused.
#[cycle(datum_from)]
fn members_from(alloc: Global, map: Map<String, Value>) -> Result<Members, DocError>
    requires { members_depth (members_view map.entries) < nesting_limit }
    ensures ok { IfOk result
        (λ m. whole_fields (members_view map.entries) ≡ Some (field_list m)) }
    ensures regular { IfOk result (λ m. IsRegular (object (field_list m))) }
    ensures not_whole { IsErrOf result DocError.NotWhole
        → whole_fields (members_view map.entries) ≡ None }
    ensures only { IfErr result (λ e. (e ≡ DocError.Memory) ⊎ (e ≡ DocError.NotWhole)) }
{
    let mut pairs = Vec::new(alloc);
    for (name, value) in map {
        add_member(alloc, name, value, &mut pairs)?;
    }
    Ok(Members { pairs })
}

/// Adds the member of a name and a value at the end, both of which it takes over. A number that
/// isn't whole is refused.
#[cycle(datum_from)]
fn add_member(
    alloc: Global,
    name: String,
    value: Value,
    pairs: &mut Vec<(Text, Datum)>,
) -> Result<(), DocError>
    requires { depth (view value) ≤ nesting_limit }
    ensures ok { OnOk result (GainsMember (string_bytes name) (view value)
        (map field_of pairs.old.items) (map field_of pairs.new.items)) }
    ensures not_whole { IsErrOf result DocError.NotWhole → whole_doc (view value) ≡ None }
    ensures only { IfErr result (λ e. (e ≡ DocError.Memory) ⊎ (e ≡ DocError.NotWhole)) }
{
    let value = datum_from(alloc, value)?;
    Ok(pairs.push((Text::from_string(name), value))?)
}
