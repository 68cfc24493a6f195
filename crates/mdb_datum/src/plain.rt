//! From the tokens of a text straight to its document, where the text is plain: whole numbers, names
//! that come once in an object, and no deep nesting. The walk stops at anything else.
ghost use Rattle.std.specs.Prelude.{◌≡◌, ◌≤◌, ◌<◌, ◌-◌, length, map, Some, None, IfOk, IfSome, OnOk, IsTrue, IsUtf8, ◌==◌, slice_index, true, false};
ghost use Rattle.std.specs.FinMap.Entries.{put};
ghost use Rattle.std.specs.Ordering.{is_lt};
ghost use Rattle.serde_json.specs.Data.{unsigned, negative};
ghost use Rattle.serde_json.specs.Read.{number_of};
ghost use Rattle.mdb_datum.specs.Bytes.{byte_order};
ghost use Rattle.mdb_datum.specs.Canonical.{FitsWord, IsRegular, AreRegular, NamesRise};
ghost use Rattle.mdb_datum.specs.Canonical.{nesting, docs_nesting, fields_nesting};
ghost use Rattle.mdb_datum.specs.Datum.{doc_of, field_of};
ghost use Rattle.mdb_datum.specs.Doc.{whole, doc_list, field_list};
ghost use Rattle.mdb_datum.specs.Row.{IsCanonicalRow};
ghost use Rattle.mdb_datum.specs.inner.Plain.{next_doc, next_docs, next_fields};
ghost use Rattle.mdb_datum.specs.inner.Plain.{IsPlaceOf, whole_in};

use crate::{Datum, Items, Members, Text};
use fast_float::Numeral;
use json::{Invalid, Reader, Token};
use std::alloc::{AllocError, AllocFailed, Global};

/// `serde_json` lets lists and objects nest so deep.
pub(crate) const JSON_DEPTH: usize = 127;

/// What is left of that where a document nests as deep as it may.
const SPARE_DEPTH: usize = 27;

/// An object that has so many members takes no more of them out of order, for each moves those
/// behind it.
const MOST_MOVED: usize = 64;

/// Why the walk stops.
#[derive(Clone, Copy)]
pub(crate) enum Stop {
    /// There was not enough memory.
    Memory,
    /// The text isn't plain, or no document.
    NotPlain,
}

impl From<AllocError> for Stop {
    /// Want of memory.
    fn from(_: AllocError) -> Self {
        Stop::Memory
    }
}

impl<T: Drop> From<AllocFailed<T>> for Stop {
    /// Want of memory.
    fn from(_: AllocFailed<T>) -> Self {
        Stop::Memory
    }
}

impl From<Invalid> for Stop {
    /// No name stands where one must.
    fn from(_: Invalid) -> Self {
        Stop::NotPlain
    }
}

/// Whether a number's text begins with a minus.
fn has_minus(bytes: &[u8]) -> bool
    ensures value { result ≡ (slice_index bytes.now 0 == 45) }
    ensures some { IsTrue result → 0 < length bytes.now }
{
    !bytes.is_empty() && bytes[0] == b'-'
}

/// The number that a text with no minus writes, where it is whole and fits a `u64`.
fn unsigned_in(text: &str) -> Option<u64>
    requires { (slice_index text.now 0 == 45) ≡ false }
    ensures { IfSome result (λ n. number_of text.now ≡ Some (unsigned n)) }
{
    Numeral::scan(text.as_bytes()).to_u64()
}

/// The number that a text with a minus writes, where it is whole, fits an `i64` and is no 0.
fn negative_in(text: &str) -> Option<i64>
    requires minus { (slice_index text.now 0 == 45) ≡ true }
    requires some { 0 < length text.now }
    ensures { IfSome result (λ z. number_of text.now ≡ Some (negative z)) }
{
    let n = Numeral::scan(&text.as_bytes()[1..]).to_i64(true)?;
    if n < 0 { Some(n) } else { None }
}

/// The number that a token writes, where it is whole and fits a `u64` or an `i64`.
fn whole_in(text: &str) -> Option<i128>
    ensures value { IfSome result (λ z. whole_in text.now ≡ Some (whole z)) }
    ensures fits { IfSome result FitsWord }
{
    if has_minus(text.as_bytes()) {
        Some(i128::from(negative_in(text)?))
    } else {
        Some(i128::from(unsigned_in(text)?))
    }
}

/// The document that a token's number is.
fn number_in(text: &str) -> Result<Datum, Stop>
    ensures ok { IfOk result (λ d. whole_in text.now ≡ Some (doc_of d)) }
    ensures regular { IfOk result (λ d. IsRegular (doc_of d)) }
    ensures shallow { IfOk result (λ d. nesting (doc_of d) ≡ 0) }
{
    match whole_in(text) {
        Some(n) => Ok(Datum::Whole(n)),
        None => Err(Stop::NotPlain),
    }
}

/// A copy of a token's text.
fn text_of(alloc: Global, s: &str) -> Result<Text, Stop>
    ensures same { IfOk result (λ t. t ≡ s.now) }
    ensures utf8 { IfOk result IsUtf8 }
{
    Ok(Text::from_string(String::from_str(alloc, s)?))
}

/// Whether a name is greater than another, by their bytes.
fn is_greater(name: &str, other: &str) -> bool
    ensures { result ≡ is_lt (byte_order other.now name.now) }
{
    other.as_bytes().cmp(&name.as_bytes()).is_lt()
}

/// Whether a name is greater than the last of those of members.
fn is_last(pairs: &[(Text, Datum)], name: &str) -> bool
    requires { NamesRise (field_list (map field_of pairs.now)) }
    ensures { IsTrue result
        → IsPlaceOf name.now (map field_of pairs.now) (length pairs.now) }
{
    let count = pairs.len();
    count == 0 || is_greater(name, pairs[count - 1].0.as_str())
}

/// The place of a name among members, where it is none of theirs.
fn gap_for(pairs: &[(Text, Datum)], name: &str) -> Option<usize>
    requires { NamesRise (field_list (map field_of pairs.now)) }
    ensures { IfSome result (IsPlaceOf name.now (map field_of pairs.now)) }
{
    let name = name.as_bytes();
    match pairs.binary_search_by(|pair| pair.0.as_str().as_bytes().cmp(&name)) {
        Ok(_) => None,
        Err(at) => Some(at),
    }
}

/// The same, where the name comes last or few members have to move.
fn place_for(pairs: &[(Text, Datum)], name: &str) -> Option<usize>
    requires { NamesRise (field_list (map field_of pairs.now)) }
    ensures { IfSome result (IsPlaceOf name.now (map field_of pairs.now)) }
{
    if is_last(pairs, name) {
        return Some(pairs.len());
    }
    if pairs.len() < MOST_MOVED {
        gap_for(pairs, name)
    } else {
        None
    }
}

/// Puts a member at its place among others. A name that one of them has isn't plain.
fn put_member(pairs: &mut Vec<(Text, Datum)>, name: Text, value: Datum) -> Result<(), Stop>
    requires { NamesRise (field_list (map field_of pairs.old.items)) }
    ensures { OnOk result (map field_of pairs.new.items
        ≡ put byte_order name (doc_of value) (map field_of pairs.old.items)) }
{
    let at = place_for(pairs, name.as_str()).ok_or(Stop::NotPlain)?;
    pairs.insert(at, (name, value))?;
    Ok(())
}

/// The document that the next value is, with lists and objects at most so deep as the number says,
/// but for those to spare.
#[cycle(plain)]
pub(crate) fn plain_value(
    alloc: Global,
    reader: &mut Reader<'_>,
    depth: usize,
) -> Result<Datum, Stop>
    requires { depth ≤ JSON_DEPTH }
    ensures ok { IfOk result (λ d. next_doc depth reader.old ≡ Some (doc_of d, reader.new)) }
    ensures regular { IfOk result (λ d. IsRegular (doc_of d)) }
    ensures shallow { IfOk result (λ d. nesting (doc_of d) ≤ depth - SPARE_DEPTH) }
    ensures shorter { OnOk result (length reader.new < length reader.old) }
{
    let token = reader.next().ok_or(Stop::NotPlain)?;
    match token {
        Token::String(text) => Ok(Datum::Str(text_of(alloc, text)?)),
        Token::Number(text) => Ok(number_in(text)?),
        Token::Bool(flag) => Ok(Datum::Flag(flag)),
        Token::Null => Ok(Datum::Nil),
        Token::EndObject | Token::EndArray | Token::Key(_) | Token::Bad => Err(Stop::NotPlain),
        Token::BeginArray => {
            if depth <= SPARE_DEPTH {
                return Err(Stop::NotPlain);
            }
            Ok(Datum::Items(plain_items(alloc, reader, depth - 1)?))
        }
        Token::BeginObject => {
            if depth <= SPARE_DEPTH {
                return Err(Stop::NotPlain);
            }
            Ok(Datum::Members(plain_members(alloc, reader, depth - 1)?))
        }
    }
}

/// The documents of a list, behind its first bracket.
#[cycle(plain)]
fn plain_items(alloc: Global, reader: &mut Reader<'_>, depth: usize) -> Result<Items, Stop>
    requires { depth < JSON_DEPTH }
    ensures ok { IfOk result
        (λ l. next_docs depth reader.old ≡ Some (doc_list l, reader.new)) }
    ensures regular { IfOk result (λ l. AreRegular (doc_list l)) }
    ensures shallow { IfOk result (λ l. docs_nesting l ≤ depth - SPARE_DEPTH) }
    ensures shorter { OnOk result (length reader.new < length reader.old) }
{
    let mut items = Items::new(alloc);
    'items: while !reader.take_end_array() {
        let item = plain_value(alloc, reader, depth)?;
        items.push(item)?;
    }
    Ok(items)
}

/// The members of an object, behind its first brace, in the order of their names' bytes.
#[cycle(plain)]
fn plain_members(alloc: Global, reader: &mut Reader<'_>, depth: usize) -> Result<Members, Stop>
    requires { depth < JSON_DEPTH }
    ensures ok { IfOk result
        (λ m. next_fields depth reader.old ≡ Some (field_list m, reader.new)) }
    ensures regular { IfOk result IsCanonicalRow }
    ensures shallow { IfOk result (λ m. fields_nesting m ≤ depth - SPARE_DEPTH) }
    ensures shorter { OnOk result (length reader.new < length reader.old) }
{
    let mut pairs = Vec::new(alloc);
    'members: while let Some(name) = reader.next_key()? {
        let name = text_of(alloc, name)?;
        let value = plain_value(alloc, reader, depth)?;
        put_member(&mut pairs, name, value)?;
    }
    Ok(Members { pairs })
}
