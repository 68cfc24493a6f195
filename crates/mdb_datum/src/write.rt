//! From a document to its text: one walk, which writes each token once into one buffer.
ghost use Rattle.std.specs.Prelude.{◌≡◌, ◌++◌, ◌∷◌, [], IfOk, OnOk, OnErr};
ghost use Rattle.std.specs.Fmt.{signed_decimal};
ghost use Rattle.json.specs.Token.{number};
ghost use Rattle.mdb_datum.specs.Doc.{list, object, doc_list, field_list};
ghost use Rattle.mdb_datum.specs.Datum.{doc_of};
ghost use Rattle.mdb_datum.specs.inner.Tokens.{doc_tokens};
ghost use Rattle.mdb_datum.specs.Canonical.{IsCanonical};
ghost use Rattle.mdb_datum.specs.Reading.{reading, read_as};
ghost use Rattle.mdb_datum.specs.Written.{compact, row_text};

use crate::{Datum, Items, Members};
use json::Writer;
use std::alloc::{AllocError, Global};

/// The compact text of a document: no blanks, members in their order, and the short escapes of
/// RFC 8259. It takes memory for the text, and time in proportion to it.
pub fn write_doc(alloc: Global, document: &Datum) -> Result<Vec<u8>, AllocError>
    ensures text { IfOk result (λ v. v.items ≡ compact (doc_of document.now)) }

    // What was read is canonical, so its text reads as the same document.
    ensures reads_back { IfOk result (λ v. IsCanonical (doc_of document.now)
        → reading v.items ≡ read_as (doc_of document.now)) }
{
    let mut out = Writer::new(Vec::new(alloc));
    put(document, &mut out)?;
    Ok(out.into_inner())
}

/// How many bytes a row's text has room for before it takes more memory.
const ROW_ROOM: usize = 256;

/// The compact text of the object with these members, in memory of the members' allocator.
pub(crate) fn write_members(members: &Members) -> Result<Vec<u8>, AllocError>
    ensures text { IfOk result (λ v. v.items ≡ row_text members.now) }
    ensures reads_back { IfOk result (λ v.
        reading v.items ≡ read_as (object (field_list members.now))) }
{
    let room = Vec::with_capacity(*members.pairs.allocator(), ROW_ROOM)?;
    let mut out = Writer::new(room);
    put_members(members, &mut out)?;
    Ok(out.into_inner())
}

/// Adds the compact text of the object with these members at the end of `out`. After `AllocError`
/// the bytes are as before.
///
/// The text is made in a buffer of its own, for the writer fills up to 16 KiB behind what stands in
/// its buffer, which is dearer than a copy where that is long and the text is short.
pub(crate) fn append_members(members: &Members, out: &mut Vec<u8>) -> Result<(), AllocError>
    ensures ok { OnOk result
        (out.new.items ≡ out.old.items ++ row_text members.now) }
    ensures err { OnErr result (out.new.items ≡ out.old.items) }
{
    let text = write_members(members)?;
    out.extend_from_slice(&text)
}

/// Writes a document's tokens.
#[cycle(put)]
fn put(document: &Datum, out: &mut Writer) -> Result<(), AllocError>
    ensures ok { OnOk result (out.new.tokens ≡ out.old.tokens ++ doc_tokens (doc_of document.now)) }
    ensures before { out.new.before ≡ out.old.before }
{
    match document {
        Datum::Nil => out.null(),
        Datum::Flag(flag) => out.boolean(*flag),
        Datum::Whole(whole) => put_number(*whole, out),
        Datum::Str(text) => out.string(text.as_str()),
        Datum::Items(items) => put_items(items, out),
        Datum::Members(members) => put_members(members, out),
    }
}

/// Writes a number in decimal.
fn put_number(whole: i128, out: &mut Writer) -> Result<(), AllocError>
    ensures ok { OnOk result
        (out.new.tokens ≡ out.old.tokens ++ number (signed_decimal whole) ∷ []) }
    ensures before { out.new.before ≡ out.old.before }
{
    let mut buffer = itoa::Buffer::new();
    out.number(buffer.format(whole))
}

/// Writes a list.
#[cycle(put)]
fn put_items(items: &Items, out: &mut Writer) -> Result<(), AllocError>
    ensures ok { OnOk result
        (out.new.tokens ≡ out.old.tokens ++ doc_tokens (list (doc_list items.now))) }
    ensures before { out.new.before ≡ out.old.before }
{
    out.begin_array()?;
    for item in &items.items {
        put(item, out)?;
    }
    out.end_array()
}

/// Writes an object, its members in their order.
#[cycle(put)]
fn put_members(members: &Members, out: &mut Writer) -> Result<(), AllocError>
    ensures ok { OnOk result (out.new.tokens
        ≡ out.old.tokens ++ doc_tokens (object (field_list members.now))) }
    ensures before { out.new.before ≡ out.old.before }
{
    out.begin_object()?;
    for (name, value) in &members.pairs {
        out.key(name.as_str())?;
        put(value, out)?;
    }
    out.end_object()
}
