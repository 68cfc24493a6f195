//! Texts and what they read as are those of RFC 8259 and of the documentation of `serde_json`.

use crate::tables::{Form, Text, Told, are_lines_told, holds, is_so};
use mdb_datum::{
    Datum, DocError, DocReader, Items, Members, Row, Text as Letters, read_doc, write_doc,
};
use mdb_encode::Scalar;
use std::alloc::{AllocError, AllocFailed, Global};
use std::sync::Wait;
use std::test::Fail;
use std::thread::{Threads, join};

// ---- what texts are told as

/// The word for the refusal of a text.
fn refusal(error: DocError) -> &'static str {
    match error {
        DocError::Memory => "memory",
        DocError::Syntax => "syntax",
        DocError::Deep => "deep",
        DocError::NotWhole => "not-whole",
    }
}

/// The compact text of a document.
fn compact(alloc: Global, document: &Datum) -> Text {
    match String::from_utf8(write_doc(alloc, document)?) {
        Ok(text) => Ok(text),
        Err(_) => String::from_str(alloc, "no text"),
    }
}

/// The compact text of what was read, or the word for the refusal.
pub fn doc_told(alloc: Global, found: Result<Datum, DocError>) -> Text {
    match found {
        Ok(document) => {
            let text = compact(alloc, &document);
            drop(document);
            text
        }
        Err(DocError::Memory) => Err(AllocError),
        Err(error) => String::from_str(alloc, refusal(error)),
    }
}

/// The document that a text is. Another text counts as want of memory, which ends a test.
fn doc_of(alloc: Global, text: &str) -> Result<Datum, AllocError> {
    match read_doc(alloc, text.as_bytes()) {
        Ok(document) => Ok(document),
        Err(_) => Err(AllocError),
    }
}

/// Whether a document is a scalar.
pub fn scalar_told(alloc: Global, text: &str) -> Text {
    match Scalar::of(doc_of(alloc, text)?) {
        Some(_) => String::from_str(alloc, "scalar"),
        None => String::from_str(alloc, "none"),
    }
}

/// The members of the object that a text is. Another text counts as want of memory, which ends a
/// test.
fn members_of(alloc: Global, text: &str) -> Result<Members, AllocError> {
    match read_doc(alloc, text.as_bytes()) {
        Ok(Datum::Members(members)) => Ok(members),
        _ => Err(AllocError),
    }
}

/// The row of those members.
pub fn row_of(alloc: Global, text: &str) -> Result<Row, AllocError> {
    Row::of(alloc, members_of(alloc, text)?)
}

/// Whether two rows have the same members, as each of them tells.
fn sameness(one: &Row, other: &Row) -> &'static str {
    match (one.has_same_members(other), other.has_same_members(one)) {
        (true, true) => "the same",
        (false, false) => "different",
        _ => "each tells otherwise",
    }
}

/// The same of rows that are read from their texts.
fn rows_told(alloc: Global, one: &str, other: &str) -> Text {
    let one = row_of(alloc, one)?;
    let other = row_of(alloc, other)?;
    String::from_str(alloc, sameness(&one, &other))
}

/// The same of texts with a bar between them.
pub fn pair_told(alloc: Global, text: &str) -> Text {
    match text.split_once(" | ") {
        Some((one, other)) => rows_told(alloc, one, other),
        None => String::from_str(alloc, "one text"),
    }
}

// ---- documents that are read or refused

static DOCUMENTS: &str = r#"null => null
false => false
0 => 0
-1 => -1
18446744073709551615 => 18446744073709551615
9223372036854775808 => 9223372036854775808
-9223372036854775808 => -9223372036854775808
"" => ""
[] => []
{} => {}
[ 1 , [ ] , { } ] => [1,[],{}]
{"b" : 1, "a" : [true, null]} => {"a":[true,null],"b":1}
{"a":1,"a":2} => {"a":2}
{"a":1.5,"a":2} => {"a":2}
{"":{"z":1,"y":2}} => {"":{"y":2,"z":1}}
{"Z":1,"a":2,"AA":3} => {"AA":3,"Z":1,"a":2}
"\"\\\/\b\f\n\r\t" => "\"\\/\b\f\n\r\t"
"\u0041\u00e9\u20AC" => "Aé€"
"\ud834\udd1e" => "𝄞"
{"\u0061":1} => {"a":1}
// Names that come in other orders.
{"c":1,"b":2,"a":3} => {"a":3,"b":2,"c":1}
{"b":[{}],"d":-7,"a":"x","c":{"z":1}} => {"a":"x","b":[{}],"c":{"z":1},"d":-7}
{"b":1,"a":2,"b":3} => {"a":2,"b":3}
[[],[[]],[[[1,2],3],4],"\n"] => [[],[[]],[[[1,2],3],4],"\n"]
{"ab":1,"a":2,"abc":3,"":4} => {"":4,"a":2,"ab":1,"abc":3}
// No JSON, and numbers that aren't whole.
 => syntax
  => syntax
{ => syntax
[ => syntax
[1 => syntax
[1,] => syntax
[,1] => syntax
[1 2] => syntax
{"a"} => syntax
{"a":} => syntax
{"a":1,} => syntax
{a:1} => syntax
{1:2} => syntax
] => syntax
1 2 => syntax
01 => syntax
- => syntax
-01 => syntax
+1 => syntax
.5 => syntax
1. => syntax
1e => syntax
0x1 => syntax
NaN => syntax
True => syntax
nul => syntax
'a' => syntax
"a => syntax
"\x" => syntax
1e400 => syntax
/**/1 => syntax
// Numbers that aren't whole.
1.0 => not-whole
-0 => not-whole
-0.0 => not-whole
1e2 => not-whole
1E+2 => not-whole
0.5 => not-whole
1e-400 => not-whole
18446744073709551616 => not-whole
-9223372036854775809 => not-whole
[1,[2,{"a":3.5}]] => not-whole
{"a":1,"a":2.0} => not-whole
// Lists, one in the other, round a scalar or nothing.
~99 [~1~99 ]~ => ~99 [~1~99 ]~
~100 [~1~100 ]~ => ~100 [~1~100 ]~
~100 [~~100 ]~ => ~100 [~~100 ]~
~101 [~1~101 ]~ => deep
~101 [~~101 ]~ => deep
~127 [~1~127 ]~ => deep
~128 [~1~128 ]~ => syntax
~100 [~1.5~100 ]~ => not-whole
~101 [~1.5~101 ]~ => deep
~100 [~{}~100 ]~ => deep
~101 [~!~101 ]~ => syntax
"#;

#[test]
fn documents_read_as_their_compact_text(rt: HostRuntime) -> Result<(), Fail> {
    are_lines_told(rt.alloc(), Form::Document, DOCUMENTS)
}

/// Bytes that are no text, or that no line can have.
static BYTES: [(&[u8], &str); 13] = [
    (b"\xef\xbb\xbf1", "syntax"),
    (b"\"\xff\"", "syntax"),
    (b"\"\xc3\"", "syntax"),
    (b"\"\xc0\x80\"", "syntax"),
    (b"\"\xed\xa0\x80\"", "syntax"),
    (b"\"\\ud834\"", "syntax"),
    (b"\"\\udd1e\"", "syntax"),
    (b"\"\\ud834\\u0041\"", "syntax"),
    (b"\"\\udd1e\\ud834\"", "syntax"),
    (b" \t\r\n true ", "true"),
    (b"\"\\u0000\\u001f\\u007f\"", "\"\\u0000\\u001f\u{7f}\""),
    (b"\"a\nb\"", "syntax"),
    (b"\"\xf0\x9d\x84\x9e\xe2\x80\xa8\"", "\"\u{1d11e}\u{2028}\""),
];

/// Whether bytes are told as wanted, by a reading of their own and by a reader.
fn are_bytes_told(reader: &mut DocReader, bytes: &[u8], wanted: &str) -> Told {
    let alloc = reader.alloc();
    Ok(
        is_so(doc_told(alloc, read_doc(alloc, bytes)), wanted)?
            && is_so(doc_told(alloc, reader.read(bytes)), wanted)?,
    )
}

/// Whether all of those are, one after another by one reader.
fn are_all_bytes_told(alloc: Global) -> Told {
    let mut reader = DocReader::new(alloc);
    for (bytes, wanted) in &BYTES {
        if !are_bytes_told(&mut reader, bytes, wanted)? {
            return Ok(false);
        }
    }
    Ok(true)
}

#[test]
fn bytes_are_told(rt: HostRuntime) -> Result<(), Fail> {
    holds(are_all_bytes_told(rt.alloc()))
}

#[test]
fn a_reader_reads_one_text_after_another(rt: HostRuntime) -> Result<(), Fail> {
    are_lines_told(rt.alloc(), Form::Again, DOCUMENTS)
}

// ---- values

/// Whether a text with escapes is written with them.
fn is_text_written(alloc: Global) -> Told {
    let document = Datum::Str(Letters::of(alloc, "a\n\"")?);
    is_so(compact(alloc, &document), "\"a\\n\\\"\"")
}

#[test]
fn a_text_is_written_with_its_escapes(rt: HostRuntime) -> Result<(), Fail> {
    holds(is_text_written(rt.alloc()))
}

/// Whether the least number is written.
fn is_least_written(alloc: Global) -> Told {
    let least = "-170141183460469231731687303715884105728";
    is_so(compact(alloc, &Datum::Whole(i128::MIN)), least)
}

#[test]
fn the_least_number_is_written(rt: HostRuntime) -> Result<(), Fail> {
    holds(is_least_written(rt.alloc()))
}

/// The items `null` and `true`.
fn two_items(alloc: Global) -> Result<Items, AllocError> {
    let mut items = Items::new(alloc);
    items.push(Datum::Nil)?;
    items.push(Datum::Flag(true))?;
    Ok(items)
}

/// Whether those are all the items.
fn are_two(items: &Items) -> bool {
    let first = matches!(items.iter().next(), Some(Datum::Nil));
    let next = matches!(items.get(1), Some(Datum::Flag(true)));
    items.len() == 2 && items.get(2).is_none() && first && next
}

/// Whether a document has those items.
fn has_two(document: &Datum) -> bool {
    match document {
        Datum::Items(items) => are_two(items),
        _ => false,
    }
}

/// Whether they are kept and written in order.
fn are_items_kept(alloc: Global) -> Told {
    let document = Datum::Items(two_items(alloc)?);
    Ok(has_two(&document) && is_so(compact(alloc, &document), "[null,true]")?)
}

#[test]
fn items_are_kept_in_order(rt: HostRuntime) -> Result<(), Fail> {
    holds(are_items_kept(rt.alloc()))
}

/// Whether the member at a place has this name.
fn is_named(members: &Members, at: usize, want: &str) -> bool {
    match members.pair(at) {
        Some((name, _)) => name.as_str() == want,
        None => false,
    }
}

/// Whether there are two members.
fn are_two_members(members: &Members) -> bool {
    members.len() == 2 && members.pair(2).is_none() && members.iter().count() == 2
}

/// Whether members are an `age` of 7 and a `name`.
fn are_age_and_name(members: &Members) -> bool {
    let age = matches!(members.get("age"), Some(Datum::Whole(7)));
    let both = is_named(members, 0, "age") && is_named(members, 1, "name");
    age && both && are_two_members(members) && members.get("nam").is_none()
}

/// Whether those are found in what is read.
fn are_members_found(alloc: Global) -> Told {
    let members = members_of(alloc, "{\"name\":\"x\",\"age\":7}")?;
    Ok(are_age_and_name(&members))
}

#[test]
fn members_are_found_by_name_and_place(rt: HostRuntime) -> Result<(), Fail> {
    holds(are_members_found(rt.alloc()))
}

/// Whether both errors of an allocation are named.
fn is_want_named() -> bool {
    DocError::from(AllocError) == DocError::Memory
        && DocError::from(AllocFailed { value: 7u8 }) == DocError::Memory
}

#[test]
fn want_of_memory_is_named() -> Result<(), Fail> {
    holds(Ok(is_want_named()))
}

// ---- rows

/// Names, and the numbers of the members of these names, if there are any.
static NUMBERS: [(&str, Option<i128>); 9] = [
    ("", Some(0)),
    ("ab", Some(1)),
    ("b", Some(2)),
    ("bb", Some(3)),
    ("c", Some(4)),
    ("a", None),
    ("ba", None),
    ("bbb", None),
    ("d", None),
];

/// Whether the member of a name is this number, or there is none.
fn has_number(row: &Row, name: &str, number: Option<i128>) -> bool {
    match row.get(name) {
        Some(Datum::Whole(found)) => number == Some(*found),
        Some(_) => false,
        None => number.is_none(),
    }
}

/// Whether a row has the numbers.
fn has_numbers(row: &Row) -> bool {
    for (name, number) in &NUMBERS {
        if !has_number(row, name, *number) {
            return false;
        }
    }
    true
}

/// Whether the row of five members has them.
fn are_numbers_found(alloc: Global) -> Told {
    let row = row_of(alloc, "{\"b\":2,\"ab\":1,\"\":0,\"bb\":3,\"c\":4}")?;
    Ok(has_numbers(&row))
}

#[test]
fn a_member_of_a_row_is_found_by_name(rt: HostRuntime) -> Result<(), Fail> {
    holds(are_numbers_found(rt.alloc()))
}

/// Whether a row without members has none.
fn is_bare(alloc: Global) -> Told {
    let row = row_of(alloc, "{}")?;
    Ok(row.get("").is_none() && row.members().len() == 0)
}

#[test]
fn a_row_without_members_has_none(rt: HostRuntime) -> Result<(), Fail> {
    holds(is_bare(rt.alloc()))
}

/// Adds a row's text twice.
fn append_twice(row: &Row, out: &mut Vec<u8>) -> Result<(), AllocError> {
    row.append_doc(out)?;
    row.append_doc(out)
}

/// Whether a row's text is written twice behind other bytes.
fn is_written_twice(alloc: Global, row: &Row) -> Told {
    let mut out = b"row ".to_vec(alloc)?;
    append_twice(row, &mut out)?;
    Ok(out.as_slice() == b"row {\"a\":null,\"b\":[2]}{\"a\":null,\"b\":[2]}".as_slice())
}

/// Whether it is for a row that is read.
fn is_row_written(alloc: Global) -> Told {
    let row = row_of(alloc, "{\"b\":[2],\"a\":null}")?;
    is_written_twice(alloc, &row)
}

#[test]
fn a_row_is_written_behind_other_bytes(rt: HostRuntime) -> Result<(), Fail> {
    holds(is_row_written(rt.alloc()))
}

/// Whether this is the text of a row.
fn is_doc(doc: Result<Vec<u8>, AllocError>) -> Told {
    Ok(doc?.as_slice() == b"{\"a\":1,\"b\":2}".as_slice())
}

/// Whether two threads give the text of a row, one that borrows it and one with an owner of it.
fn gives_docs<R: Threads + Wait + Sync>(rt: &R, row: &Row, second: Row) -> Told {
    let (lent, moved) = join(rt, || is_doc(row.doc()), move || is_doc(second.doc()));
    Ok(lent? && moved?)
}

/// Whether they do for a row that is read.
fn is_row_shared<R: Threads + Wait + Sync>(rt: &R, alloc: Global) -> Told {
    let row = row_of(alloc, "{\"b\":2,\"a\":1}")?;
    gives_docs(rt, &row, row.share()?)
}

#[test]
fn a_row_is_shared_by_threads(rt: HostRuntime) -> Result<(), Fail> {
    holds(is_row_shared(&rt, rt.alloc()))
}

/// Rows with the same members, which their texts give in other orders or with other blanks, and rows
/// that differ, each in one way.
static PAIRS: &str = r#"{} |  { }  => the same
{"a":null} | {"a" : null} => the same
{"b":2,"a":true} | {"a":true,"b":2} => the same
{"a":"\u0041"} | {"a":"A"} => the same
{"a":1,"a":-7} | {"a":-7} => the same
{"a":[]} | {"a":[ ]} => the same
{"a":[1,[true,"x"]]} | {"a":[1, [true, "x"]]} => the same
{"a":{"c":{},"b":0}} | {"a":{"b":0,"c":{}}} => the same
{"a":18446744073709551615} | {"a":18446744073709551615} => the same
{} | {"a":null} => different
{"a":1} | {"b":1} => different
{"a":1} | {"ab":1} => different
{"a":1} | {"a":1,"b":2} => different
{"a":1,"b":2} | {"a":1,"b":3} => different
{"a":1,"b":2} | {"a":0,"b":2} => different
{"a":1,"b":2} | {"a":1,"c":2} => different
{"a":null} | {"a":false} => different
{"a":true} | {"a":false} => different
{"a":0} | {"a":false} => different
{"a":1} | {"a":-1} => different
{"a":1} | {"a":"1"} => different
{"a":"x"} | {"a":"xy"} => different
{"a":"x"} | {"a":"X"} => different
{"a":[]} | {"a":{}} => different
{"a":[1]} | {"a":[1,1]} => different
{"a":[1,2]} | {"a":[2,1]} => different
{"a":[1,[2]]} | {"a":[1,[3]]} => different
{"a":{"b":1}} | {"a":{"b":1,"c":1}} => different
{"a":{"b":[{}]}} | {"a":{"b":[{"c":0}]}} => different
"#;

#[test]
fn rows_of_the_same_members_are_the_same(rt: HostRuntime) -> Result<(), Fail> {
    are_lines_told(rt.alloc(), Form::Pair, PAIRS)
}
