//! Tables, indexes and indexers, in both versions of the format.
use crate::tables::{Case, Form, are_lines_told, are_told};
use std::test::Fail;

/// What stands in `tables`, at the place of `@`, in each version of the format.
static TABLES: [&str; 2] = [r#"{"memdb":1,"tables":{@}}"#, r#"{"memdb":2,"tables":{@}}"#];

static OF_TABLES: &str = r#"// One rule is broken.
"t":null => bad-shape t
"t":[] => bad-shape t
"t":{} => bad-shape t
"t":{"indexes":[]} => bad-shape t
"t":{"indexes":{},"x":1} => bad-shape t
"t":{"index":{}} => bad-shape t
"t":{"indexes":{}} => no-indexes t
"t":{"indexes":{"x":{"indexer":$}}} => no-id t
"t":{"indexes":{"ID":{"unique":true,"indexer":$}}} => no-id t
"t":{"indexes":{"id2":{"unique":true,"indexer":$}}} => no-id t
"a":{"indexes":{"id":{"unique":true,"indexer":$}}},"b":{"indexes":{}} => no-indexes b
// Two rules are broken: the first in order is told.
// A width in table `a`, then the name of table `b!`.
"b!":{},"a":{"indexes":{"id":{"unique":true,"indexer":{"kind":"uint","field":"n","width":3}}}} => bad-width a id
// No `id` in table `a`, then an unknown kind in table `b`.
"a":{"indexes":{"x":{"indexer":$}}},"b":{"indexes":{"id":{"unique":true,"indexer":{"kind":"blob"}}}} => no-id a
// What `id` of table `a` has to be, then the shape of table `b`.
"a":{"indexes":{"id":{"indexer":$}}},"b":[] => id-not-unique a id
// The same with the tables' names the other way round.
"b":{"indexes":{"id":{"indexer":$}}},"a":[] => bad-shape a
// Table `a` is lawful.
"c":1,"b":{"indexes":{}},"a":{"indexes":{"id":{"unique":true,"indexer":$}}} => no-indexes b
// Upper case stands before lower case.
"a":{"indexes":{}},"Z":{} => bad-shape Z
// Names are told without their escapes.
"a\\b":1 => bad-name a\b
"#;

#[test]
fn a_broken_rule_of_tables_is_told(rt: HostRuntime) -> Result<(), Fail> {
    are_lines_told(rt.alloc(), Form::Both(&TABLES), OF_TABLES)
}

/// A name that is told without its escapes, of which one is a line feed.
static ESCAPED: [Case; 1] = [(r#""a\"\n\u0041":1"#, "bad-name a\"\nA")];

#[test]
fn a_name_is_told_without_its_escapes(rt: HostRuntime) -> Result<(), Fail> {
    are_told(rt.alloc(), Form::Both(&TABLES), &ESCAPED)
}

/// What stands in `indexes` of the table `t`, at the place of `@`. In version 2 the table is tracked.
static INDEXES: [&str; 2] = [
    r#"{"memdb":1,"tables":{"t":{"indexes":{@}}}}"#,
    r#"{"memdb":2,"tables":{"t":{"tracked":true,"indexes":{@}}}}"#,
];

static OF_INDEXES: &str = r#"// One rule is broken.
"id":null => bad-shape t id
"id":[] => bad-shape t id
"id":{} => bad-shape t id
"id":{"unique":true} => bad-shape t id
"id":{"unique":1,"indexer":$} => bad-shape t id
"id":{"unique":null,"indexer":$} => bad-shape t id
"id":{"unique":"true","indexer":$} => bad-shape t id
"id":{"unique":true,"allow_missing":0,"indexer":$} => bad-shape t id
"id":{"unique":true,"allow_missing":null,"indexer":$} => bad-shape t id
"id":{"unique":true,"indexer":$,"name":"id"} => bad-shape t id
"id":{"unique":true,"indexer":$},"x":{"unique":true} => bad-shape t x
"id":{"indexer":$} => id-not-unique t id
"id":{"unique":false,"indexer":$} => id-not-unique t id
"id":{"unique":true,"allow_missing":true,"indexer":$} => id-allows-missing t id
"id":{"unique":true,"indexer":{"kind":"text_list","field":"a"}} => id-multi t id
"id":{"unique":true,"indexer":{"kind":"text_map","field":"a"}} => id-multi t id
"id":{"unique":true,"indexer":$},"x":{"indexer":{"kind":"text","field":""}} => bad-shape t x
// Two rules are broken: the first in order is told.
// No `id`, then the name of an index.
"a b":{"indexer":$} => no-id t
"x_prefix":1 => no-id t
// The name of an index, then its shape.
"id":{"unique":true,"indexer":$},"x_prefix":1 => bad-name t x_prefix
// An earlier index, then `id`.
"id":{"indexer":$},"a":{"indexer":{"kind":"int","field":"n","width":7}} => bad-width t a
// `id`, then a later index.
"x":{"indexer":{"kind":"int","field":"n","width":7}},"id":{"indexer":$} => id-not-unique t id
// A later index after a lawful `id`: the names stand in byte order.
"y":1,"x":{"indexer":{"kind":"blob"}},"id":{"unique":true,"indexer":$} => unknown-kind t x
// The shape of the index, then its indexer.
"id":{"unique":1,"indexer":{"kind":"blob"}} => bad-shape t id
// The indexer, then what `id` has to be.
"id":{"indexer":{"kind":"blob","field":"a"}} => unknown-kind t id
"id":{"allow_missing":true,"indexer":{"kind":"uint","field":"a","width":6}} => bad-width t id
// What `id` has to be, one after the other.
"id":{"allow_missing":true,"indexer":{"kind":"text_list","field":"a"}} => id-multi t id
"id":{"allow_missing":true,"indexer":$} => id-not-unique t id
"#;

#[test]
fn a_broken_rule_of_indexes_is_told(rt: HostRuntime) -> Result<(), Fail> {
    are_lines_told(rt.alloc(), Form::Both(&INDEXES), OF_INDEXES)
}

/// The indexer of the index `id` of the table `t`, at the place of `@`. In version 2 the table is
/// tracked.
static INDEXER: [&str; 2] = [
    r#"{"memdb":1,"tables":{"t":{"indexes":{"id":{"unique":true,"indexer":@}}}}}"#,
    r#"{"memdb":2,"tables":{"t":{"tracked":true,"indexes":{"id":{"unique":true,"indexer":@}}}}}"#,
];

static OF_INDEXERS: &str = r#"// These are read.
$ => a schema
{"kind":"text","field":"a","lowercase":true} => a schema
{"kind":"text","field":"a","lowercase":false} => a schema
{"kind":"uint","field":"a b","width":1} => a schema
{"kind":"uint","field":"a","width":8} => a schema
{"kind":"int","field":"a","width":4} => a schema
{"kind":"bool","field":"id"} => a schema
{"kind":"uuid","field":"\u00e4"} => a schema
{"kind":"field_set","field":"a"} => a schema
{"kind":"conditional","field":"a","equals":null} => a schema
{"kind":"conditional","field":"a","equals":true} => a schema
{"kind":"conditional","field":"a","equals":-7} => a schema
{"kind":"conditional","field":"a","equals":18446744073709551615} => a schema
{"kind":"conditional","field":"a","equals":""} => a schema
{"kind":"compound","parts":[{"kind":"uuid","field":"a"}]} => a schema
// The compound's own `allow_missing` is not the index's.
{"kind":"compound","allow_missing":true,"parts":[{"kind":"int","field":"b","width":2},{"kind":"conditional","field":"a","equals":1},{"kind":"field_set","field":"a"},{"kind":"bool","field":"a"}]} => a schema
// One rule is broken.
null => bad-shape t id
"text" => bad-shape t id
["text"] => bad-shape t id
{} => bad-shape t id
{"field":"a"} => bad-shape t id
{"kind":1,"field":"a"} => bad-shape t id
{"kind":null,"field":"a"} => bad-shape t id
{"kind":"Text","field":"a"} => unknown-kind t id
{"kind":"","field":"a"} => unknown-kind t id
{"kind":"string","field":"a"} => unknown-kind t id
{"kind":"text"} => bad-shape t id
{"kind":"text","field":null} => bad-shape t id
{"kind":"text","field":["a"]} => bad-shape t id
{"kind":"text","field":""} => bad-shape t id
{"kind":"text","field":"a","lowercase":1} => bad-shape t id
{"kind":"text","field":"a","lowercase":null} => bad-shape t id
{"kind":"text","field":"a","width":1} => bad-shape t id
{"kind":"text_list","fields":"a"} => bad-shape t id
{"kind":"text_map","field":"a","allow_missing":true} => bad-shape t id
{"kind":"uint","field":"a"} => bad-shape t id
{"kind":"uint","width":1} => bad-shape t id
{"kind":"uint","field":"a","width":"1"} => bad-shape t id
{"kind":"uint","field":"a","width":true} => bad-shape t id
{"kind":"uint","field":"a","width":null} => bad-shape t id
{"kind":"uint","field":"a","width":1,"lowercase":false} => bad-shape t id
{"kind":"uint","field":"a","width":0} => bad-width t id
{"kind":"uint","field":"a","width":3} => bad-width t id
{"kind":"uint","field":"a","width":16} => bad-width t id
{"kind":"int","field":"a","width":-1} => bad-width t id
{"kind":"int","field":"a","width":18446744073709551615} => bad-width t id
{"kind":"bool"} => bad-shape t id
{"kind":"bool","field":"a","lowercase":true} => bad-shape t id
{"kind":"uuid","field":"a","width":8} => bad-shape t id
{"kind":"field_set","field":""} => bad-shape t id
{"kind":"conditional","field":"a"} => bad-shape t id
{"kind":"conditional","equals":1} => bad-shape t id
{"kind":"conditional","field":"a","equals":[]} => bad-shape t id
{"kind":"conditional","field":"a","equals":{}} => bad-shape t id
{"kind":"compound"} => bad-shape t id
{"kind":"compound","parts":{}} => bad-shape t id
{"kind":"compound","parts":[],"field":"a"} => bad-shape t id
{"kind":"compound","parts":[],"allow_missing":1} => bad-shape t id
{"kind":"compound","parts":[]} => empty-compound t id
{"kind":"compound","parts":[null]} => bad-shape t id
{"kind":"compound","parts":[{"field":"a"}]} => bad-shape t id
{"kind":"compound","parts":[{"kind":"text"}]} => bad-shape t id
{"kind":"compound","parts":[{"kind":"x","field":"a"}]} => unknown-kind t id
{"kind":"compound","parts":[{"kind":"int","field":"a","width":5}]} => bad-width t id
{"kind":"compound","parts":[{"kind":"text_list","field":"a"}]} => bad-part t id
{"kind":"compound","parts":[{"kind":"text_map","field":"a"}]} => bad-part t id
{"kind":"compound","parts":[{"kind":"compound","parts":[$]}]} => bad-part t id
{"kind":"compound","parts":[$,{"kind":"compound","parts":[]}]} => bad-part t id
// Two rules are broken: the first in order is told.
// The kind, then the members.
{"kind":"blob","x":1} => unknown-kind t id
// The members, then the width.
{"kind":"uint","field":"","width":3} => bad-shape t id
{"kind":"uint","field":"a","width":3,"x":1} => bad-shape t id
// The members, then the parts.
{"kind":"compound","allow_missing":1,"parts":[]} => bad-shape t id
{"kind":"compound","x":1,"parts":[{"kind":"text_list"}]} => bad-shape t id
// Parts from the left.
{"kind":"compound","parts":[{"kind":"uint","field":"n","width":3},{"kind":"text_list","field":"a"}]} => bad-width t id
{"kind":"compound","parts":[{"kind":"text_list","field":"a"},{"kind":"uint","field":"n","width":3}]} => bad-part t id
{"kind":"compound","parts":[{"kind":"blob"},{"kind":"compound"}]} => unknown-kind t id
{"kind":"compound","parts":[{"kind":"text"},{"kind":"blob"}]} => bad-shape t id
// A part's kind, then its members.
{"kind":"compound","parts":[{"kind":"text_map"}]} => bad-part t id
{"kind":"compound","parts":[{"kind":"compound","x":1}]} => bad-part t id
{"kind":"compound","parts":[{"kind":"compound","parts":[]}]} => bad-part t id
{"kind":"compound","parts":[{"kind":"blob","x":1}]} => unknown-kind t id
// The members, then what `id` has to be.
{"kind":"text_list","field":"a","width":1} => bad-shape t id
"#;

#[test]
fn a_broken_rule_of_an_indexer_is_told(rt: HostRuntime) -> Result<(), Fail> {
    are_lines_told(rt.alloc(), Form::Both(&INDEXER), OF_INDEXERS)
}

/// An index `x` beside `id`, with each choice of `unique` and `allow_missing`.
const BESIDE_ID: &str =
    r#"{"memdb":1,"tables":{"t":{"indexes":{"id":{"unique":true,"indexer":$},"x":{@}}}}}"#;

/// Indexes that may not be `id`, and the same with other rules.
static INDEXES_BESIDE_ID: &str =
    r#""indexer":{"kind":"text_list","field":"a","lowercase":true} => a schema
"unique":true,"indexer":{"kind":"text_list","field":"a"} => a schema
"allow_missing":true,"indexer":{"kind":"text_map","field":"a"} => a schema
"unique":true,"allow_missing":true,"indexer":{"kind":"text_map","field":"a"} => a schema
"indexer":{"kind":"uint","field":"a","width":2} => a schema
"allow_missing":true,"indexer":$ => a schema
"#;

#[test]
fn indexes_beside_id_are_read(rt: HostRuntime) -> Result<(), Fail> {
    are_lines_told(rt.alloc(), Form::Schema(BESIDE_ID), INDEXES_BESIDE_ID)
}
