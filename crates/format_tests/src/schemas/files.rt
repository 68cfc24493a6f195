//! Files as a whole. What a schema is read as, the worked documents tell.
use super::{schema_told, worked_documents};
use crate::tables::{Case, Form, are_lines_told, are_told, holds, is_so};
use std::test::Fail;

/// A file, at the place of `@`.
const WHOLE: &str = "@";

static FILES: &str = r#"// One rule is broken.
 => syntax
{ => syntax
{"memdb":1,"tables":{}}} => syntax
{'memdb':1,"tables":{}} => syntax
{"memdb":1.0,"tables":{}} => syntax
{"memdb":1e0,"tables":{}} => syntax
{"memdb":-0,"tables":{}} => syntax
{"memdb":18446744073709551616,"tables":{}} => syntax
{"memdb":1,"tables":{"t":{"indexes":{"id":{"unique":true,"indexer":{"kind":"uint","field":"a","width":2.0}}}}}} => syntax
[[[[[[[[[[[[[[[[[[[[[[[[[[[[[[[[[[[[[[[[[[[[[[[[[[[[[[[[[[[[[[[[[[[[[[[[[[[[[[[[[[[[[[[[[[[[[[[[[[[[[]]]]]]]]]]]]]]]]]]]]]]]]]]]]]]]]]]]]]]]]]]]]]]]]]]]]]]]]]]]]]]]]]]]]]]]]]]]]]]]]]]]]]]]]]]]]]]]]]]]]] => syntax
null => bad-shape
1 => bad-shape
"memdb" => bad-shape
[] => bad-shape
{} => bad-shape
{"memdb":1} => bad-shape
{"tables":{}} => bad-shape
{"memdb":true,"tables":{}} => bad-shape
{"memdb":"1","tables":{}} => bad-shape
{"memdb":null,"tables":{}} => bad-shape
{"memdb":[1],"tables":{}} => bad-shape
{"memdb":1,"tables":[]} => bad-shape
{"memdb":1,"tables":null} => bad-shape
{"memdb":1,"tables":{},"x":1} => bad-shape
{"Memdb":1,"tables":{}} => bad-shape
{"memdb":0,"tables":{}} => bad-version
{"memdb":3,"tables":{}} => bad-version
{"memdb":-1,"tables":{}} => bad-version
{"memdb":18446744073709551615,"tables":{}} => bad-version
{"memdb":1,"memdb":3,"tables":{}} => bad-version
{"memdb":1,"tables":{}} => no-tables
 { "tables" : { } , "memdb" : 1 }  => no-tables
{"memdb":3,"memdb":1,"tables":{}} => no-tables
{"memdb":2,"tables":{}} => no-tables
{"memdb":1,"tables":1,"tables":{}} => no-tables
{"memdb":1,"tables":{"t":1},"tables":{}} => no-tables
// Two rules are broken: the first in order is told.
// The syntax, then the version.
{"memdb":3,"tables":{} => syntax
// A number that isn't whole far within, then the shape.
{"memdb":true,"tables":{"t":{"indexes":{"id":{"unique":1.5}}}}} => syntax
// The shape, then the version.
{"memdb":3,"tables":[]} => bad-shape
{"memdb":3,"tables":{},"x":1} => bad-shape
// The version, then no table.
{"memdb":3,"tables":{}} => bad-version
// The version, then a table's name.
{"memdb":0,"tables":{"":1}} => bad-version
// The first table's name by bytes, and not by place.
{"memdb":1,"tables":{"b":1,"a b":1}} => bad-name a b
{"memdb":1,"tables":{"a.":1,"B":1}} => bad-shape B
// A table's name, then its shape.
{"memdb":1,"tables":{"t_prefix":null}} => bad-name t_prefix
"#;

#[test]
fn a_broken_rule_of_a_file_is_told(rt: HostRuntime) -> Result<(), Fail> {
    worked_documents();
    are_lines_told(rt.alloc(), Form::Schema(WHOLE), FILES)
}

#[test]
fn bytes_that_are_no_text_are_no_syntax(rt: HostRuntime) -> Result<(), Fail> {
    holds(is_so(schema_told(rt.alloc(), b"\"\xff\""), "syntax"))
}

/// Whole files: of four tables, of two, and one whose members stand in any order.
static WHOLE_FILES: [Case; 3] = [
    (
        r#"{"memdb":1,"tables":{
"keys":{"indexes":{"id":{"unique":true,"indexer":{"kind":"uuid","field":"key"}}}},
"notes":{"indexes":{"id":{"unique":true,"indexer":{"kind":"text","field":"name"}}}},
"rules":{"indexes":{"id":{"unique":true,"indexer":{"kind":"text","field":"name"}},
"path":{"unique":true,"indexer":{"kind":"compound","allow_missing":true,
"parts":[{"kind":"text","field":"dc"},{"kind":"text","field":"svc"}]}}}},
"users":{"indexes":{"age":{"indexer":{"kind":"uint","field":"age","width":2}},
"id":{"unique":true,"indexer":{"kind":"text","field":"name"}},
"mail":{"unique":true,"allow_missing":true,"indexer":{"kind":"text","field":"mail"}},
"tags":{"allow_missing":true,"indexer":{"kind":"text_list","field":"tags"}}}}}}"#,
        "a schema",
    ),
    (
        r#"{"memdb":1,"tables":{
"nodes":{"indexes":{"id":{"unique":true,"indexer":{"kind":"text","field":"node","lowercase":true}},
"meta":{"allow_missing":true,"indexer":{"kind":"text_map","field":"meta"}},
"uuid":{"unique":true,"allow_missing":true,"indexer":{"kind":"uuid","field":"uuid"}}}},
"services":{"indexes":{"id":{"unique":true,"indexer":{"kind":"compound","parts":[
{"kind":"text","field":"node","lowercase":true},{"kind":"text","field":"sid","lowercase":true}]}},
"service":{"allow_missing":true,"indexer":{"kind":"text","field":"name","lowercase":true}},
"up":{"indexer":{"kind":"conditional","field":"status","equals":"passing"}}}}}}"#,
        "a schema",
    ),
    // Of several members of one name the last counts.
    (
        r#"{"tables":{"t":1,"b":{"indexes":{
"x":{"indexer":{"width":8,"field":"n","kind":"int"},"unique":false,"allow_missing":false},
"id":{"indexer":{"lowercase":true,"field":"b","kind":"text"},
"allow_missing":true,"unique":true,"allow_missing":false}}},
"t":{"indexes":{"id":{"indexer":{"field":"a","kind":"blob","kind":"bool"},"unique":true}}}},
"memdb":7,"memdb":1}"#,
        "a schema",
    ),
];

#[test]
fn whole_schemas_are_read(rt: HostRuntime) -> Result<(), Fail> {
    are_told(rt.alloc(), Form::Schema(WHOLE), &WHOLE_FILES)
}
