//! Tables that are tracked, in version 2 of the format.
use crate::tables::{Form, are_lines_told};
use std::test::Fail;

/// The table `t` of version 2, with what stands beside its indexes at the place of `@`.
const VERSION_TWO: &str =
    r#"{"memdb":2,"tables":{"t":{"indexes":{"id":{"unique":true,"indexer":$}}@}}}"#;

/// The same of version 1.
const VERSION_ONE: &str =
    r#"{"memdb":1,"tables":{"t":{"indexes":{"id":{"unique":true,"indexer":$}}@}}}"#;

/// What stands in `tables` of version 2, at the place of `@`.
const TABLES_OF_TWO: &str = r#"{"memdb":2,"tables":{@}}"#;

/// The table `t`, which is tracked, and `u`, with the version at the place of `@`.
const TWO_TABLES: &str = r#"{"memdb":@,"tables":{
"t":{"tracked":true,"indexes":{"id":{"unique":true,"indexer":{"kind":"text","field":"name"}}}},
"u":{"indexes":{"id":{"unique":true,"indexer":{"kind":"text","field":"name"}}}}}}"#;

/// Members beside the indexes of `t` in version 2.
static IN_TWO: &str = r#"// These are refused.
,"tracked":1 => bad-shape t
,"tracked":null => bad-shape t
,"tracked":"true" => bad-shape t
,"tracked":true,"x":1 => bad-shape t
,"Tracked":true => bad-shape t
,"tracked":true,"tracked":0 => bad-shape t
// These are read. Of several members of one name the last counts.
 => plain;
,"tracked":false => plain;
,"tracked":true => tracked;
,"tracked":1,"tracked":true => tracked;
"#;

#[test]
fn a_table_is_tracked_where_it_says_so(rt: HostRuntime) -> Result<(), Fail> {
    are_lines_told(rt.alloc(), Form::Tracked(VERSION_TWO), IN_TWO)
}

/// Members in version 1, and none.
static IN_ONE: &str = r#","tracked":true => bad-shape t
,"tracked":false => bad-shape t
 => plain;
"#;

#[test]
fn no_table_of_version_one_is_tracked(rt: HostRuntime) -> Result<(), Fail> {
    are_lines_told(rt.alloc(), Form::Tracked(VERSION_ONE), IN_ONE)
}

/// Tables of version 2 that break two rules: the first in order is told.
static TWO_RULES: &str = r#"// The table's name, then its shape.
"t_prefix":{"indexes":{},"tracked":1} => bad-name t_prefix
// The table's shape, then its indexes.
"t":{"indexes":{},"tracked":1} => bad-shape t
"t":{"indexes":{},"tracked":true} => no-indexes t
"#;

#[test]
fn the_first_broken_rule_of_tracked_tables_is_told(rt: HostRuntime) -> Result<(), Fail> {
    are_lines_told(rt.alloc(), Form::Tracked(TABLES_OF_TWO), TWO_RULES)
}

/// The two tables in each version.
static VERSIONS: &str = r#"1 => bad-shape t
2 => tracked;plain;
3 => bad-version
"#;

#[test]
fn each_table_is_tracked_by_itself(rt: HostRuntime) -> Result<(), Fail> {
    are_lines_told(rt.alloc(), Form::Tracked(TWO_TABLES), VERSIONS)
}
