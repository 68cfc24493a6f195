//! What no clause says: that each call succeeds while there is memory.
mod change;
mod drawn;
mod ids;
mod long;
mod mixed;
mod net;
mod owned;
mod plain;
mod played;
mod refused;
mod told;
mod watched;
mod wipe;
mod without_memory;
mod words;
mod work;
mod worked;

use mdb_datum::{Datum, Items, Row, Text, read_doc};
use mdb_schema::{Ask, Query, Schema, TableDef, read_schema};
use std::alloc::{AllocError, Global};
use std::test::Fail;
use work::Base;

/// A table of a text key and of a list of texts.
const TAGS: &str = r#"{"memdb":1,"tables":{
    "t":{"indexes":{"id":{"unique":true,"indexer":{"kind":"text","field":"name"}},
    "tags":{"allow_missing":true,"indexer":{"kind":"text_list","field":"tags"}}}}}}"#;

/// A table of a UUID key.
const KEYS: &str = r#"{"memdb":1,"tables":{
    "keys":{"indexes":{"id":{"unique":true,"indexer":{"kind":"uuid","field":"key"}}}}}}"#;

/// A table of a compound index.
const RULES: &str = r#"{"memdb":1,"tables":{
    "rules":{"indexes":{"id":{"unique":true,"indexer":{"kind":"text","field":"name"}},
    "path":{"unique":true,"indexer":{"kind":"compound","allow_missing":true,"parts":[
        {"kind":"text","field":"dc"},{"kind":"text","field":"svc"}]}}}}}}"#;

/// A table of four indexes.
const USERS: &str = r#"{"memdb":1,"tables":{
    "users":{"indexes":{"age":{"indexer":{"kind":"uint","field":"age","width":2}},
    "id":{"unique":true,"indexer":{"kind":"text","field":"name"}},
    "mail":{"unique":true,"allow_missing":true,"indexer":{"kind":"text","field":"mail"}},
    "tags":{"allow_missing":true,"indexer":{"kind":"text_list","field":"tags"}}}}}}"#;

/// What was done, or that there was no memory for it.
type Done = Result<(), AllocError>;

/// Whether what was done is right.
type Told = Result<bool, AllocError>;

/// The case that is wrong, if any.
type Wrong = Result<Option<&'static str>, AllocError>;

/// Fails with a case that is wrong. Only here want of memory becomes a failure: bodies with that
/// error take twice as long to prove.
fn none_wrong(wrong: Wrong) -> Result<(), Fail> {
    match wrong? {
        None => Ok(()),
        Some(case) => Err(Fail::new(case)),
    }
}

/// The row that a text is. Another text counts as want of memory, which ends a test.
fn row_of(alloc: Global, text: &str) -> Result<Row, AllocError> {
    match read_doc(alloc, text.as_bytes()) {
        Ok(Datum::Members(members)) => Row::of(alloc, members),
        _ => Err(AllocError),
    }
}

/// The arguments that a text lists. Another text counts as want of memory, which ends a test.
fn args_of(alloc: Global, text: &str) -> Result<Items, AllocError> {
    match read_doc(alloc, text.as_bytes()) {
        Ok(Datum::Items(items)) => Ok(items),
        _ => Err(AllocError),
    }
}

/// A question of an index, with the arguments that a text lists.
fn asked_of(alloc: Global, ask: Ask, index: &Text, args: &str) -> Result<Query, AllocError> {
    let args = args_of(alloc, args)?;
    let table = Text::of(alloc, "t")?;
    Query::of(alloc, ask, &table, index, args)
}

/// A question of the table, with the arguments that a text lists.
fn asked(alloc: Global, ask: Ask, index: &str, args: &str) -> Result<Query, AllocError> {
    let index = Text::of(alloc, index)?;
    asked_of(alloc, ask, &index, args)
}

/// What a schema says of its first table.
fn def_of(alloc: Global, schema: &str) -> Result<TableDef, AllocError> {
    match read_schema(alloc, schema.as_bytes()) {
        Ok(schema) => first_def(&schema),
        Err(_) => Err(AllocError),
    }
}

/// What a schema says of its first table.
fn first_def(schema: &Schema) -> Result<TableDef, AllocError> {
    match schema.table(0) {
        Some(def) => def.share(),
        None => Err(AllocError),
    }
}

/// The first table of a schema, without rows.
fn table_of(alloc: Global, schema: &str) -> Result<Base, AllocError> {
    let def = def_of(alloc, schema)?;
    Base::empty(alloc, &def)
}
