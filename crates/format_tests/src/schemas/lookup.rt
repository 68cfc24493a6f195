//! The places of tables and indexes by their names.
use super::file_of;
use crate::tables::{Told, holds};
use mdb_schema::{Schema, SchemaError, TableDef, read_schema};
use std::alloc::{AllocError, Global};
use std::test::Fail;

const FILE: &str = r#"{"memdb":1,"tables":{
"keys":{"indexes":{"id":{"unique":true,"indexer":$}}},
"notes":{"indexes":{"id":{"unique":true,"indexer":$}}},
"rules":{"indexes":{"id":{"unique":true,"indexer":$},"path":{"indexer":$}}},
"users":{"indexes":{"age":{"indexer":$},"id":{"unique":true,"indexer":$},
"mail":{"indexer":$},"tags":{"indexer":$}}}}}"#;

/// Names, and the places of the tables of these names.
static TABLE_PLACES: [(&str, Option<usize>); 11] = [
    ("keys", Some(0)),
    ("notes", Some(1)),
    ("rules", Some(2)),
    ("users", Some(3)),
    ("", None),
    ("a", None),
    ("key", None),
    ("keyss", None),
    ("m", None),
    ("user", None),
    ("z", None),
];

/// Names, and the places of the indexes of these names in the table `users`.
static INDEX_PLACES: [(&str, Option<usize>); 10] = [
    ("age", Some(0)),
    ("id", Some(1)),
    ("mail", Some(2)),
    ("tags", Some(3)),
    ("", None),
    ("ID", None),
    ("i", None),
    ("idx", None),
    ("name", None),
    ("zz", None),
];

/// Whether tables stand at their places.
fn have_table_places(schema: &Schema) -> bool {
    for (name, place) in &TABLE_PLACES {
        if schema.find(name) != *place {
            return false;
        }
    }
    true
}

/// Whether the indexes of the table `users` stand at their places.
fn have_index_places(users: &TableDef) -> bool {
    for (name, place) in &INDEX_PLACES {
        if users.find(name) != *place {
            return false;
        }
    }
    users.len() == 4 && users.index(4).is_none()
}

/// Whether the schema's tables and the indexes of `users` stand at their places.
fn have_places(schema: &Schema) -> bool {
    match schema.table(3) {
        Some(users) => have_table_places(schema) && have_index_places(users),
        None => false,
    }
}

/// Whether the file's tables and indexes are found.
fn are_found(alloc: Global, file: &[u8]) -> Told {
    match read_schema(alloc, file) {
        Ok(schema) => Ok(have_places(&schema)),
        Err(SchemaError::Memory) => Err(AllocError),
        Err(_) => Ok(false),
    }
}

/// The same of the file's text.
fn is_found(alloc: Global) -> Told {
    let file = file_of(alloc, FILE, "")?;
    are_found(alloc, file.as_bytes())
}

#[test]
fn a_name_is_found_at_its_place(rt: HostRuntime) -> Result<(), Fail> {
    holds(is_found(rt.alloc()))
}
