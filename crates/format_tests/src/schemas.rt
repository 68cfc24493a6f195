//! What is read and what is refused, worked from the format of schema files. In a text, `$` stands for
//! the indexer of the text `a`.
ghost use Rattle.mdb_schema.specs.worked.DeclaredNames.{DeclaredNames};
ghost use Rattle.mdb_schema.specs.worked.EachKind.{EachKind};
ghost use Rattle.mdb_schema.specs.worked.OneRule.{OneRule};
ghost use Rattle.mdb_schema.specs.worked.TrackedTables.{TrackedTables};
ghost use Rattle.mdb_schema.specs.worked.TwoRules.{TwoRules};
ghost use Rattle.mdb_schema.specs.worked.WholeSchemas.{WholeSchemas};

use crate::tables::Text;
use mdb_datum::Text as Name;
use mdb_schema::{Schema, SchemaError, SchemaRule, read_schema};
use std::alloc::{AllocError, Global};

mod files;
mod lookup;
mod tables;
mod tracked;

/// Nothing runs here: the clauses are computed.
fn worked_documents()
    ensures one { OneRule }
    ensures two { TwoRules }
    ensures read { WholeSchemas }
    ensures tracked { TrackedTables }
    ensures kinds { EachKind }
    ensures names { DeclaredNames }
{}

/// The file with a text at the place of `@`.
fn file_of(alloc: Global, frame: &str, text: &str) -> Text {
    let file = frame.replace(alloc, "@", text)?;
    file.replace(alloc, "$", r#"{"kind":"text","field":"a"}"#)
}

/// A rule, and the names of the table and the index where it is broken.
fn refusal_text(
    alloc: Global,
    rule: SchemaRule,
    table: &Option<Name>,
    index: &Option<Name>,
) -> Text {
    let rule = rule.word();
    match (table, index) {
        (Some(table), Some(index)) => {
            let table = table.as_str();
            let index = index.as_str();
            format!(in alloc; "{rule} {table} {index}")
        }
        (Some(table), None) => {
            let table = table.as_str();
            format!(in alloc; "{rule} {table}")
        }
        (None, Some(_)) => String::from_str(alloc, "an index of no table"),
        (None, None) => String::from_str(alloc, rule),
    }
}

/// Why a file is no schema.
fn error_text(alloc: Global, error: &SchemaError) -> Text {
    match error {
        SchemaError::Memory => Err(AllocError),
        SchemaError::Broken { rule, table, index } => refusal_text(alloc, *rule, table, index),
    }
}

/// What a file is told as.
fn schema_told(alloc: Global, file: &[u8]) -> Text {
    match read_schema(alloc, file) {
        Ok(_) => String::from_str(alloc, "a schema"),
        Err(error) => error_text(alloc, &error),
    }
}

/// What the file with a text in a frame is told as.
pub fn frame_told(alloc: Global, frame: &str, text: &str) -> Text {
    let file = file_of(alloc, frame, text)?;
    schema_told(alloc, file.as_bytes())
}

/// The same in two frames, where it is told as the same in both.
pub fn both_told(alloc: Global, frames: &[&str; 2], text: &str) -> Text {
    let first = frame_told(alloc, frames[0], text)?;
    let second = frame_told(alloc, frames[1], text)?;
    if first == second {
        Ok(first)
    } else {
        String::from_str(alloc, "told otherwise in version 2")
    }
}

/// Adds whether a table is tracked.
fn push_tracked(out: &mut String, schema: &Schema, at: usize) -> Result<(), AllocError> {
    match schema.table(at) {
        Some(table) if table.tracked() => out.push_str("tracked;"),
        Some(_) => out.push_str("plain;"),
        None => Ok(()),
    }
}

/// Whether each table is tracked.
fn tables_text(alloc: Global, schema: &Schema) -> Text {
    let mut out = String::new(alloc);
    for at in 0..schema.len() {
        push_tracked(&mut out, schema, at)?;
    }
    Ok(out)
}

/// Whether each table of a file is tracked.
fn tables_told(alloc: Global, file: &[u8]) -> Text {
    match read_schema(alloc, file) {
        Ok(schema) => tables_text(alloc, &schema),
        Err(error) => error_text(alloc, &error),
    }
}

/// The same of the file with a text in a frame.
pub fn tracked_told(alloc: Global, frame: &str, text: &str) -> Text {
    let file = file_of(alloc, frame, text)?;
    tables_told(alloc, file.as_bytes())
}
