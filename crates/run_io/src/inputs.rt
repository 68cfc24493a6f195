//! A schema and scripts, from the bytes of their files.
ghost use Rattle.mdb_datum.specs.Reading.{reading};
ghost use Rattle.mdb_schema.specs.Reading.{schema_of};
ghost use Rattle.run_io.specs.Inputs.{schema_answer, inputs_in};
ghost use Rattle.run_io.specs.inner.ReadingResult.{IsReadingResult};
ghost use Rattle.run_io.specs.inner.ContentsOf.{bytes_in};

use crate::contents::Contents;
use crate::load_error::LoadError;
use crate::reading::read_scripts;
use client_script::Scripts;
use mdb_schema::{Schema, SchemaError, read_schema};
use std::alloc::Global;
use std::sync::Wait;
use std::thread::Threads;

/// A schema, and the scripts of clients in order.
#[derive(Drop)]
pub struct Inputs {
    pub schema: Schema,
    pub scripts: Scripts,
}

/// The schema and the scripts that the bytes of files read as. The scripts are read side by side.
///
/// # Errors
/// The first rule that is broken, the schema's before those of the scripts in order; `Memory` may
/// come at any of them.
pub fn read_inputs<R: Threads + Wait + Sync>(
    rt: &R,
    alloc: Global,
    contents: &Contents,
) -> Result<Inputs, LoadError>
    ensures { IsReadingResult
        (inputs_in contents.now.schema.items (bytes_in contents.now.clients.items)) result }
{
    let schema = read_tables(alloc, &contents.schema)?;
    let scripts = read_scripts(rt, alloc, &contents.clients)?;
    Ok(Inputs { schema, scripts })
}

/// The schema that bytes read as.
fn read_tables(alloc: Global, bytes: &[u8]) -> Result<Schema, LoadError>
    ensures { IsReadingResult (schema_answer (schema_of (reading bytes.now))) result }
{
    match read_schema(alloc, bytes) {
        Ok(schema) => Ok(schema),
        Err(SchemaError::Memory) => Err(LoadError::Memory),
        Err(SchemaError::Broken { rule, table, index }) => {
            Err(LoadError::Schema(SchemaError::Broken { rule, table, index }))
        }
    }
}
