//! What is written where files weren't loaded.
ghost use Rattle.std.specs.Prelude.{IfOk, length};
ghost use Rattle.run_io.specs.Named.{in_order};
ghost use Rattle.run_io.specs.NamedOf.{named_of};
ghost use Rattle.run_io.specs.Told.{NamesFile, TellsError, TellsOutputError};

use crate::load_error::LoadError;
use crate::named::Named;
use crate::output::{Output, broken_schema, broken_script, cannot_read, too_large};
use crate::output_error::OutputError;
use mdb_datum::Text;
use mdb_schema::SchemaError;
use std::alloc::{AllocError, Global};

/// The output for the files of a command, where their loading came to this error: status 2 for a
/// schema that breaks a rule, 3 for a script that does, 5 for a file that can't be read, and 7 for
/// one that is too large, each with its line. It takes memory for the text.
///
/// # Errors
/// Want of memory, here or in the loading.
pub fn refusal_of(alloc: Global, named: &Named, error: LoadError) -> Result<Output, AllocError>
    requires { NamesFile (length (in_order (named_of named.now))) error }
    ensures { IfOk result (λ output. TellsError (in_order (named_of named.now)) error
        output.status output.text.items) }
{
    match error {
        LoadError::Memory | LoadError::Schema(SchemaError::Memory) => Err(AllocError),
        LoadError::Read { file } => cannot_read(alloc, named.file(file)),
        LoadError::TooLarge { file } => too_large(alloc, named.file(file)),
        LoadError::Schema(SchemaError::Broken { rule, table, index }) => {
            broken_schema(alloc, rule, table, index)
        }
        LoadError::Script { client, error } => broken_script(alloc, client, error),
    }
}

/// The output for the file of this name, where its loading came to this error: status 5 where it
/// can't be read, and 7 where it is too large, each with its line. It takes memory for the text.
///
/// # Errors
/// Want of memory, here or in the loading.
pub fn output_refusal(alloc: Global, name: &Text, error: OutputError) -> Result<Output, AllocError>
    ensures { IfOk result
        (λ output. TellsOutputError name.now error output.status output.text.items) }
{
    match error {
        OutputError::Memory => Err(AllocError),
        OutputError::Read => cannot_read(alloc, name),
        OutputError::TooLarge => too_large(alloc, name),
    }
}
