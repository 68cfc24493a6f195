//! Why inputs were not loaded.
ghost use Rattle.std.specs.Prelude.{◌≡◌};
ghost use Rattle.run_io.specs.declared.load_error.LoadError.TheVariants.{Memory};

use crate::output_error::OutputError;
use client_script::ScriptError;
use mdb_schema::SchemaError;
use std::alloc::{AllocError, AllocFailed};

/// Why inputs were not loaded. File 0 is the schema's, and file 1 that of the first client. The
/// inner errors are never want of memory.
#[derive(Drop)]
pub enum LoadError {
    /// There was not enough memory.
    Memory,
    /// A call failed, at this file.
    Read { file: u32 },
    /// This file has more than 1,048,576 bytes.
    TooLarge { file: u32 },
    /// The schema breaks a rule.
    Schema(SchemaError),
    /// The script of this client, counted from 1, breaks a rule.
    Script { client: u32, error: ScriptError },
}

impl LoadError {
    ghost use Rattle.run_io.specs.inner.Reading.{numbered};

    /// The error at the file of this number.
    pub(crate) fn at(file: u32, error: OutputError) -> LoadError
        ensures { result ≡ numbered file error }
    {
        match error {
            OutputError::Memory => LoadError::Memory,
            OutputError::Read => LoadError::Read { file },
            OutputError::TooLarge => LoadError::TooLarge { file },
        }
    }
}

impl From<AllocError> for LoadError {
    ghost from_gives = { λ _ e. e ≡ Memory };

    /// Want of memory.
    fn from(_: AllocError) -> Self {
        LoadError::Memory
    }
}

impl<T: Drop> From<AllocFailed<T>> for LoadError {
    ghost from_gives = { λ _ e. e ≡ Memory };

    /// Want of memory.
    fn from(_: AllocFailed<T>) -> Self {
        LoadError::Memory
    }
}
