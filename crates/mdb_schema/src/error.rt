//! Why bytes are no schema.
ghost use Rattle.std.specs.Prelude.{◌≡◌};
ghost use Rattle.mdb_schema.specs.declared.error.IndexerError.TheVariants as indexer_error;
ghost use Rattle.mdb_schema.specs.declared.error.SchemaError.TheVariants as schema_error;

use crate::schema_rule::SchemaRule;
use mdb_datum::Text;
use std::alloc::{AllocError, AllocFailed};

/// Why bytes are no schema.
#[derive(Drop)]
pub enum SchemaError {
    /// There was not enough memory.
    Memory,
    /// The first rule that they break, and the names of the table and the index where they do. A
    /// rule of the file as a whole has no names, and one of a table as a whole has no index.
    Broken {
        rule: SchemaRule,
        table: Option<Text>,
        index: Option<Text>,
    },
}

impl From<AllocError> for SchemaError {
    ghost from_gives = { λ _ e. e ≡ schema_error.Memory };

    /// Want of memory.
    fn from(_: AllocError) -> Self {
        SchemaError::Memory
    }
}

impl<T: Drop> From<AllocFailed<T>> for SchemaError {
    ghost from_gives = { λ _ e. e ≡ schema_error.Memory };

    /// Want of memory.
    fn from(_: AllocFailed<T>) -> Self {
        SchemaError::Memory
    }
}

/// Why a part of a document is no index, before the names of the table and the index are known.
#[derive(Clone, Copy)]
pub(crate) enum IndexerError {
    /// There was not enough memory.
    Memory,
    /// The first rule that it breaks.
    Broken(SchemaRule),
}

impl From<AllocError> for IndexerError {
    ghost from_gives = { λ _ e. e ≡ indexer_error.Memory };

    /// Want of memory.
    fn from(_: AllocError) -> Self {
        IndexerError::Memory
    }
}

impl<T: Drop> From<AllocFailed<T>> for IndexerError {
    ghost from_gives = { λ _ e. e ≡ indexer_error.Memory };

    /// Want of memory.
    fn from(_: AllocFailed<T>) -> Self {
        IndexerError::Memory
    }
}

impl From<SchemaRule> for IndexerError {
    ghost from_gives = { λ r e. e ≡ indexer_error.Broken r };

    /// The error that tells the rule.
    fn from(rule: SchemaRule) -> Self {
        IndexerError::Broken(rule)
    }
}
