//! Why a question is refused.
ghost use Rattle.std.specs.Prelude.{◌≡◌};
ghost use Rattle.mdb_schema.specs.ErrorsTold.{argument_told};
ghost use Rattle.mdb_schema.specs.declared.ask_error.AskError.TheVariants.{Memory};

use mdb_encode::ArgError;
use std::alloc::{AllocError, AllocFailed};

/// Why a question is refused. The first cause in the order of `docs/FORMATS.md` is answered.
#[derive(Clone, Copy, Debug, PartialEq, Eq)]
pub enum AskError {
    /// There was not enough memory.
    Memory,
    /// No table has this name.
    UnknownTable,
    /// The question can't be watched.
    Unwatchable,
    /// The question needs the name of an index with `_prefix` at its end.
    NoPrefixName,
    /// The table has no index of this name.
    UnknownIndex,
    /// The question needs a unique index.
    NotUnique,
    /// The index has no prefix form.
    NoPrefixForm,
    /// The index takes another number of arguments, or the question needs one.
    ArgCount,
    /// An argument has another form than the index reads.
    ArgKind,
    /// A number is outside its width.
    OutOfRange,
    /// A text is no UUID, or no start of one.
    BadUuid,
    /// The key would have more than 1,024 bytes.
    TooLong,
}

impl AskError {
    /// Why arguments make no key.
    pub fn of_argument(error: ArgError) -> AskError
        ensures { result ≡ argument_told error }
    {
        match error {
            ArgError::Memory => AskError::Memory,
            ArgError::ArgCount => AskError::ArgCount,
            ArgError::ArgKind => AskError::ArgKind,
            ArgError::OutOfRange => AskError::OutOfRange,
            ArgError::BadUuid => AskError::BadUuid,
            ArgError::TooLong => AskError::TooLong,
            ArgError::NoPrefixForm => AskError::NoPrefixForm,
        }
    }
}

impl From<AllocError> for AskError {
    ghost from_gives = { λ _ e. e ≡ Memory };

    /// Want of memory.
    fn from(_: AllocError) -> Self {
        AskError::Memory
    }
}

impl<T: Drop> From<AllocFailed<T>> for AskError {
    ghost from_gives = { λ _ e. e ≡ Memory };

    /// Want of memory.
    fn from(_: AllocFailed<T>) -> Self {
        AskError::Memory
    }
}
