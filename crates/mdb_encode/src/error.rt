//! Why a row has no keys, and why arguments make none.
ghost use Rattle.std.specs.Prelude.{◌≡◌};
ghost use Rattle.mdb_encode.specs.declared.error.KeyError.TheVariants as key_error;
ghost use Rattle.mdb_encode.specs.declared.error.ArgError.TheVariants as arg_error;

use std::alloc::AllocError;

/// Why a row has no keys in an index.
#[derive(Clone, Copy, Debug, PartialEq, Eq)]
pub enum KeyError {
    /// There was not enough memory.
    Memory,
    /// A member that isn't null has another form than the index reads.
    WrongKind,
    /// A number is outside its width.
    OutOfRange,
    /// A text is no hyphenated UUID.
    BadUuid,
    /// There are more than 256 keys.
    TooMany,
    /// A key has more than 1,024 bytes.
    TooLong,
}

impl From<AllocError> for KeyError {
    ghost from_gives = { λ _ e. e ≡ key_error.Memory };

    /// Want of memory.
    fn from(_: AllocError) -> Self {
        KeyError::Memory
    }
}

/// Why arguments make no key of an index.
#[derive(Clone, Copy, Debug, PartialEq, Eq)]
pub enum ArgError {
    /// There was not enough memory.
    Memory,
    /// The index takes another number of arguments.
    ArgCount,
    /// An argument has another form than the index reads. Null has none.
    ArgKind,
    /// A number is outside its width.
    OutOfRange,
    /// A text is no hyphenated UUID, or in the prefix form no start of one.
    BadUuid,
    /// The key has more than 1,024 bytes.
    TooLong,
    /// The index has no prefix form.
    NoPrefixForm,
}

impl From<AllocError> for ArgError {
    ghost from_gives = { λ _ e. e ≡ arg_error.Memory };

    /// Want of memory.
    fn from(_: AllocError) -> Self {
        ArgError::Memory
    }
}
