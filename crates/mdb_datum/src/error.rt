//! Why a text is no document.
ghost use Rattle.std.specs.Prelude.{◌≡◌};
ghost use Rattle.mdb_datum.specs.declared.error.DocError.TheVariants.{Memory};

use std::alloc::{AllocError, AllocFailed};

/// Why a text is no document.
#[derive(Clone, Copy, Debug, PartialEq, Eq)]
pub enum DocError {
    /// There was not enough memory.
    Memory,
    /// The text isn't JSON: it isn't UTF-8, breaks RFC 8259, nests deeper than 127, or has a number
    /// that is too large for a float.
    Syntax,
    /// Lists and objects nest deeper than 100.
    Deep,
    /// A number isn't given as a `u64` or an `i64`.
    NotWhole,
}

impl From<AllocError> for DocError {
    ghost from_gives = { λ _ e. e ≡ Memory };

    /// Want of memory.
    fn from(_: AllocError) -> Self {
        DocError::Memory
    }
}

impl<T: Drop> From<AllocFailed<T>> for DocError {
    ghost from_gives = { λ _ e. e ≡ Memory };

    /// Want of memory.
    fn from(_: AllocFailed<T>) -> Self {
        DocError::Memory
    }
}
