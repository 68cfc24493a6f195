//! Why a write is refused.
ghost use Rattle.std.specs.Prelude.{◌≡◌};
ghost use Rattle.mdb_schema.specs.ErrorsTold.{told_at};
ghost use Rattle.mdb_schema.specs.declared.write_error.WriteError.TheVariants.{Memory};

use mdb_encode::KeyError;
use std::alloc::{AllocError, AllocFailed};

/// Why a write is refused. The first cause in the order of `docs/FORMATS.md` is answered. An index
/// is named by its place in the table, counted from 0.
#[derive(Clone, Copy, Debug, PartialEq, Eq)]
pub enum WriteError {
    /// There was not enough memory.
    Memory,
    /// The row has no `id` key.
    NoId,
    /// A member that isn't null has another form than the index reads.
    WrongKind { index: u32 },
    /// A number is outside its width.
    OutOfRange { index: u32 },
    /// A text that isn't empty is no hyphenated UUID.
    BadUuid { index: u32 },
    /// There would be more than 256 keys.
    TooMany { index: u32 },
    /// A key would have more than 1,024 bytes.
    TooLong { index: u32 },
    /// The row has no key in an index that doesn't allow that.
    Missing { index: u32 },
    /// A row of another `id` has one of the row's full keys.
    KeyTaken { index: u32 },
    /// No row has this `id` key.
    NotFound,
    /// Fewer than 2^26 ids of watch cells are left.
    IdsSpent,
}

impl WriteError {
    /// Why a row has no keys in the index at a place.
    pub fn of_key(index: u32, error: KeyError) -> WriteError
        ensures { result ≡ told_at index error }
    {
        match error {
            KeyError::Memory => WriteError::Memory,
            KeyError::WrongKind => WriteError::WrongKind { index },
            KeyError::OutOfRange => WriteError::OutOfRange { index },
            KeyError::BadUuid => WriteError::BadUuid { index },
            KeyError::TooMany => WriteError::TooMany { index },
            KeyError::TooLong => WriteError::TooLong { index },
        }
    }
}

impl From<AllocError> for WriteError {
    ghost from_gives = { λ _ e. e ≡ Memory };

    /// Want of memory.
    fn from(_: AllocError) -> Self {
        WriteError::Memory
    }
}

impl<T: Drop> From<AllocFailed<T>> for WriteError {
    ghost from_gives = { λ _ e. e ≡ Memory };

    /// Want of memory.
    fn from(_: AllocFailed<T>) -> Self {
        WriteError::Memory
    }
}
