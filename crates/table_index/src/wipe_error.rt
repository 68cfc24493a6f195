//! Why a wipe is refused.
ghost use Rattle.std.specs.Prelude.{◌≡◌};
ghost use Rattle.table_index.specs.declared.wipe_error.WipeError.TheVariants.{Memory};

use mdb_schema::AskError;
use std::alloc::{AllocError, AllocFailed};

/// Why a wipe is refused.
#[derive(Clone, Copy, Debug, PartialEq, Eq)]
pub enum WipeError {
    /// There was not enough memory.
    Memory,
    /// Fewer than 2^26 ids of watch cells are left for each row that goes.
    IdsSpent,
    /// The question that names the rows is refused, but not for want of memory.
    Refused(AskError),
}

impl From<AllocError> for WipeError {
    ghost from_gives = { λ _ e. e ≡ Memory };

    /// Want of memory.
    fn from(_: AllocError) -> Self {
        WipeError::Memory
    }
}

impl<T: Drop> From<AllocFailed<T>> for WipeError {
    ghost from_gives = { λ _ e. e ≡ Memory };

    /// Want of memory.
    fn from(_: AllocFailed<T>) -> Self {
        WipeError::Memory
    }
}
