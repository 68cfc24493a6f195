//! Why the bytes of a file were not loaded.
ghost use Rattle.std.specs.Prelude.{◌≡◌};
ghost use Rattle.run_io.specs.declared.output_error.OutputError.TheVariants.{Memory};

use std::alloc::{AllocError, AllocFailed};

/// Why the bytes of an output's file were not loaded; those of other files are read the same way.
#[derive(Clone, Copy, Debug, PartialEq, Eq)]
pub enum OutputError {
    /// There was not enough memory.
    Memory,
    /// A call failed.
    Read,
    /// The file has more bytes than it may have.
    TooLarge,
}

impl From<AllocError> for OutputError {
    ghost from_gives = { λ _ e. e ≡ Memory };

    /// Want of memory.
    fn from(_: AllocError) -> Self {
        OutputError::Memory
    }
}

impl<T: Drop> From<AllocFailed<T>> for OutputError {
    ghost from_gives = { λ _ e. e ≡ Memory };

    /// Want of memory.
    fn from(_: AllocFailed<T>) -> Self {
        OutputError::Memory
    }
}
