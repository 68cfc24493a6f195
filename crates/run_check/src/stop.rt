//! Why a test ends before its end.
ghost use Rattle.std.specs.Prelude.{◌≡◌};
ghost use Rattle.run_check.specs.declared.stop.Stop.TheVariants as stops;

use crate::bad::BadLine;
use std::alloc::{AllocError, AllocFailed};

/// A line fails the test, or there is no memory.
#[derive(Clone, Copy, Debug, PartialEq, Eq)]
pub enum Stop {
    /// There was not enough memory.
    Memory,
    /// The line of this number, counted from 1, fails.
    Bad { line: u32 },
}

impl From<BadLine> for Stop {
    ghost from_gives = { λ bad e. e ≡ stops.Bad bad.line };

    /// The line.
    fn from(bad: BadLine) -> Self {
        Stop::Bad { line: bad.line }
    }
}

impl From<AllocError> for Stop {
    ghost from_gives = { λ _ e. e ≡ stops.Memory };

    /// Want of memory.
    fn from(_: AllocError) -> Self {
        Stop::Memory
    }
}

impl<T: Drop> From<AllocFailed<T>> for Stop {
    ghost from_gives = { λ _ e. e ≡ stops.Memory };

    /// Want of memory.
    fn from(_: AllocFailed<T>) -> Self {
        Stop::Memory
    }
}
