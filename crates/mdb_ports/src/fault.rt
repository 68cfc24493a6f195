//! Failures, and the count of them.
ghost use Rattle.std.specs.Prelude.{◌≡◌, Ok, IsErr, IfOk};
ghost use Rattle.mdb_ports.specs.Faults.{HasCause};

use crate::Failed;
use std::io;

/// A call's outcome, where the cause of a failure is forgotten.
pub(crate) fn failed<T: Drop>(outcome: io::Result<T>) -> Result<T, Failed>
    ensures same { IfOk outcome (λ t. result ≡ Ok t) }
    ensures fails { IsErr outcome → IsErr result }
{
    match outcome {
        Ok(value) => Ok(value),
        Err(_) => Err(Failed),
    }
}

/// An outcome, where a failure is counted, up to the end of a `u64`.
pub(crate) fn counted(outcome: Result<usize, Failed>, faults: &mut u64) -> Result<usize, Failed>
    ensures same { result ≡ outcome }
    ensures cause { HasCause faults.old faults.new result }
{
    if outcome.is_err() {
        *faults = faults.saturating_add(1);
    }
    outcome
}
