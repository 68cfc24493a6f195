//! What a refusal of a write leaves.
ghost use Rattle.std.specs.Prelude.{◌≡◌, true};
ghost use Rattle.table_index.specs.declared.wipe_error.WipeError.TheVariants.{Memory};
ghost use Rattle.table_index.specs.inner.TreeEdits.{is_memory};

use crate::wipe_error::WipeError;
use mdb_schema::WriteError;

/// Whether a write found no memory, which spoils the change.
pub(crate) fn is_memory(error: &WriteError) -> bool
    ensures { result ≡ is_memory error.now }
{
    matches!(error, WriteError::Memory)
}

/// The error of a stored row's keys, which are refused for nothing but want of memory.
pub(crate) fn of_stored(error: WriteError) -> WipeError
    requires { is_memory error ≡ true }
    ensures { result ≡ Memory }
{
    match error {
        WriteError::Memory => WipeError::Memory,
        _ => unreachable!(),
    }
}
