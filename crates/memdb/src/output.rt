//! What is written of words that are no command. The other texts are those of `run_io`.
ghost use Rattle.std.specs.Prelude.{◌≡◌, IfOk};
ghost use Rattle.memdb.specs.Words.{usage_text};

pub use run_io::{Output, end_line, write_number};
use std::alloc::{AllocError, Global};

const USAGE: &[u8] = b"usage: memdb run SCHEMA CLIENT...\n\
\x20      memdb make NUMBER CLIENTS COUNT\n\
\x20      memdb check SCHEMA CLIENT... OUTPUT\n";

/// What is written where the words are no command.
pub fn usage(alloc: Global) -> Result<Output, AllocError>
    ensures { IfOk result (λ output. (output.status ≡ 1) × (output.text.items ≡ usage_text)) }
{
    Ok(Output {
        status: 1,
        text: Vec::from_slice(alloc, USAGE)?,
    })
}
