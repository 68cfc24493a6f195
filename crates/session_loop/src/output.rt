//! What is written, and the status that a run ends with. The texts of files that are refused are
//! those of `run_io`.
ghost use Rattle.std.specs.Prelude.{◌≡◌, IfOk};
ghost use Rattle.session_loop.specs.Words.{usage_text};
ghost use Rattle.session_loop.specs.inner.Endings.{IsWritten};

use crate::stop::{Stop, write_stop};
use run_io::Output;
use std::alloc::{AllocError, Global};

const USAGE: &[u8] = b"usage: session_loop SCHEMA CLIENT...\n";

/// What is written where the words are no command.
pub fn usage(alloc: Global) -> Result<Output, AllocError>
    ensures { IfOk result (λ output. (output.status ≡ 1) × (output.text.items ≡ usage_text)) }
{
    Ok(Output {
        status: 1,
        text: Vec::from_slice(alloc, USAGE)?,
    })
}

/// The answers, and behind them who is stuck, if any is.
pub fn output_of(answers: Vec<u8>, stop: Option<Stop>) -> Result<Output, AllocError>
    ensures { IfOk result
        (λ output. IsWritten answers.items stop output.status output.text.items) }
{
    let mut text = answers;
    match stop {
        Some(stop) => {
            write_stop(stop, &mut text)?;
            Ok(Output { status: 9, text })
        }
        None => Ok(Output { status: 0, text }),
    }
}
