//! The client that is told to be stuck.
ghost use Rattle.std.specs.Prelude.{◌≡◌, ◌≤◌, ◌++◌, OnOk, length, option_map};
ghost use Rattle.client_script.specs.Stuck.{stuck_text};
ghost use Rattle.session_loop.specs.inner.Halted.{first_parked, stop_of};
ghost use Rattle.session_loop.specs.inner.Tasks.{states_of};

use crate::task::{State, Task};
use run_io::write_number;
use std::alloc::AllocError;

/// A client, by its number, and the number of its next line in its file.
#[derive(Clone, Copy, Debug, PartialEq, Eq)]
pub struct Stop {
    pub client: u32,
    pub line: u32,
}

/// The first client that is parked, and its line.
pub fn first_parked(tasks: &[Task]) -> Option<Stop>
    requires { length tasks.now ≤ 64 }
    ensures { option_map stop_of result ≡ first_parked 1 (states_of tasks.now) }
{
    for (at, task) in tasks.iter().enumerate() {
        if let State::Parked { line } = task.state {
            let client = at as u32 + 1;
            return Some(Stop { client, line });
        }
    }
    None
}

/// Adds the line `stuck CLIENT line LINE`.
pub fn write_stop(stop: Stop, out: &mut Vec<u8>) -> Result<(), AllocError>
    ensures { OnOk result (out.new.items ≡ out.old.items ++ stuck_text (stop_of stop)) }
{
    out.extend_from_slice(b"stuck ")?;
    write_number(u64::from(stop.client), out)?;
    out.extend_from_slice(b" line ")?;
    write_number(u64::from(stop.line), out)?;
    out.push(b'\n')?;
    Ok(())
}
