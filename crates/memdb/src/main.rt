//! The program `memdb`: a schema and the scripts of clients, run side by side against one database.
//!
//! [`run::run`] is the top call, and its contract is what the program promises: whatever the files
//! hold, an answer of 0 says that the bytes written are answers in one history, and every other
//! answer has its cause. The modules below it read the words, run the clients' sessions on a
//! database (`client_session`), and say what is written; `run_io` loads the files and writes the
//! text. `main` hands it the host's arguments, the real files and the real output, on a thread whose
//! stack is large enough (`deep_thread`). Of these files and this output nothing is claimed but
//! counts and causes.
#![tactic(auto)]

mod answers;
mod causes;
mod checking;
mod made;
mod outcome;
mod output;
mod run;
mod sessions;
mod words;

ghost use Rattle.std.specs.Prelude.{◌≡◌, ℕ};
ghost use Rattle.mdb_ports.specs.Faults.{Rose};
ghost use Rattle.run_io.specs.Arguments.{words_in};
ghost use Rattle.memdb.specs.Causes.{CallsFor, statuses_for};
ghost use Rattle.memdb.specs.Outcome.{IsAnswer};
ghost use Rattle.run_io.specs.Ended.{HasEnded};
ghost use Rattle.run_io.specs.Observed.{observed};
ghost use Rattle.run_io.specs.Statuses.{IsOneOf};

use crate::sessions::STACK;
use deep_thread::call_deep;
use mdb_ports::{DirFiles, Files, OpenGate, OutSink, Sink};
use run_io::words_of;
use std::alloc::{AllocError, Global};
use std::process::ExitCode;
use std::sync::Wait;
use std::thread::Threads;
use std::{env, io};

/// Carries out the command of the host's arguments, over the real files and the real output, and
/// ends with its status. All of it is done on a thread with a large stack, for the first thread has
/// as much as the host's limit says. Where that thread can't be had the status is 4.
fn main(rt: HostRuntime) -> ExitCode {
    let status = call_deep(&rt, STACK, || {
        let mut files = DirFiles::new(&rt);
        let mut out = OutSink::new(&rt);
        run_arguments(&rt, rt.alloc(), env::args(&rt), &mut files, &mut out)
    });
    ExitCode::from(status.unwrap_or(4))
}

/// Carries out the command that the arguments behind the first are, and answers its status, as
/// [`run::run`] does.
fn run_arguments<R: Threads + Wait + Sync, F: Files, S: Sink>(
    rt: &R,
    alloc: Global,
    args: io::Result<env::Args>,
    files: &mut F,
    out: &mut S,
) -> u8
    ensures ended { let seen = observed (F.told files.old) (F.reliable files.old)
        (F.faults files.old) (F.faults files.new) in
        HasEnded (IsAnswer (words_in args) seen) (S.told out.old) (S.told out.new) result }
    ensures comes { let seen = observed (F.told files.old) (F.reliable files.old)
        (F.faults files.old) (F.faults files.new) in
        (status : ℕ) → CallsFor (words_in args) seen status → IsOneOf (statuses_for status) result }
    ensures failed { result ≡ 6 → Rose (S.faults out.old) (S.faults out.new) }
{
    match words_of(alloc, args) {
        Ok(words) => run::run(rt, alloc, &words, files, out, &OpenGate),
        Err(AllocError) => 4,
    }
}
