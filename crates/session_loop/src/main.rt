//! The program `session_loop`: a schema and the scripts of clients, carried out on one thread
//! against one database.
//!
//! [`run::run_loop`] is the top call, and its contract is what the program promises. The sessions of
//! `client_session` are polled in turn ([`poll::poll_session`]): one that waits is parked, with the
//! watches noted for which it waits, and is polled again once one of them has fired. Where a round
//! brings none further, a closing look tells whether any can go on at all; if not, the output says
//! who is stuck, which clients on threads of their own can't be told. `run_io` loads the files and
//! writes the text. A round takes time in the number of the clients and of the watches that are
//! noted.
//!
//! `main` hands it the host's arguments, the real files and the real output, on a thread whose stack
//! is large enough (`deep_thread`). Of these files and this output nothing is claimed but counts and
//! causes.
#![tactic(auto)]

mod answers;
mod causes;
mod closing;
mod outcome;
mod output;
mod poll;
mod polled;
mod round;
mod run;
mod sessions;
mod stop;
mod task;

ghost use Rattle.std.specs.Prelude.{◌≡◌, ℕ};
ghost use Rattle.mdb_ports.specs.Faults.{Rose};
ghost use Rattle.run_io.specs.Ended.{HasEnded};
ghost use Rattle.run_io.specs.Observed.{observed};
ghost use Rattle.run_io.specs.Statuses.{IsOneOf};
ghost use Rattle.run_io.specs.Arguments.{words_in};
ghost use Rattle.session_loop.specs.Causes.{LoopCallsFor, statuses_for};
ghost use Rattle.session_loop.specs.Outcome.{IsAnswer};

use deep_thread::call_deep;
use mdb_ports::{DirFiles, Files, OutSink, Sink};
use run_io::words_of;
use std::alloc::{AllocError, Global};
use std::process::ExitCode;
use std::sync::Wait;
use std::thread::Threads;
use std::{env, io};

/// The bytes of the stack of the thread that has trees in hand, whatever the host's own limit says.
const STACK: usize = 8 * 1024 * 1024;

/// Carries out the clients of the host's arguments, over the real files and the real output, and
/// ends with the status. All of it is done on a thread with a large stack, for the first thread has
/// as much as the host's limit says. Where that thread can't be had the status is 4.
fn main(rt: HostRuntime) -> ExitCode {
    let status = call_deep(&rt, STACK, || {
        let mut files = DirFiles::new(&rt);
        let mut out = OutSink::new(&rt);
        run_arguments(&rt, rt.alloc(), env::args(&rt), &mut files, &mut out)
    });
    ExitCode::from(status.unwrap_or(4))
}

/// Carries out the clients that the arguments behind the first name, and answers the status, as
/// [`run::run_loop`] does.
fn run_arguments<R: Threads + Wait + Sync, F: Files, S: Sink>(
    rt: &R,
    alloc: Global,
    args: io::Result<env::Args>,
    files: &mut F,
    out: &mut S,
) -> u8
    ensures ended { let seen = observed (F.told files.old) (F.reliable files.old)
        (F.faults files.old) (F.faults files.new) in
        HasEnded (IsAnswer (words_in args) seen) (S.told out.old) (S.told out.new) result }
    ensures comes { let seen = observed (F.told files.old) (F.reliable files.old)
        (F.faults files.old) (F.faults files.new) in
        (status : ℕ) → LoopCallsFor (words_in args) seen status
        → IsOneOf (statuses_for status) result }
    ensures failed { result ≡ 6 → Rose (S.faults out.old) (S.faults out.new) }
{
    match words_of(alloc, args) {
        Ok(words) => run::run_loop(rt, alloc, &words, files, out),
        Err(AllocError) => 4,
    }
}
