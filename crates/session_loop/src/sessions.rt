//! The sessions of all clients, polled in turn.
ghost use Rattle.std.specs.Prelude.{◌≡◌, ◌≤◌, IfOk, IsSome, IsTrue, OnOk, length};
ghost use Rattle.std.specs.Prelude.{replicate};
ghost use Rattle.std.specs.List.{list_all};
ghost use Rattle.client_session.specs.Clients.{AreLater};
ghost use Rattle.session_loop.specs.inner.Endings.{AreFoundAtRest, HasLoopPass, HaveStopped};
ghost use Rattle.session_loop.specs.inner.Endings.{KeepsPass};
ghost use Rattle.session_loop.specs.inner.Halted.{HaveHalted};
ghost use Rattle.session_loop.specs.inner.Rest.{AreRunning};
ghost use Rattle.session_loop.specs.inner.Tasks.{AreInLoop, AreUnspent, has_ended, new_task};
ghost use Rattle.session_loop.specs.inner.Tasks.{scripts_of, states_of};

use crate::closing::look_closing;
use crate::round::{Round, poll_each};
use crate::stop::{Stop, first_parked};
use crate::task::{Task, has_ended};
use client_session::Clients;
use mem_txn::pass_laws::{held_watches_outlast_commits, trees_are_complete, watches_hold};
use std::alloc::{AllocError, Global};
use std::sync::Wait;

/// Carries out the session of every client, round by round, until all lines are answered or no
/// client can go on: then it tells the first that can't. One pass is left for the loop itself.
///
/// It may go on for ever: no clause says that a watch that has fired is told so.
pub fn run_clients<R: Wait>(
    rt: &R,
    alloc: Global,
    clients: &mut Clients,
) -> Result<Option<Stop>, AllocError>
    requires unspent { AreUnspent clients.old.db clients.old.sessions.items }
    requires pass { HasLoopPass clients.old.db clients.old.passes }
    requires few { length clients.old.sessions.items ≤ 64 }

    ensures stopped { IfOk result
        (λ stop. HaveStopped clients.new.sessions.items clients.new.passes stop) }
    ensures running { let ss = clients.new.sessions.items in
        OnOk result (AreRunning (scripts_of ss) ss) }

    ensures later { AreLater clients.old.sessions.items clients.new.sessions.items }
    ensures scripts { scripts_of clients.new.sessions.items
        ≡ scripts_of clients.old.sessions.items }
    ensures db { clients.new.db ≡ clients.old.db }
    ensures passes { KeepsPass clients.old.passes clients.new.passes }
{
    let mut tasks = tasks_of(alloc, clients.sessions.len())?;
    for _ in rt.forever() {
        let round = poll_round(rt, clients, &mut tasks)?;
        if have_ended(&tasks) {
            return Ok(None);
        }
        if let Some(stop) = stop_behind(rt, clients, &tasks, round)? {
            return Ok(Some(stop));
        }
    }
    unreachable!()
}

/// Whether no line of any session is left.
fn have_ended(tasks: &[Task]) -> bool
    ensures { result ≡ list_all has_ended tasks.now }
{
    tasks.iter().all(has_ended)
}

/// So many tasks, each of a session that hasn't been polled.
pub fn tasks_of(alloc: Global, count: usize) -> Result<Vec<Task>, AllocError>
    ensures { IfOk result (λ tasks. tasks.items ≡ replicate count new_task) }
{
    let mut tasks = Vec::with_capacity(alloc, count)?;
    for _ in 0..count {
        tasks.push(Task::new(alloc))?;
    }
    Ok(tasks)
}

/// Takes each session once.
pub fn poll_round<R: Wait>(
    rt: &R,
    clients: &mut Clients,
    tasks: &mut Vec<Task>,
) -> Result<Round, AllocError>
    requires { AreInLoop clients.old.db clients.old.sessions.items tasks.old.items }
    ensures inside { OnOk result
        (AreInLoop clients.new.db clients.new.sessions.items tasks.new.items) }
    ensures later { AreLater clients.old.sessions.items clients.new.sessions.items }
    ensures scripts { scripts_of clients.new.sessions.items
        ≡ scripts_of clients.old.sessions.items }
    ensures db { clients.new.db ≡ clients.old.db }
    ensures passes { clients.new.passes ≡ clients.old.passes }
{
    let sessions = clients.sessions.as_mut_slice();
    poll_each(rt, &clients.db, sessions, tasks.as_mut_slice())
}

/// Who is stuck behind a round, where no client can go on.
fn stop_behind<R: Wait>(
    rt: &R,
    clients: &mut Clients,
    tasks: &[Task],
    round: Round,
) -> Result<Option<Stop>, AllocError>
    requires inside { AreInLoop clients.old.db clients.old.sessions.items tasks.now }
    requires pass { HasLoopPass clients.old.db clients.old.passes }
    requires few { length clients.old.sessions.items ≤ 64 }
    ensures stopped { IfOk result (λ stop. IsSome stop
        → HaveStopped clients.new.sessions.items clients.new.passes stop) }
    ensures sessions { clients.new.sessions.items ≡ clients.old.sessions.items }
    ensures db { clients.new.db ≡ clients.old.db }
    ensures passes { KeepsPass clients.old.passes clients.new.passes }
{
    if !round.is_quiet() {
        return Ok(None);
    }
    let stuck = are_stuck(rt, clients, tasks)?;
    if !stuck {
        return Ok(None);
    }
    Ok(first_parked(tasks))
}

/// Whether no client can go on, by the loop's own pass, which stands in its place again behind the
/// look.
fn are_stuck<R: Wait>(rt: &R, clients: &mut Clients, tasks: &[Task]) -> Result<bool, AllocError>
    requires inside { AreInLoop clients.old.db clients.old.sessions.items tasks.now }
    requires pass { HasLoopPass clients.old.db clients.old.passes }
    ensures rest { IfOk result (λ stuck. IsTrue stuck
        → AreFoundAtRest clients.new.sessions.items clients.new.passes) }
    ensures halted { IfOk result (λ stuck. IsTrue stuck → HaveHalted (states_of tasks.now)) }
    ensures sessions { clients.new.sessions.items ≡ clients.old.sessions.items }
    ensures db { clients.new.db ≡ clients.old.db }
    ensures passes { KeepsPass clients.old.passes clients.new.passes }
{
    let Some(pass) = clients.passes.take() else {
        unreachable!();
    };
    let (pass, stuck) = look_closing(rt, &clients.db, pass, &clients.sessions, tasks);
    trees_are_complete(&pass);
    watches_hold(&pass);
    held_watches_outlast_commits(&pass);
    clients.passes.give(pass);
    stuck
}
