//! The sessions of all clients, side by side.
ghost use Rattle.std.specs.Prelude.{◌≡◌, ◌≤◌, ◌∷◌, [], IsErr, OnOk, length};
ghost use Rattle.std.specs.Thread.{IsSync};
ghost use Rattle.client_session.specs.Clients.{AreLater, AreReady};
ghost use Rattle.memdb.specs.inner.Sessions.{HaveAnswered};

use client_session::{Clients, Session};
use deep_thread::join_deep;
use mdb_ports::Gate;
use mem_txn::Db;
use std::alloc::AllocError;
use std::sync::Wait;
use std::thread::Threads;

/// Carries out the session of every client, each on a thread of its own but the last, which this one
/// has.
pub fn run_clients<R: Threads + Wait + Sync, G: Gate + Sync>(
    rt: &R,
    gate: &G,
    clients: &mut Clients,
) -> Result<(), AllocError>
    requires ready { AreReady clients.old.db clients.old.sessions.items }
    ensures answered { OnOk result
        (HaveAnswered clients.old.sessions.items clients.new.sessions.items) }
    ensures later { AreLater clients.old.sessions.items clients.new.sessions.items }
    ensures db { clients.new.db ≡ clients.old.db }
    ensures passes { clients.new.passes ≡ clients.old.passes }
{
    run_all(rt, &clients.db, gate, clients.sessions.as_mut_slice())
}

/// The bytes of the stack of each thread that has trees in hand, whatever the host's own limit says.
/// The deepest tree has a level for each byte of a key, 2,048 at most. It takes a little less than
/// 1 MiB in the proved program, and several times as much where a program is run unproved.
pub(crate) const STACK: usize = 8 * 1024 * 1024;

/// Carries out sessions in the same way.
#[cycle(run_all)]
fn run_all<R: Threads + Wait + Sync, G: Gate + Sync>(
    rt: &R,
    db: &Db,
    gate: &G,
    sessions: &mut [Session],
) -> Result<(), AllocError>
    requires sync { IsSync R.row × IsSync G.row }
    requires ready { AreReady db.now sessions.old }
    ensures answered { OnOk result (HaveAnswered sessions.old sessions.new) }
    ensures later { AreLater sessions.old sessions.new }
{
    match sessions {
        [] => Ok(()),
        [session] => run_one(rt, db, gate, session),
        sessions => {
            let (front, back) = sessions.split_at_mut(sessions.len() / 2);
            run_both(rt, db, gate, front, back)
        }
    }
}

/// Carries out a session. Where it finds no memory, the waits of all sessions are ended, for nobody
/// may be left to make the commit that they wait for.
fn run_one<R: Wait, G: Gate>(
    rt: &R,
    db: &Db,
    gate: &G,
    session: &mut Session,
) -> Result<(), AllocError>
    requires ready { AreReady db.now (session.old ∷ []) }
    ensures answered { OnOk result (HaveAnswered (session.old ∷ []) (session.new ∷ [])) }
    ensures later { AreLater (session.old ∷ []) (session.new ∷ []) }
{
    let told = session.run(rt, db, gate);
    if told.is_err() {
        db.end_waits();
    }
    told
}

/// Carries out two lists of sessions side by side, the first on a new thread. Where that can't be had,
/// which is want of memory, neither is begun, and the waits of all sessions are ended.
#[cycle(run_all)]
#[tactic(auto, using(client_session::proofs::ClientLists::later_same))]
fn run_both<R: Threads + Wait + Sync, G: Gate + Sync>(
    rt: &R,
    db: &Db,
    gate: &G,
    front: &mut [Session],
    back: &mut [Session],
) -> Result<(), AllocError>
    requires sync { IsSync R.row × IsSync G.row }
    requires some { (1 ≤ length front.old) × (1 ≤ length back.old) }
    requires front { AreReady db.now front.old }
    requires back { AreReady db.now back.old }
    ensures front { OnOk result (HaveAnswered front.old front.new) }
    ensures back { OnOk result (HaveAnswered back.old back.new) }
    ensures later_front { AreLater front.old front.new }
    ensures later_back { AreLater back.old back.new }
{
    let (first, second) = join_deep(
        rt,
        STACK,
        &mut || -> Result<(), AllocError>
            requires { IsSync R.row × IsSync G.row × AreReady db.now front.now }
            ensures { OnOk result (HaveAnswered front.entry.now front.exit.now)
                × AreLater front.entry.now front.exit.now }
        { run_all(rt, db, gate, front) },
        &mut || -> Result<(), AllocError>
            requires { IsSync R.row × IsSync G.row × AreReady db.now back.now }
            ensures { OnOk result (HaveAnswered back.entry.now back.exit.now)
                × AreLater back.entry.now back.exit.now }
        { run_all(rt, db, gate, back) },
    );
    // Each case by itself, for what it leaves of the sessions is shown of each.
    match (first, second) {
        (Some(first), Some(second)) => first.and(second),
        (Some(_), None) => without_thread(db),
        (None, Some(_)) => without_thread(db),
        (None, None) => without_thread(db),
    }
}

/// Ends the waits of all sessions, where there is no thread for one.
fn without_thread(db: &Db) -> Result<(), AllocError>
    ensures { IsErr result }
{
    db.end_waits();
    Err(AllocError)
}
