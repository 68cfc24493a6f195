//! The closing look: whether no client can go on.
ghost use Rattle.std.specs.Prelude.{◌≡◌, ◌<◌, ◌≤◌, ◌^◌, ◌∷◌, [], IfOk, IfSome, IsFalse, IsNone};
ghost use Rattle.std.specs.Prelude.{IsTrue, Some, false};
ghost use Rattle.std.specs.Prelude.{length};
ghost use Rattle.std.specs.Prelude.{option_copied, slice_get};
ghost use Rattle.mem_txn.specs.Database.{Database, IsOf};
ghost use Rattle.mem_txn.specs.Transactions.{txn_of};
ghost use Rattle.session_loop.specs.inner.Awake.{CanGoOn, FindsOneAwake, HasOneFired, IsAwake};
ghost use Rattle.session_loop.specs.inner.Awake.{OneCanGoOn};
ghost use Rattle.session_loop.specs.inner.Endings.{IsIdle};
ghost use Rattle.session_loop.specs.inner.Halted.{HasHalted, HaveHalted};
ghost use Rattle.session_loop.specs.inner.Rest.{AreAtRest, FindsRest, IsAtRest, NoneFired};
ghost use Rattle.session_loop.specs.inner.Rest.{commits_told};
ghost use Rattle.session_loop.specs.inner.Tasks.{AreInLoop, StandsAt, states_of};
ghost use Rattle.watch_future.specs.Cells.{AreOfBook, cell_of, cells_of};
ghost use Rattle.watch_set.specs.Checks.{with_until};
ghost use Rattle.watch_set.specs.Members.{Member, watches_of};
ghost use Rattle.watch_word.specs.Logs.{has_fired};

use crate::task::{State, Task};
use client_session::Session;
use mem_txn::{BeginError, BeginRefused, Db, Held, Pass, Tried, WriteTxn};
use std::alloc::AllocError;
use std::sync::Wait;
use watch_set::WatchSet;
use watch_word::Front;

/// Looks whether every session has ended or waits in vain, by a write transaction of the loop's own
/// pass, beside which nobody commits. It is so where the transaction can be begun, it stands on as
/// many commits as the sessions have told, and none of the watches that they wait for has fired. The
/// pass is given back. `AllocError` comes where there is no memory for the transaction.
pub fn look_closing<R: Wait>(
    rt: &R,
    db: &Db,
    pass: Pass,
    sessions: &[Session],
    tasks: &[Task],
) -> (Pass, Result<bool, AllocError>)
    requires own { IsOf db.now pass }
    requires inside { AreInLoop db.now sessions.now tasks.now }
    ensures idle { IsIdle pass result.0 }
    ensures rest { IfOk result.1
        (λ halted. IsTrue halted → FindsRest result.0 sessions.now) }
    ensures halted { IfOk result.1
        (λ halted. IsTrue halted → HaveHalted (states_of tasks.now)) }
{
    match db.try_write(rt, pass) {
        Ok(Tried::Begun(txn)) => {
            let halted = are_halted_within(&txn, sessions, tasks);
            (txn.abort(db), Ok(halted))
        }
        Ok(Tried::Taken(pass)) => (pass, Ok(false)),
        Err(BeginRefused { pass, cause }) => (pass, without_turn(cause)),
    }
}

/// What is told where the transaction can't be begun: that it isn't known whether all have halted.
fn without_turn(cause: BeginError) -> Result<bool, AllocError>
    ensures { IfOk result (λ halted. halted ≡ false) }
{
    match cause {
        BeginError::Memory => Err(AllocError),
        BeginError::CommitsSpent => Ok(false),
    }
}

/// Whether the sessions have told all commits, and every one has ended or waits in vain.
fn are_halted_within(txn: &WriteTxn<()>, sessions: &[Session], tasks: &[Task]) -> bool
    requires { (db : Database) × IsOf db (txn_of txn.now).caller
        × AreInLoop db sessions.now tasks.now }
    ensures rest { IsTrue result → FindsRest (txn_of txn.now).caller sessions.now }
    ensures halted { IsTrue result → HaveHalted (states_of tasks.now) }
    ensures goes_on { IsFalse result
        → FindsOneAwake (txn_of txn.now).caller sessions.now tasks.now }
{
    match commits_told(sessions) {
        Some(count) => count == txn.number() && are_halted(&txn.front(), sessions, tasks),
        None => false,
    }
}

/// How many commits the sessions have told together; nothing where these are more than a `u64` can
/// count.
fn commits_told(sessions: &[Session]) -> Option<u64>
    ensures told { IfSome result (λ count. count ≡ commits_told sessions.now) }
    ensures many { IsNone result → 2 ^ 64 ≤ commits_told sessions.now }
{
    let mut sum: u64 = 0;
    for session in sessions {
        sum = sum.checked_add(session.commits())?;
    }
    Some(sum)
}

/// Whether every session has ended, or waits for watches of which none has fired.
fn are_halted(front: &Front, sessions: &[Session], tasks: &[Task]) -> bool
    requires { (db : Database) × (db.book ≡ front.now.book)
        × AreInLoop db sessions.now tasks.now }
    ensures rest { IsTrue result → AreAtRest front.now sessions.now }
    ensures halted { IsTrue result → HaveHalted (states_of tasks.now) }
    ensures goes_on { IsFalse result → OneCanGoOn front.now sessions.now tasks.now }
{
    for (at, session) in sessions.iter().enumerate() {
        if !is_halted(front, session, &tasks[at]) {
            return false;
        }
    }
    true
}

/// Whether a session has ended, or waits for watches of which none has fired.
fn is_halted(front: &Front, session: &Session, task: &Task) -> bool
    requires book { session.now.caller.book ≡ front.now.book }
    requires stands { StandsAt session.now task.now.state }
    ensures rest { IsTrue result → IsAtRest front.now session.now }
    ensures halted { IsTrue result → HasHalted task.now.state }
    ensures goes_on { IsFalse result → CanGoOn front.now session.now task.now.state }
{
    match task.state {
        State::Ended => true,
        State::Parked { .. } => waits_in_vain(front, session),
        State::Ready => false,
    }
}

/// Whether a session waits for watches of which none has fired.
fn waits_in_vain(front: &Front, session: &Session) -> bool
    requires { session.now.caller.book ≡ front.now.book }
    ensures rest { IsTrue result → IsAtRest front.now session.now }
    ensures awake { IsFalse result → IsAwake front.now session.now }
{
    match session.waits_for() {
        Some(waits) => all_quiet(front, waits.set, waits.until),
        None => false,
    }
}

/// Whether neither a watch of a set has fired, nor what cancels a wait for it.
fn all_quiet(front: &Front, set: &WatchSet, until: Option<&Held>) -> bool
    requires { let hs = with_until (watches_of set.now) (option_copied until) in
        AreOfBook front.now.book (cells_of hs) }
    ensures quiet { let hs = with_until (watches_of set.now) (option_copied until.entry) in
        IsTrue result → NoneFired front.now hs }
    ensures moved { let hs = with_until (watches_of set.now) (option_copied until.entry) in
        IsFalse result → HasOneFired front.now hs }
{
    if !are_quiet(front, set) {
        return false;
    }
    match until {
        Some(held) => is_quiet(front, held),
        None => true,
    }
}

/// Whether no watch of a set has fired.
fn are_quiet(front: &Front, set: &WatchSet) -> bool
    requires { AreOfBook front.now.book (cells_of (watches_of set.now)) }
    ensures quiet { IsTrue result → NoneFired front.now (watches_of set.now) }
    ensures moved { IsFalse result → HasOneFired front.now (watches_of set.now) }
{
    for place in 0..set.len() {
        if !is_quiet_at(front, set, place) {
            return false;
        }
    }
    true
}

/// Whether the watch of the member at a place hasn't fired.
fn is_quiet_at(front: &Front, set: &WatchSet, place: usize) -> bool
    requires place { place < length set.now }
    requires book { AreOfBook front.now.book (cells_of (watches_of set.now)) }
    ensures quiet { IsTrue result → (m : Member) → slice_get set.now place ≡ Some m
        → has_fired (cell_of m.held) front.now ≡ false }
    ensures moved { IsFalse result → HasOneFired front.now (watches_of set.now) }
{
    match set.held(place) {
        Some(held) => is_quiet(front, held),
        None => unreachable!(),
    }
}

/// Whether a watch hasn't fired.
fn is_quiet(front: &Front, held: &Held) -> bool
    requires { (cell_of held.now).book ≡ front.now.book }
    ensures quiet { IsTrue result → has_fired (cell_of held.now) front.now ≡ false }
    ensures moved { IsFalse result → HasOneFired front.now (held.now ∷ []) }
{
    !held.watch().moved(front).fired
}
