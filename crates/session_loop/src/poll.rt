//! A poll of a session.
ghost use Rattle.std.specs.Prelude.{IsSome, OnOk, slice_get};
ghost use Rattle.mem_txn.specs.Database.{IsOf};
ghost use Rattle.session_loop.specs.Polls.{AnswersPoll, GoesOn, HasTold};
ghost use Rattle.session_loop.specs.inner.PollParts.{PollsOn, StepsOn};
ghost use Rattle.watch_future.specs.Facts.{Fact};

use crate::polled::Polled;
use client_session::{Session, Stepped, WaitsFor};
use mem_txn::Db;
use std::alloc::AllocError;
use std::sync::Wait;
use watch_future::{Notes, note_all};

/// Makes a step of a session. Where that is blocked at a wait, it notes each watch that the line
/// waits for, and makes a second step: a commit before the notes is seen by that step, and one
/// behind them fires a cell that is noted. After `AllocError` the answers are as before.
pub fn poll_session<R: Wait, N: Notes>(
    session: &mut Session,
    rt: &R,
    db: &Db,
    notes: &mut N,
) -> Result<Polled, AllocError>
    requires { IsOf db.now session.old.caller }

    ensures polled { AnswersPoll db.now.callers session.old session.new (N.noted notes.old)
        (N.noted notes.new) result }

    ensures goes_on { GoesOn session.old session.new }
    ensures told { OnOk result (HasTold session.new) }
    ensures lasts { (f : Fact) → N.lasting notes.old f → N.lasting notes.new f }
{
    match session.step(rt, db)? {
        Stepped::Answered { line } => Ok(Polled::Answered { line }),
        Stepped::Blocked { line } => poll_blocked(session, rt, db, notes, line),
        Stepped::Ended => Ok(Polled::Ended),
    }
}

/// The rest of a poll whose first step was blocked at this line.
fn poll_blocked<R: Wait, N: Notes>(
    session: &mut Session,
    rt: &R,
    db: &Db,
    notes: &mut N,
    line: u32,
) -> Result<Polled, AllocError>
    requires own { IsOf db.now session.old.caller }
    requires told { HasTold session.old }

    ensures polled { PollsOn db.now.callers line session.old session.new (N.noted notes.old)
        (N.noted notes.new) result }

    ensures goes_on { GoesOn session.old session.new }
    ensures told { OnOk result (HasTold session.new) }
    ensures lasts { (f : Fact) → N.lasting notes.old f → N.lasting notes.new f }
{
    match session.waits_for() {
        Some(WaitsFor { set, until }) => note_all(set, until, notes)?,
        None => return Ok(Polled::Held { line }),
    }
    step_again(session, rt, db)
}

/// The second step of a poll, at a line that is left.
fn step_again<R: Wait>(session: &mut Session, rt: &R, db: &Db) -> Result<Polled, AllocError>
    requires own { IsOf db.now session.old.caller }
    requires left { IsSome (slice_get session.old.script session.old.answered) }
    ensures stepped { StepsOn db.now.callers session.old session.new result }
    ensures goes_on { GoesOn session.old session.new }
    ensures told { OnOk result (HasTold session.new) }
{
    match session.step(rt, db)? {
        Stepped::Answered { line } => Ok(Polled::Answered { line }),
        Stepped::Blocked { line } => Ok(Polled::Parked { line }),
        Stepped::Ended => unreachable!(),
    }
}
