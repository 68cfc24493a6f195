//! What is tried in a new database, behind its first commit.
ghost use Rattle.std.specs.Prelude.{IfOk};
ghost use Rattle.mem_txn.specs.CallerOf.{IsCaller};
ghost use Rattle.watch_future.specs.Polls.{CanPoll};

use super::lists::{OLDER_CHOSEN, beside, is_told, stays_quiet};
use super::tasks::{are_ready, is_ready_behind, registers};
use super::worked::{
    Awaited, INSERT_ANN, INSERT_NOTE, Line, OLDER_ANN, Told, awaited_now, closed, holds, insert,
    trio,
};
use mem_txn::{Db, Pass};
use std::alloc::{AllocError, AllocGlobal, Global};
use std::process::Abort;
use std::random::RandomSource;
use std::sync::Wait;
use std::test::Fail;
use watch_set::Woken;

/// A row, and what is told after its commit.
type Expected = (Line<'static>, Woken);

const FIRED: Expected = (OLDER_ANN, Woken::Fired { place: 0, at: 2 });

const STOPPED: Expected = (INSERT_NOTE, Woken::Stopped { at: 2 });

/// What is tried.
enum Trial {
    /// A poll tells this behind its notes.
    Poll(Expected),
    /// A future of a watch that has fired is ready, and tells this.
    Future(Expected),
    /// A set without members notes nothing.
    Empty,
    /// A pending future has registered, and its end withdraws.
    Register,
    /// A commit readies two futures that share a watch.
    Tasks,
    /// Of a thousand sets one is ready behind a commit.
    Sets,
}

/// All but the last, with what is shown, and whether a watch of the notes cancels.
static TRIALS: [(&str, bool, Trial); 7] = [
    (
        "a poll tells the member that fired",
        false,
        Trial::Poll(FIRED),
    ),
    ("a poll tells what cancels", true, Trial::Poll(STOPPED)),
    (
        "a future tells the member that fired",
        false,
        Trial::Future(FIRED),
    ),
    ("a future tells what cancels", true, Trial::Future(STOPPED)),
    ("a set without members notes nothing", false, Trial::Empty),
    ("a pending future has registered", true, Trial::Register),
    ("two futures share a watch", false, Trial::Tasks),
];

/// Whether a trial is right, of what the first caller waits for.
fn is_tried<R: Abort + Wait + RandomSource + AllocGlobal>(
    rt: &R,
    alloc: Global,
    db: &Db,
    one: &mut Pass,
    two: Pass,
    three: &mut Pass,
    awaited: Result<Awaited, AllocError>,
    trial: &Trial,
) -> (Pass, Told)
    requires one { IsCaller db.now 1 one.old }
    requires two { IsCaller db.now 2 two }
    requires three { IsCaller db.now 3 three.old }
    requires can { IfOk awaited (λ w. CanPoll db.now one.old w.set w.notes) }
    ensures one { IsCaller db.now 1 one.new }
    ensures two { IsCaller db.now 2 result.0 }
    ensures three { IsCaller db.now 3 three.new }
{
    let Ok(awaited) = awaited else {
        return (two, Err(AllocError));
    };
    match trial {
        Trial::Poll((line, woken)) => {
            is_told(rt, alloc, 0, db, one, two, &awaited, line, Some(*woken))
        }
        Trial::Future((line, woken)) => {
            is_ready_behind(rt, alloc, db, one, two, awaited, line, *woken)
        }
        Trial::Empty => (two, stays_quiet(rt, alloc, db, one)),
        Trial::Register => (two, registers(rt, alloc, db, one, awaited)),
        Trial::Tasks => are_ready(rt, alloc, db, one, two, three),
        Trial::Sets => beside(rt, alloc, 1000, db, one, two, &OLDER_CHOSEN),
    }
}

/// The same in a new database, behind its first commit.
fn tries<R: Abort + Wait + RandomSource + AllocGlobal>(
    rt: &R,
    alloc: Global,
    cancels: bool,
    trial: &Trial,
) -> Told {
    let (db, passes, mut one, two, mut three) = trio(alloc)?;
    let (two, ann) = insert(rt, alloc, &db, two, &INSERT_ANN);
    let awaited = awaited_now(rt, alloc, &db, &mut one, cancels);
    let (two, told) = is_tried(rt, alloc, &db, &mut one, two, &mut three, awaited, trial);
    drop(closed(rt, db, passes, one, two, three));
    ann.and(told)
}

#[test]
fn each_trial_behind_a_first_commit_is_right(rt: HostRuntime) -> Result<(), Fail> {
    for (name, cancels, trial) in &TRIALS {
        assert!(rt; tries(&rt, rt.alloc(), *cancels, trial)?, "{name}");
    }
    Ok(())
}

#[test]
fn of_a_thousand_sets_one_is_ready_behind_a_commit(rt: HostRuntime) -> Result<(), Fail> {
    holds(tries(&rt, rt.alloc(), false, &Trial::Sets))
}
