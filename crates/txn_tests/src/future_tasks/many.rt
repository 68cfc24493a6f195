//! A thousand futures at once on one thread. Each has a pass to itself, of which a database has at
//! most 64; so each waits at a database of its own, and one commit readies one of them.
ghost use Rattle.std.specs.Prelude.{IfOk};
ghost use Rattle.mem_txn.specs.CallerOf.{IsCaller};
ghost use Rattle.watch_future.specs.Polls.{CanPoll};

use super::tasks::{poll_once, poll_to_end};
use super::worked::{
    Awaited, INSERT_ANN, OLDER_ANN, Told, awaited_now, closed, holds, insert, trio,
};
use futures::task::{Doorbell, Solo};
use mem_txn::{Db, Pass};
use std::alloc::{AllocError, AllocGlobal, Global};
use std::random::RandomSource;
use std::sync::Wait;
use std::test::Fail;
use watch_future::WatchFuture;
use watch_set::Woken;

/// Whether a future behind which so many others are pending told what it should, where they did.
fn is_right(others: Told, told: Result<Woken, AllocError>, is_pending: bool, left: u32) -> Told {
    match (others, told) {
        (Ok(right), _) if is_pending => Ok(right && left > 0),
        (Ok(right), Ok(told)) => Ok(right && told == Woken::Fired { place: 0, at: 2 } && left == 0),
        _ => Err(AllocError),
    }
}

/// Whether so many futures are pending at once, and behind a commit in the last one's database that
/// one is ready, and each other is pending still.
#[cycle(beside)]
fn are_right<R: Wait>(rt: &R, alloc: Global, left: u32, task: &Solo) -> Told {
    let (db, passes, mut one, two, three) = trio(alloc)?;
    let (two, ann) = insert(rt, alloc, &db, two, &INSERT_ANN);
    let awaited = awaited_now(rt, alloc, &db, &mut one, false);
    let (two, told) = are_right_over(rt, alloc, left, &db, &mut one, two, awaited, task);
    drop(closed(rt, db, passes, one, two, three));
    ann.and(told)
}

/// The same of futures of which the first is over this set.
#[cycle(beside)]
#[tactic(auto, using(watch_future::proofs::SameCaller::same_caller))]
fn are_right_over<R: Wait>(
    rt: &R,
    alloc: Global,
    left: u32,
    db: &Db,
    one: &mut Pass,
    two: Pass,
    awaited: Result<Awaited, AllocError>,
    task: &Solo,
) -> (Pass, Told)
    requires one { IsCaller db.now 1 one.old }
    requires two { IsCaller db.now 2 two }
    requires can { IfOk awaited (λ w. CanPoll db.now one.old w.set w.notes) }
    ensures one { IsCaller db.now 1 one.new }
    ensures two { IsCaller db.now 2 result.0 }
{
    let Ok(Awaited { set, notes }) = awaited else {
        return (two, Err(AllocError));
    };
    let future = WatchFuture::new(rt, alloc, db, one, &set, notes);
    match poll_once(task.begin(), future) {
        Err((back, told)) => {
            let _ = &*back;
            (two, told.and(Ok(false)))
        }
        Ok(future) => {
            let (two, others) = go_on(rt, alloc, left, db, two, task);
            let (given, is_pending) = poll_to_end(task, future);
            let (back, told) = given;
            let _ = &*back;
            (two, is_right(others, told, is_pending, left))
        }
    }
}

/// Whether all others are right, or the commit behind the last one.
#[cycle(beside)]
fn go_on<R: Wait>(rt: &R, alloc: Global, left: u32, db: &Db, two: Pass, task: &Solo) -> (Pass, Told)
    requires own { IsCaller db.now 2 two }
    ensures { IsCaller db.now 2 result.0 }
{
    if left > 0 {
        return (two, are_right(rt, alloc, left - 1, task));
    }
    let (two, row) = insert(rt, alloc, db, two, &OLDER_ANN);
    (two, row.and(Ok(true)))
}

/// Whether a thousand of them are right.
fn are_all_right<R: Wait + RandomSource + AllocGlobal>(rt: &R, alloc: Global) -> Told {
    match Solo::new(rt, Doorbell::spinning()) {
        Ok(task) => are_right(rt, alloc, 999, &task),
        Err(_) => Err(AllocError),
    }
}

#[test]
fn of_a_thousand_futures_one_is_ready_behind_a_commit(rt: HostRuntime) -> Result<(), Fail> {
    holds(are_all_right(&rt, rt.alloc()))
}
