//! Futures: what a poll registers is called, and several futures on one thread.
ghost use Rattle.std.specs.Prelude.{◌≡◌, IfErr, IfOk};
ghost use Rattle.mem_txn.specs.CallerOf.{IsCaller};
ghost use Rattle.watch_future.specs.Futures.{CanBePolled, MayGive, Waits};
ghost use Rattle.watch_future.specs.Polls.{CanPoll};

use super::worked::{Awaited, Line, OLDER_ANN, Told, awaited_now, both_now, insert};
use futures::Future;
use futures::executor::block_on;
use futures::task::{Context, Doorbell, Poll, Queue, Solo, Vacancy};
use mem_txn::{Db, Pass};
use std::alloc::{AllocError, AllocGlobal, Global};
use std::io;
use std::process::Abort;
use std::random::RandomSource;
use std::sync::Wait;
use watch_future::WatchFuture;
use watch_set::Woken;

/// What a future gives.
pub(crate) type Given<'a> = (&'a mut Pass, Result<Woken, AllocError>);

/// Polls a future once. One that is pending is moved out to whoever polls it next.
pub(crate) fn poll_once<'a, R: Wait>(
    mut cx: Context<'_>,
    mut future: WatchFuture<'a, R>,
) -> Result<WatchFuture<'a, R>, Given<'a>>
    requires { CanBePolled future }
    ensures ready { IfErr result (MayGive future.entry) }
    ensures waits { IfOk result (Waits future.entry) }
    ensures again { IfOk result CanBePolled }
    ensures same { IfOk result (λ w. (r : _) → MayGive w r → MayGive future.entry r) }
{
    let polled = future.poll(&mut cx);
    cx.end(&polled);
    match polled {
        Poll::Pending => Ok(future),
        Poll::Ready(given) => {
            let None = future.end() else {
                unreachable!();
            };
            Err(given)
        }
    }
}

/// Polls a future and ends it, and tells whether it is still pending. That also counts as want of
/// memory.
#[tactic(auto, using(watch_future::proofs::Ended::ended_gives))]
pub(crate) fn poll_to_end<'a, R: Wait>(task: &Solo, future: WatchFuture<'a, R>) -> (Given<'a>, bool)
    requires { CanBePolled future }
    ensures { MayGive future.entry result.0 }
{
    match poll_once(task.begin(), future) {
        Err(given) => (given, false),
        Ok(future) => {
            let Some(back) = future.end() else {
                unreachable!();
            };
            ((back, Err(AllocError)), true)
        }
    }
}

/// Whether a future is ready with what it should tell as it is first polled, and gives its pass back.
#[tactic(auto, using(watch_future::proofs::SameCaller::same_caller))]
fn is_ready<R: Abort + Wait + RandomSource + AllocGlobal>(
    rt: &R,
    alloc: Global,
    db: &Db,
    one: &mut Pass,
    awaited: Awaited,
    expected: Woken,
) -> Told
    requires own { IsCaller db.now 1 one.old }
    requires can { CanPoll db.now one.old awaited.set awaited.notes }
    ensures { IsCaller db.now 1 one.new }
{
    let Awaited { set, notes } = awaited;
    let future = WatchFuture::new(rt, alloc, db, one, &set, notes);
    match block_on(rt, future) {
        Ok((back, told)) => {
            let _ = &*back;
            is_told(Ok(true), told, expected)
        }
        Err(_) => panic!(rt; "there was not enough memory for a task"),
    }
}

/// Whether a future is ready behind the commit that fires its watch.
pub(crate) fn is_ready_behind<R: Abort + Wait + RandomSource + AllocGlobal>(
    rt: &R,
    alloc: Global,
    db: &Db,
    one: &mut Pass,
    two: Pass,
    awaited: Awaited,
    line: &Line,
    expected: Woken,
) -> (Pass, Told)
    requires one { IsCaller db.now 1 one.old }
    requires two { IsCaller db.now 2 two }
    requires can { CanPoll db.now one.old awaited.set awaited.notes }
    ensures one { IsCaller db.now 1 one.new }
    ensures two { IsCaller db.now 2 result.0 }
{
    let (two, row) = insert(rt, alloc, db, two, line);
    match row {
        Ok(()) => (two, is_ready(rt, alloc, db, one, awaited, expected)),
        Err(AllocError) => (two, Err(AllocError)),
    }
}

/// Whether this is the next task that runs.
fn is_next<R: Wait>(rt: &R, queue: &Queue, task: usize) -> bool {
    match queue.next(rt) {
        Some(cx) => {
            let next = cx.task();
            cx.cancel();
            next == task
        }
        None => false,
    }
}

/// Whether a poll leaves its task asleep, so that another one runs, and the end of the future wakes
/// it: then a slot had its waker, and has it no more.
#[tactic(auto, using(watch_future::proofs::SameCaller::same_caller))]
fn is_registered<R: Wait>(
    rt: &R,
    alloc: Global,
    db: &Db,
    one: &mut Pass,
    awaited: Awaited,
    queue: &Queue,
    cx: Context<'_>,
    other: Vacancy<'_>,
) -> Told
    requires own { IsCaller db.now 1 one.old }
    requires can { CanPoll db.now one.old awaited.set awaited.notes }
    ensures { IsCaller db.now 1 one.new }
{
    let Awaited { set, notes } = awaited;
    let tasks = (cx.task(), other.task());
    let polled = poll_once(cx, WatchFuture::new(rt, alloc, db, one, &set, notes));
    other.schedule();
    match polled {
        Err((back, told)) => {
            let _ = &*back;
            told.and(Ok(false))
        }
        Ok(future) => {
            let asleep = is_next(rt, queue, tasks.1);
            let Some(back) = future.end() else {
                unreachable!();
            };
            let _ = &*back;
            Ok(asleep && is_next(rt, queue, tasks.0))
        }
    }
}

/// The task of a queue that runs first, and another one that is to run behind it.
fn tasks(queue: &Queue) -> Result<Vacancy<'_>, AllocError> {
    queue.add()?.schedule();
    queue.add()
}

/// Whether a future registers, in a queue of two tasks.
pub(crate) fn registers<R: Wait + RandomSource + AllocGlobal>(
    rt: &R,
    alloc: Global,
    db: &Db,
    one: &mut Pass,
    awaited: Awaited,
) -> Told
    requires own { IsCaller db.now 1 one.old }
    requires can { CanPoll db.now one.old awaited.set awaited.notes }
    ensures { IsCaller db.now 1 one.new }
{
    let Ok(queue) = Queue::new(rt, Doorbell::spinning()) else {
        return Err(AllocError);
    };
    let other = tasks(&queue)?;
    match queue.next(rt) {
        Some(cx) => is_registered(rt, alloc, db, one, awaited, &queue, cx, other),
        None => {
            other.cancel();
            Ok(false)
        }
    }
}

/// Polls a future twice, and moves it out in between.
fn poll_twice<'a, R: Wait>(
    task: &Solo,
    future: WatchFuture<'a, R>,
) -> Result<WatchFuture<'a, R>, Given<'a>>
    requires { CanBePolled future }
    ensures ready { IfErr result (MayGive future.entry) }
    ensures again { IfOk result CanBePolled }
    ensures same { IfOk result (λ w. (r : _) → MayGive w r → MayGive future.entry r) }
{
    match poll_once(task.begin(), future) {
        Ok(future) => poll_once(task.begin(), future),
        Err(given) => Err(given),
    }
}

/// Two tasks of one thread.
fn two_tasks<R: Wait + RandomSource + AllocGlobal>(rt: &R) -> io::Result<(Solo, Solo)> {
    let first = Solo::new(rt, Doorbell::spinning())?;
    Ok((first, Solo::new(rt, Doorbell::spinning())?))
}

/// Whether a future told this, where all else was right.
fn is_told(right: Told, told: Result<Woken, AllocError>, woken: Woken) -> Told {
    match (right, told) {
        (Ok(right), Ok(told)) => Ok(right && told == woken),
        _ => Err(AllocError),
    }
}

/// Whether a future of the third caller is pending twice, and ready behind the commit that fires
/// its watch.
#[tactic(auto, using(watch_future::proofs::SameCaller::same_caller))]
fn is_ready_then<R: Wait>(
    rt: &R,
    alloc: Global,
    db: &Db,
    three: &mut Pass,
    two: Pass,
    awaited: Awaited,
    task: &Solo,
) -> (Pass, Told)
    requires three { IsCaller db.now 3 three.old }
    requires two { IsCaller db.now 2 two }
    requires can { CanPoll db.now three.old awaited.set awaited.notes }
    ensures three { IsCaller db.now 3 three.new }
    ensures two { IsCaller db.now 2 result.0 }
{
    let Awaited { set, notes } = awaited;
    match poll_twice(task, WatchFuture::new(rt, alloc, db, three, &set, notes)) {
        Err((back, told)) => {
            let _ = &*back;
            (two, told.and(Ok(false)))
        }
        Ok(future) => {
            let (two, row) = insert(rt, alloc, db, two, &OLDER_ANN);
            let (given, _) = poll_to_end(task, future);
            let (back, told) = given;
            let _ = &*back;
            (
                two,
                is_told(row.and(Ok(true)), told, Woken::Fired { place: 0, at: 2 }),
            )
        }
    }
}

/// The same of a future of the first caller beside it, whose set has another member in front.
#[tactic(auto, using(watch_future::proofs::SameCaller::same_caller))]
fn are_ready_then<R: Wait>(
    rt: &R,
    alloc: Global,
    db: &Db,
    one: &mut Pass,
    three: &mut Pass,
    two: Pass,
    both: Awaited,
    awaited: Awaited,
    tasks: &(Solo, Solo),
) -> (Pass, Told)
    requires one { IsCaller db.now 1 one.old }
    requires three { IsCaller db.now 3 three.old }
    requires two { IsCaller db.now 2 two }
    requires both { CanPoll db.now one.old both.set both.notes }
    requires can { CanPoll db.now three.old awaited.set awaited.notes }
    ensures one { IsCaller db.now 1 one.new }
    ensures three { IsCaller db.now 3 three.new }
    ensures two { IsCaller db.now 2 result.0 }
{
    let Awaited { set, notes } = both;
    match poll_twice(&tasks.0, WatchFuture::new(rt, alloc, db, one, &set, notes)) {
        Err((back, told)) => {
            let _ = &*back;
            (two, told.and(Ok(false)))
        }
        Ok(future) => {
            let (two, other) = is_ready_then(rt, alloc, db, three, two, awaited, &tasks.1);
            let (given, _) = poll_to_end(&tasks.0, future);
            let (back, told) = given;
            let _ = &*back;
            (two, is_told(other, told, Woken::Fired { place: 1, at: 2 }))
        }
    }
}

/// The same of what the two callers wait for, in two tasks of one thread.
pub(crate) fn are_ready<R: Wait + RandomSource + AllocGlobal>(
    rt: &R,
    alloc: Global,
    db: &Db,
    one: &mut Pass,
    two: Pass,
    three: &mut Pass,
) -> (Pass, Told)
    requires one { IsCaller db.now 1 one.old }
    requires two { IsCaller db.now 2 two }
    requires three { IsCaller db.now 3 three.old }
    ensures one { IsCaller db.now 1 one.new }
    ensures two { IsCaller db.now 2 result.0 }
    ensures three { IsCaller db.now 3 three.new }
{
    let Ok(tasks) = two_tasks(rt) else {
        return (two, Err(AllocError));
    };
    match (
        both_now(rt, alloc, db, one),
        awaited_now(rt, alloc, db, three, false),
    ) {
        (Ok(both), Ok(awaited)) => {
            are_ready_then(rt, alloc, db, one, three, two, both, awaited, &tasks)
        }
        _ => (two, Err(AllocError)),
    }
}
