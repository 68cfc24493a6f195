//! Polls with lists of notes. A caller polls as many sets as it likes, each with a list of its own.
ghost use Rattle.std.specs.Prelude.{◌≡◌, ◌<◌, [], IfOk, None};
ghost use Rattle.mem_txn.specs.CallerOf.{IsCaller};
ghost use Rattle.watch_future.specs.Cells.{AreOfBook};
ghost use Rattle.watch_future.specs.Polls.{CanPoll};
ghost use Rattle.watch_set.specs.Checks.{KeepsHeld};

use super::worked::{Awaited, Line, Told, insert, set_of, watch_now};
use futures::task::Poll;
use mdb_schema::Ask;
use mem_txn::{Db, Pass};
use std::alloc::{AllocError, Global};
use std::sync::Wait;
use watch_future::poll_laws::awaited_cells_are_of_the_book;
use watch_future::{NoteList, note_all, poll_watch};
use watch_set::{WatchSet, Woken};

/// Whether a first poll is pending, with all watches noted; the list is empty where it isn't.
#[tactic(auto, using(watch_future::proofs::SameCaller::same_caller))]
fn is_noted<R: Wait>(
    rt: &R,
    db: &Db,
    pass: &mut Pass,
    awaited: &Awaited,
    list: &mut NoteList,
) -> Told
    requires own { IsCaller db.now 1 pass.old }
    requires can { let w = awaited.now in CanPoll db.now pass.old w.set w.notes }
    requires empty { list.old ≡ [] }
    ensures own { IsCaller db.now 1 pass.new }
    ensures can { let w = awaited.now in CanPoll db.now pass.new w.set w.notes }
    ensures keeps { KeepsHeld pass.old pass.new }
    ensures book { AreOfBook db.now.book list.new }
{
    let until = awaited.notes.as_ref();
    awaited_cells_are_of_the_book(db, pass, &awaited.set, until);
    match poll_watch(rt, db, pass, &awaited.set, until, list) {
        Poll::Pending => Ok(true),
        Poll::Ready(told) => {
            list.clear();
            told.and(Ok(false))
        }
    }
}

/// Whether a watch of the list has moved.
fn has_moved(db: &Db, list: &NoteList) -> bool
    requires { AreOfBook db.now.book list.now }
{
    list.any_moved(&db.front()).fired
}

/// Whether a poll told what it should, where all before it was right.
fn is_right(right: Told, told: Poll<Result<Woken, AllocError>>, woken: Option<Woken>) -> Told {
    match (right, told) {
        (Ok(right), Poll::Ready(Ok(told))) => Ok(right && Some(told) == woken),
        (Ok(right), Poll::Pending) => Ok(right && woken.is_none()),
        _ => Err(AllocError),
    }
}

/// Whether all of these are so.
fn are_all(first: Told, second: Told, third: bool) -> Told {
    match (first, second) {
        (Ok(first), Ok(second)) => Ok(first && second && third),
        _ => Err(AllocError),
    }
}

/// Whether a first poll is pending and quiet. Behind the commit of a line, and so many other sets
/// that are polled on both sides of it, the list of notes has moved exactly where a poll tells
/// something, and tells that.
#[cycle(beside)]
#[tactic(auto, using(watch_future::proofs::SameCaller::same_caller))]
pub(crate) fn is_told<R: Wait>(
    rt: &R,
    alloc: Global,
    left: u32,
    db: &Db,
    one: &mut Pass,
    two: Pass,
    awaited: &Awaited,
    line: &Line,
    woken: Option<Woken>,
) -> (Pass, Told)
    requires one { IsCaller db.now 1 one.old }
    requires two { IsCaller db.now 2 two }
    requires can { let w = awaited.now in CanPoll db.now one.old w.set w.notes }
    ensures one { IsCaller db.now 1 one.new }
    ensures two { IsCaller db.now 2 result.0 }
    ensures keeps { KeepsHeld one.old one.new }
{
    let mut list = NoteList::new(alloc);
    let noted = is_noted(rt, db, one, awaited, &mut list);
    let quiet = !has_moved(db, &list);
    let (two, others) = beside(rt, alloc, left, db, one, two, line);
    let right = has_moved(db, &list) == woken.is_some();
    list.clear();
    let until = awaited.notes.as_ref();
    let told = poll_watch(rt, db, one, &awaited.set, until, &mut list);
    let right = are_all(noted, others, quiet && right);
    (two, is_right(right, told, woken))
}

/// Which of a thousand sets is ready behind the commit, and the row of that commit.
const CHOSEN: u32 = 500;

pub(crate) const OLDER_CHOSEN: Line<'static> = ("users", r#"{"name":"u500","age":2}"#);

/// What the poll of a set tells then.
fn woken_of(number: u32) -> Option<Woken> {
    if number == CHOSEN {
        Some(Woken::Fired { place: 0, at: 1002 })
    } else {
        None
    }
}

/// Puts in the row of a number.
fn insert_numbered<R: Wait>(
    rt: &R,
    alloc: Global,
    db: &Db,
    pass: Pass,
    number: u32,
) -> (Pass, Result<(), AllocError>)
    requires own { IsCaller db.now 2 pass }
    ensures { IsCaller db.now 2 result.0 }
{
    match format!(in alloc; "{{\"name\":\"u{number}\",\"age\":1}}") {
        Ok(text) => insert(rt, alloc, db, pass, &("users", &text)),
        Err(_) => (pass, Err(AllocError)),
    }
}

/// The set of that row.
fn numbered_now<R: Wait>(
    rt: &R,
    alloc: Global,
    db: &Db,
    pass: &mut Pass,
    number: u32,
) -> Result<Awaited, AllocError>
    requires own { IsCaller db.now 1 pass.old }
    ensures own { IsCaller db.now 1 pass.new }
    ensures can { IfOk result (λ w. CanPoll db.now pass.new w.set w.notes) }
    ensures keeps { KeepsHeld pass.old pass.new }
{
    let args = format!(in alloc; "[\"u{number}\"]")?;
    let row = watch_now(rt, alloc, db, pass, &(Ask::First, "users", &args))?;
    match set_of(alloc, &row) {
        Ok(set) => Ok(Awaited { set, notes: None }),
        Err(AllocError) => Err(AllocError),
    }
}

/// Commits a line behind the polls of so many sets, each of a row of its own, and polls them again.
#[cycle(beside)]
pub(crate) fn beside<R: Wait>(
    rt: &R,
    alloc: Global,
    left: u32,
    db: &Db,
    one: &mut Pass,
    two: Pass,
    line: &Line,
) -> (Pass, Told)
    requires one { IsCaller db.now 1 one.old }
    requires two { IsCaller db.now 2 two }
    ensures one { IsCaller db.now 1 one.new }
    ensures two { IsCaller db.now 2 result.0 }
    ensures keeps { KeepsHeld one.old one.new }
{
    if left == 0 {
        let (two, row) = insert(rt, alloc, db, two, line);
        return (two, row.and(Ok(true)));
    }
    let (two, row) = insert_numbered(rt, alloc, db, two, left);
    match (row, numbered_now(rt, alloc, db, one, left)) {
        (Ok(()), Ok(awaited)) => {
            let woken = woken_of(left);
            is_told(rt, alloc, left - 1, db, one, two, &awaited, line, woken)
        }
        _ => (two, Err(AllocError)),
    }
}

/// Whether a set without members leaves a list empty, and a look at it finds nothing.
pub(crate) fn stays_quiet<R: Wait>(rt: &R, alloc: Global, db: &Db, one: &mut Pass) -> Told
    requires own { IsCaller db.now 1 one.old }
    ensures { IsCaller db.now 1 one.new }
{
    let set = WatchSet::new(alloc);
    let mut list = NoteList::new(alloc);
    note_all(&set, None, &mut list)?;
    let found = set.look_once(rt, db, one, None)?;
    Ok(found.is_none() && !has_moved(db, &list))
}
