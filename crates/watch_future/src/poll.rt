//! Notes of a set, and then a look at it.
ghost use Rattle.std.specs.Prelude.{◌≡◌, ◌<◌, None, OnErr, OnOk, length, option_copied};
ghost use Rattle.watch_future.specs.Cells.{ArePartlyNoted, cells_awaited, with_cells};
ghost use Rattle.watch_future.specs.Facts.{Fact};
ghost use Rattle.watch_future.specs.Polls.{AnswersPoll, CanPoll, MayHaveLooked, NotesPoll};
ghost use Rattle.watch_future.specs.inner.NotedAt.{AreNoted, IsNotedAt};
ghost use Rattle.watch_set.specs.Checks.{KeepsHeld};

use crate::noting::Notes;
use futures::task::Poll;
use mem_txn::{Db, Held, Pass};
use std::alloc::AllocError;
use std::sync::Wait;
use watch_set::{WatchSet, Woken};

/// Notes the watch of the member at a place.
fn note_at<N: Notes>(set: &WatchSet, place: usize, notes: &mut N) -> Result<(), AllocError>
    requires { place < length set.now }
    ensures noted { OnOk result (IsNotedAt set.now place (N.noted notes.old) (N.noted notes.new)) }
    ensures kept { OnErr result (N.noted notes.new ≡ N.noted notes.old) }
    ensures lasts { (f : Fact) → N.lasting notes.old f → N.lasting notes.new f }
{
    let Some(held) = set.held(place) else {
        return Ok(());
    };
    notes.note(held.watch())?;
    Ok(())
}

/// Notes the watches of a set.
fn note_members<N: Notes>(set: &WatchSet, notes: &mut N) -> Result<(), AllocError>
    ensures noted { OnOk result
        (N.noted notes.new ≡ with_cells (cells_awaited set.now None) (N.noted notes.old)) }
    ensures refused { OnErr result
        (ArePartlyNoted (cells_awaited set.now None) (N.noted notes.old) (N.noted notes.new)) }
    ensures lasts { (f : Fact) → N.lasting notes.old f → N.lasting notes.new f }
{
    for place in 0..set.len() {
        note_at(set, place, notes)?;
    }
    Ok(())
}

/// Notes each watch of a set in order, and then what cancels. `AllocError` comes for want of memory,
/// and then the first of them are noted, as many as there was memory for.
pub fn note_all<N: Notes>(
    set: &WatchSet,
    until: Option<&Held>,
    notes: &mut N,
) -> Result<(), AllocError>
    ensures noted { let cells = cells_awaited set.now (option_copied until.entry) in
        OnOk result (N.noted notes.new ≡ with_cells cells (N.noted notes.old)) }
    ensures refused { let cells = cells_awaited set.now (option_copied until.entry) in
        OnErr result (ArePartlyNoted cells (N.noted notes.old) (N.noted notes.new)) }
    ensures lasts { (f : Fact) → N.lasting notes.old f → N.lasting notes.new f }
{
    note_members(set, notes)?;
    match until {
        Some(held) => notes.note(held.watch()),
        None => Ok(()),
    }
}

/// Looks once, behind the notes: a look before them would miss a commit in between.
fn look_noted<R: Wait, N: Notes>(
    rt: &R,
    db: &Db,
    pass: &mut Pass,
    set: &WatchSet,
    until: Option<&Held>,
    notes: &N,
) -> Poll<Result<Woken, AllocError>>
    requires can { CanPoll db.now pass.old set.now (option_copied until) }
    requires noted { AreNoted (cells_awaited set.now (option_copied until)) (N.noted notes.now) }
    ensures told { AnswersPoll pass.old pass.new set.now (option_copied until.entry) result }
    ensures again { CanPoll db.now pass.new set.now (option_copied until.entry) }
    ensures keeps { KeepsHeld pass.old pass.new }
    ensures looks { MayHaveLooked pass.old pass.new }
{
    match set.look_once(rt, db, pass, until) {
        Ok(Some(woken)) => Poll::Ready(Ok(woken)),
        Ok(None) => Poll::Pending,
        Err(e) => Poll::Ready(Err(e)),
    }
}

/// Notes all watches of a set and what cancels, and then looks once. It is pending where that look
/// finds each of them quiet, and else tells what the look has found; a commit behind the look fires
/// a cell that is noted. It may wait while another caller commits. `AllocError` comes for want of
/// memory, or where a further owner is refused; the pass may have seen more by then.
pub fn poll_watch<R: Wait, N: Notes>(
    rt: &R,
    db: &Db,
    pass: &mut Pass,
    set: &WatchSet,
    until: Option<&Held>,
    notes: &mut N,
) -> Poll<Result<Woken, AllocError>>
    requires { CanPoll db.now pass.old set.now (option_copied until) }

    ensures told { AnswersPoll pass.old pass.new set.now (option_copied until.entry) result }
    ensures noted { NotesPoll result (cells_awaited set.now (option_copied until.entry))
        (N.noted notes.old) (N.noted notes.new) }

    ensures lasts { (f : Fact) → N.lasting notes.old f → N.lasting notes.new f }
    ensures again { CanPoll db.now pass.new set.now (option_copied until.entry) }
    ensures keeps { KeepsHeld pass.old pass.new }
    ensures looks { MayHaveLooked pass.old pass.new }
{
    if let Err(e) = note_all(set, until, notes) {
        return Poll::Ready(Err(e));
    }
    look_noted(rt, db, pass, set, until, notes)
}
