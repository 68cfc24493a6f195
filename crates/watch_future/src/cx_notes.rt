//! Notes at a context.
ghost use Rattle.std.specs.Prelude.{◌≡◌, [], option_copied};
ghost use Rattle.futures.specs.Poll.{OnPending};
ghost use Rattle.futures.specs.Task.{Covers, Keeps};
ghost use Rattle.watch_future.specs.Cells.{cells_awaited};
ghost use Rattle.watch_future.specs.NotedWatches.{HasSource, cells_noted};
ghost use Rattle.watch_future.specs.Polls.{AnswersPoll, CanPoll, MayHaveLooked};
ghost use Rattle.watch_set.specs.Checks.{KeepsHeld};

use crate::noted_watch::NotedWatch;
use crate::noting::Notes;
use crate::poll::poll_watch;
use futures::task::{Context, Poll};
use mem_txn::{Db, Held, Pass};
use std::alloc::AllocError;
use std::sync::Wait;
use watch_set::{WatchSet, Woken};
use watch_word::Watch;

/// Notes watches at the context of a poll. It keeps a source and a slot for each, and takes those of
/// an earlier poll first, since a waker that is let go wakes its task. The list is a type parameter,
/// so that contracts see what becomes of the context.
#[derive(Drop)]
pub(crate) struct CxNotes<'n, 'c, K> {
    cx: &'n mut Context<'c>,
    kept: K,
    spent: K,
}

impl Notes for CxNotes<'_, '_, Vec<NotedWatch>> {
    ghost use Rattle.std.specs.Prelude.{Some};
    ghost use Rattle.watch_future.specs.inner.AtContext.{lasts_at};
    ghost use Rattle.watch_future.specs.NotedWatches.{cells_noted};

    ghost noted = { λ n. Some (cells_noted n.kept.items) };

    ghost lasting = { lasts_at };

    fn note(&mut self, watch: &Watch) -> Result<(), AllocError> {
        let watch = watch.share()?;
        let mut kept = NotedWatch::of(watch, self.spent.pop());
        let _ = self.cx.register::<()>(&kept.source, &mut kept.slot);
        self.kept.push(kept)?;
        Ok(())
    }
}

/// Polls a set with notes at a context, of which nothing is noted so far.
fn poll_noting<R: Wait>(
    rt: &R,
    db: &Db,
    pass: &mut Pass,
    set: &WatchSet,
    until: Option<&Held>,
    notes: &mut CxNotes<'_, '_, Vec<NotedWatch>>,
) -> Poll<Result<Woken, AllocError>>
    requires none { notes.old.kept.items ≡ [] }
    requires can { CanPoll db.now pass.old set.now (option_copied until) }
    ensures same_reference { notes.new.cx.ghost_name ≡ notes.old.cx.ghost_name }
    ensures told { AnswersPoll pass.old pass.new set.now (option_copied until.entry) result }
    ensures noted { OnPending result
        (cells_noted notes.new.kept.items ≡ cells_awaited set.now (option_copied until.entry)) }
    ensures registered { OnPending result
        (Covers notes.new.cx.now (HasSource notes.new.kept.items)) }
    ensures kept { Keeps notes.old.cx.now notes.new.cx.now }
    ensures again { CanPoll db.now pass.new set.now (option_copied until.entry) }
    ensures keeps { KeepsHeld pass.old pass.new }
    ensures looks { MayHaveLooked pass.old pass.new }
{
    poll_watch(rt, db, pass, set, until, notes)
}

/// What a future keeps from poll to poll: its notes, and room for those of the next poll.
#[derive(Drop)]
pub(crate) struct Lists {
    pub(crate) kept: Vec<NotedWatch>,
    pub(crate) room: Vec<NotedWatch>,
}

/// Polls a set at a context, with the sources and slots of an earlier poll, and gives those of this
/// one.
pub(crate) fn poll_at<R: Wait>(
    rt: &R,
    db: &Db,
    pass: &mut Pass,
    set: &WatchSet,
    until: Option<&Held>,
    cx: &mut Context<'_>,
    lists: Lists,
) -> (Poll<Result<Woken, AllocError>>, Lists)
    requires { CanPoll db.now pass.old set.now (option_copied until) }
    ensures told { AnswersPoll pass.old pass.new set.now (option_copied until.entry) result.0 }
    ensures noted { let lists = result.1 in OnPending result.0
        (cells_noted lists.kept.items ≡ cells_awaited set.now (option_copied until.entry)) }
    ensures registered { let lists = result.1 in
        OnPending result.0 (Covers cx.new (HasSource lists.kept.items)) }
    ensures kept { Keeps cx.old cx.new }
    ensures again { CanPoll db.now pass.new set.now (option_copied until.entry) }
    ensures keeps { KeepsHeld pass.old pass.new }
    ensures looks { MayHaveLooked pass.old pass.new }
{
    let Lists {
        kept: spent,
        room: mut kept,
    } = lists;
    kept.clear();
    let mut notes = CxNotes { cx, kept, spent };
    let told = poll_noting(rt, db, pass, set, until, &mut notes);
    let CxNotes {
        cx: lent,
        kept,
        spent: room,
    } = notes;
    // No effect at run time. The proof reads what the context holds from this use of it.
    let _ = &*lent;
    (told, Lists { kept, room })
}
