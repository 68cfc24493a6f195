//! Sets of watches as futures.
ghost use Rattle.std.specs.Prelude.{◌≡◌, [], Some};
ghost use Rattle.futures.specs.Poll.{IfReady, OnPending};
ghost use Rattle.futures.specs.Task.{Covers, Keeps};
ghost use Rattle.watch_future.specs.Futures.{CanBePolled, GoesOn, MayGive};
ghost use Rattle.watch_future.specs.NotedWatches.{HasSource};
ghost use Rattle.watch_future.specs.Polls.{CanPoll};

use crate::cx_notes::{Lists, poll_at};
use futures::Future;
use futures::task::{Context, Poll};
use mem_txn::{Db, Held, Pass};
use std::alloc::{AllocError, Global};
use std::mem;
use std::sync::Wait;
use watch_set::{WatchSet, Woken};

/// Waits until a watch of a set has fired, or what cancels has. Each poll is a [`crate::poll_watch`]
/// that registers at its context. It gives the pass back with what it found, so that whoever ran it
/// can read what has changed. One that isn't polled any more is ended by [`WatchFuture::end`], which
/// gives the pass back too: a drop also withdraws what was registered, but nothing is known of the
/// pass behind it, and a database is closed with all of its passes. It can't be polled again once a
/// poll was ready, and may be moved between polls.
#[derive(Drop)]
pub struct WatchFuture<'a, R> {
    rt: &'a R,
    alloc: Global,
    db: &'a Db,
    /// Until a poll is ready.
    pass: Option<&'a mut Pass>,
    set: &'a WatchSet,
    until: Option<Held>,
    lists: Lists,
}

impl<'a, R: Wait> WatchFuture<'a, R> {
    /// A future that was not polled yet. It takes no memory.
    pub fn new(
        rt: &'a R,
        alloc: Global,
        db: &'a Db,
        pass: &'a mut Pass,
        set: &'a WatchSet,
        until: Option<Held>,
    ) -> WatchFuture<'a, R>
        requires { CanPoll db.now pass.old set.now until }
        ensures pass { result.pass ≡ Some pass.entry }
        ensures of { (result.db.now ≡ db.now) × (result.set.now ≡ set.now) × (result.until ≡ until) }
        ensures none { result.lists.kept.items ≡ [] }
        ensures can { CanBePolled result }
    {
        let kept = Vec::new(alloc);
        let room = Vec::new(alloc);
        WatchFuture {
            rt,
            alloc,
            db,
            pass: Some(pass),
            set,
            until,
            lists: Lists { kept, room },
        }
    }

    /// Ends the future, withdraws what it has registered, and gives the pass back, which is there
    /// until a poll is ready.
    pub fn end(self) -> Option<&'a mut Pass>
        ensures { result ≡ self.entry.pass }
    {
        let WatchFuture {
            rt: _,
            alloc: _,
            db: _,
            pass,
            set: _,
            until,
            lists,
        } = self;
        drop(until);
        drop(lists);
        pass
    }
}

impl<'a, R: Wait> Future for WatchFuture<'a, R> {
    type Output = (&'a mut Pass, Result<Woken, AllocError>);

    ghost can_poll = { λ w. CanBePolled w };

    ghost needs = { λ w. HasSource w.lists.kept.items };

    ghost gives = { λ w r. MayGive w r };

    fn poll(&mut self, cx: &mut Context<'_>) -> Poll<(&'a mut Pass, Result<Woken, AllocError>)>
        requires { CanBePolled self.old }
        ensures value { IfReady result (MayGive self.old) }
        ensures again { OnPending result (CanBePolled self.new) }
        ensures same { OnPending result ((r : _) → MayGive self.new r → MayGive self.old r) }
        ensures registered { OnPending result (Covers cx.new (HasSource self.new.lists.kept.items)) }
        ensures kept { Keeps cx.old cx.new }
        ensures goes_on { GoesOn self.old self.new result }
    {
        let Some(pass) = self.pass.take() else {
            unreachable!();
        };
        let empty = Lists {
            kept: Vec::new(self.alloc),
            room: Vec::new(self.alloc),
        };
        let lists = mem::replace(&mut self.lists, empty);
        let until = self.until.as_ref();
        let (told, lists) = poll_at(self.rt, self.db, pass, self.set, until, cx, lists);
        self.lists = lists;
        match told {
            Poll::Ready(told) => Poll::Ready((pass, told)),
            Poll::Pending => {
                self.pass = Some(pass);
                Poll::Pending
            }
        }
    }
}
