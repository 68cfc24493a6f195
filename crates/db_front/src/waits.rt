//! Sleeping until a commit is finished that wakes. Nothing of it is part of the table's rule, and
//! nothing is claimed of waking.
use crossbeam_utils::sync::{EventCount, Key};
use std::sync::Wait;
use std::sync::atomic::AtomicBool;
use std::sync::atomic::Ordering::SeqCst;

/// Where callers sleep until a commit is finished.
#[derive(Drop)]
pub(crate) struct Waits {
    finished: EventCount,
    ended: AtomicBool,
}

impl Waits {
    /// Nobody waits.
    pub(crate) fn none() -> Waits {
        Waits {
            finished: EventCount::new(),
            ended: AtomicBool::new(false),
        }
    }

    /// Wakes all that sleep; where nobody waits it is a load.
    pub(crate) fn wake(&self) {
        self.finished.notify_all();
    }

    /// Announces a wait. Where waits have ended there is none.
    pub(crate) fn announce(&self) -> Option<NextCommit<'_>> {
        let key = self.finished.prepare_wait();
        if self.ended.load(SeqCst) {
            None
        } else {
            Some(NextCommit { key })
        }
    }

    /// Ends all waits. A wait that is announced later finds the mark, and one that was announced
    /// before is woken.
    pub(crate) fn end(&self) {
        self.ended.store(true, SeqCst);
        self.finished.notify_all();
    }
}

/// A wait for the next commit that is finished, counted from when it was announced by
/// [`Shared::next_commit`](crate::Shared::next_commit). To drop it cancels the wait.
#[derive(Drop)]
pub struct NextCommit<'a> {
    key: Key<'a>,
}

impl NextCommit<'_> {
    /// Sleeps until a commit is finished that wakes, or all waits are ended. It doesn't sleep where
    /// one of them came after the wait was announced.
    pub fn wait<R: Wait>(self, rt: &R) {
        let NextCommit { key } = self;
        key.wait(rt);
    }
}
