//! What the loop keeps beside a session.
ghost use Rattle.std.specs.Prelude.{◌≡◌, IfOk, OnOk};
ghost use Rattle.session_loop.specs.Polls.{GoesOn};
ghost use Rattle.session_loop.specs.inner.Tasks.{IsInLoop, has_ended, is_due, new_task};
ghost use Rattle.session_loop.specs.inner.Tasks.{state_after};
ghost use Rattle.session_loop.specs.inner.Turns.{TakesTurn};

use crate::poll::poll_session;
use crate::polled::Polled;
use client_session::Session;
use mem_txn::Db;
use std::alloc::{AllocError, Global};
use std::sync::Wait;
use watch_future::NoteList;

/// How a session stands after its last poll.
#[derive(Clone, Copy, Debug, PartialEq, Eq)]
pub enum State {
    /// It is polled in the next round.
    Ready,
    /// Its next line, of this number, is a wait. It is polled once a watch that was noted has moved.
    Parked { line: u32 },
    /// No line is left.
    Ended,
}

impl State {
    /// How a session stands after a poll.
    fn after(polled: Polled) -> State
        ensures { result ≡ state_after polled }
    {
        match polled {
            Polled::Answered { .. } | Polled::Held { .. } => State::Ready,
            Polled::Parked { line } => State::Parked { line },
            Polled::Ended => State::Ended,
        }
    }

    /// Whether a session is polled in a round: by whether a watch that was noted has moved.
    fn is_due(self, moved: bool) -> bool
        ensures { result ≡ is_due self moved }
    {
        match self {
            State::Ready => true,
            State::Parked { .. } => moved,
            State::Ended => false,
        }
    }
}

/// How a session stands, and the watches that its last poll noted. The list keeps its memory for
/// the next poll.
#[derive(Drop)]
pub struct Task {
    pub state: State,
    pub notes: NoteList,
}

impl Task {
    /// The task of a session that hasn't been polled. It takes no memory.
    pub fn new(alloc: Global) -> Task
        ensures { result ≡ new_task }
    {
        Task {
            state: State::Ready,
            notes: NoteList::new(alloc),
        }
    }

    /// Polls the session, unless it has ended, or is parked and no watch that it noted has moved. A
    /// firing before this call is seen.
    pub fn poll<R: Wait>(
        &mut self,
        rt: &R,
        db: &Db,
        session: &mut Session,
    ) -> Result<Option<Polled>, AllocError>
        requires { IsInLoop db.now session.old self.old }
        ensures turn { IfOk result
            (λ told. TakesTurn db.now session.old session.new self.old self.new told) }
        ensures inside { OnOk result (IsInLoop db.now session.new self.new) }
        ensures goes_on { GoesOn session.old session.new }
    {
        let moved = self.notes.any_moved(&db.front()).fired;
        if !self.state.is_due(moved) {
            return Ok(None);
        }
        self.notes.clear();
        let polled = poll_session(session, rt, db, &mut self.notes)?;
        self.state = State::after(polled);
        Ok(Some(polled))
    }
}

/// Whether no line of the session is left.
pub fn has_ended(task: &Task) -> bool
    ensures { result ≡ has_ended task.now }
{
    matches!(task.state, State::Ended)
}
