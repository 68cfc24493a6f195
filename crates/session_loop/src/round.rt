//! Rounds of polls.
ghost use Rattle.std.specs.Prelude.{◌≡◌, IfOk, OnOk, ◌&&◌, not};
ghost use Rattle.client_session.specs.Clients.{AreLater};
ghost use Rattle.session_loop.specs.inner.Tasks.{AreInLoop, scripts_of};
ghost use Rattle.session_loop.specs.inner.Turns.{TakeTurns, no_polls, round_after, round_with};

use crate::polled::Polled;
use crate::task::Task;
use client_session::Session;
use mem_txn::Db;
use std::alloc::AllocError;
use std::sync::Wait;

/// What the polls of a round came to.
#[derive(Clone, Copy, Debug, PartialEq, Eq)]
pub struct Round {
    /// A line was answered, or a session ended.
    pub went_on: bool,
    /// A session was held at `write`.
    pub held: bool,
}

impl Round {
    /// A round without polls.
    pub fn new() -> Round
        ensures { result ≡ no_polls }
    {
        Round {
            went_on: false,
            held: false,
        }
    }

    /// The round with one more poll, if there was one.
    fn after(self, polled: Option<Polled>) -> Round
        ensures { result ≡ round_after self polled }
    {
        match polled {
            Some(polled) => self.with(polled),
            None => self,
        }
    }

    /// The round with one more poll.
    fn with(self, polled: Polled) -> Round
        ensures { result ≡ round_with self polled }
    {
        let Round { went_on, held } = self;
        match polled {
            Polled::Answered { .. } | Polled::Ended => Round {
                went_on: true,
                held,
            },
            Polled::Held { .. } => Round {
                went_on,
                held: true,
            },
            Polled::Parked { .. } => self,
        }
    }

    /// Whether every session that is left waits: none went on, and none was held.
    pub fn is_quiet(self) -> bool
        ensures { result ≡ (not self.went_on && not self.held) }
    {
        !self.went_on && !self.held
    }
}

/// Takes each session once, in order, and gives the round with their polls. A firing is seen by
/// every session that is taken after it.
pub fn poll_each<R: Wait>(
    rt: &R,
    db: &Db,
    sessions: &mut [Session],
    tasks: &mut [Task],
) -> Result<Round, AllocError>
    requires { AreInLoop db.now sessions.old tasks.old }
    ensures turns { IfOk result (λ last.
        TakeTurns db.now sessions.old sessions.new tasks.old tasks.new no_polls last) }
    ensures inside { OnOk result (AreInLoop db.now sessions.new tasks.new) }
    ensures later { AreLater sessions.old sessions.new }
    ensures scripts { scripts_of sessions.new ≡ scripts_of sessions.old }
{
    let mut round = Round::new();
    for at in 0..tasks.len() {
        let polled = tasks[at].poll(rt, db, &mut sessions[at])?;
        round = round.after(polled);
    }
    Ok(round)
}
