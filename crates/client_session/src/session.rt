//! A client's session.
ghost use Rattle.std.specs.Prelude.{◌≡◌, ◌+◌, IsSome, List, None, OnErr, OnOk, Some};
ghost use Rattle.std.specs.Prelude.{◌<◌, ◌^◌, false, true, is_err, length, option_map, slice_get};
ghost use Rattle.client_script.specs.Reply.{Reply};
ghost use Rattle.client_session.specs.Answered.{AreTold, HasAnswered, HasStopped, StaysEnded, Tells};
ghost use Rattle.client_session.specs.Progress.{new_session};
ghost use Rattle.client_session.specs.Steps.{AnswersStep};
ghost use Rattle.client_session.specs.Waiting.{TellsWait, awaited_of};
ghost use Rattle.client_session.specs.declared.session_state.SessionState.{SessionState};
ghost use Rattle.client_session.specs.inner.OpenView.{caller_of, Stands};
ghost use Rattle.client_session.specs.inner.StepKept.{StepsKept};
ghost use Rattle.client_session.specs.inner.StoredSession.{IsUnfinished, caller_in};
ghost use Rattle.client_session.specs.inner.WatchingView.{Holds};
ghost use Rattle.mem_txn.specs.Database.{IsOf};

use crate::run::{carry_out, step_line};
use crate::session_state::SessionState;
use crate::stepped::Stepped;
use crate::transcript::Transcript;
use crate::waits_for::WaitsFor;
use client_script::{Line, Script};
use mdb_ports::Gate;
use mem_txn::{Db, Pass};
use std::alloc::{AllocError, Global};
use std::marker::Model;
use std::sync::Wait;

/// A client's script, its pass with what is open, and the text of its answers; seen as a
/// `Progress`. It can't be dropped: [`Session::end`] gives the pass back.
pub struct Session {
    client: u32,
    script: Script,
    /// It is taken out only while lines are carried out.
    state: Option<SessionState>,
    /// How many of the script's lines are answered.
    answered: usize,
    transcript: Transcript,
    failed: bool,
}

impl Model for Session {
    ghost use Rattle.client_session.specs.Progress.{Progress};
    ghost use Rattle.client_session.specs.inner.StoredSession.{HasDone, caller_in, progress_code, writing_in};

    ghost Value = { Progress };

    ghost coded = { progress_code };

    ghost view = { λ s. record {
      client = s.client;
      script = s.script;
      caller = caller_in s.state;
      answered = s.answered;
      text = s.transcript.text;
      commits = s.transcript.commits;
      writing = writing_in s.state;
      failed = s.failed;
    } };

    ghost invariant = { λ s. HasDone s.script s.state s.answered s.transcript s.failed };
}

impl Session {
    /// A session of the client of this number, whose pass it is. It takes no memory.
    pub fn new(alloc: Global, client: u32, script: Script, pass: Pass) -> Session
        requires { client ≡ pass.number }
        ensures { result ≡ new_session client script pass }
    {
        Session {
            client,
            script,
            state: Some(SessionState::new(alloc, pass)),
            answered: 0,
            transcript: Transcript::new(alloc),
            failed: false,
        }
    }

    /// Carries out every line that is left, and keeps the answers. A transaction that the script
    /// leaves open is aborted, so none is open then. It waits for the writer's turn at `write`, and
    /// at a wait till a watch fires, which may be never. After `AllocError` an open transaction was
    /// aborted, unless its `commit` was made and found no memory for the answer; the answers kept
    /// are those to some first lines, and each later call answers it again.
    pub fn run<R: Wait, G: Gate>(&mut self, rt: &R, db: &Db, gate: &G) -> Result<(), AllocError>
        requires own { IsOf db.now self.old.caller }
        ensures told { Tells self.old self.new }
        ensures answered { OnOk result (HasAnswered self.old self.new) }
        ensures stopped { OnErr result (HasStopped self.old self.new) }
        ensures all { OnOk result (self.new.answered ≡ length self.old.script) }
        ensures state { self.new ≡ record self.old {
          caller = self.new.caller;
          answered = self.new.answered;
          text = self.new.text;
          commits = self.new.commits;
          writing = false;
          failed = is_err result;
        } }
        ensures ended { StaysEnded self.old self.new result }
    {
        if self.failed {
            return Err(AllocError);
        }
        if self.answered == self.script.len() {
            self.close(db);
            return Ok(());
        }
        self.carry_out(rt, db, gate)
    }

    /// Carries out one line, and keeps its answer; at `write` it makes one try for the writer's
    /// turn, and at a wait it looks once at each watch. Where no line is left, an open transaction
    /// is aborted. After `AllocError` an open transaction was aborted, unless the line is its
    /// `commit`, which was made and found no memory for the answer; the answers are as before, and
    /// each later call answers it again.
    pub fn step<R: Wait>(&mut self, rt: &R, db: &Db) -> Result<Stepped, AllocError>
        requires own { IsOf db.now self.old.caller }
        ensures told { Tells self.old self.new }
        ensures stepped { AnswersStep db.now.callers self.old self.new result }
        ensures stopped { OnErr result (HasStopped self.old self.new) }
        ensures state { self.new ≡ record self.old {
          caller = self.new.caller;
          answered = self.new.answered;
          text = self.new.text;
          commits = self.new.commits;
          writing = self.new.writing;
          failed = is_err result;
        } }
        ensures failed { self.old.failed ≡ true → self.new ≡ self.old }
    {
        if self.failed {
            return Err(AllocError);
        }
        if self.answered == self.script.len() {
            self.close(db);
            return Ok(Stepped::Ended);
        }
        let next = self.answered + 1;
        self.step_on(rt, db, next)
    }

    /// Carries out the lines that are left, of which there are some.
    fn carry_out<R: Wait, G: Gate>(&mut self, rt: &R, db: &Db, gate: &G) -> Result<(), AllocError>
        requires own { IsOf db.now self.old.caller }
        requires open { IsUnfinished self.old }
        ensures told { Tells self.old self.new }
        ensures answered { OnOk result (HasAnswered self.old self.new) }
        ensures stopped { OnErr result (HasStopped self.old self.new) }
        ensures all { OnOk result (self.new.answered ≡ length self.old.script) }
        ensures state { self.new ≡ record self.old {
          caller = self.new.caller;
          answered = self.new.answered;
          text = self.new.text;
          commits = self.new.commits;
          writing = false;
          failed = is_err result;
        } }
    {
        let state = take_state(&mut self.state);
        let (client, from) = (self.client, self.answered);
        let (state, answered, told) = carry_out(
            rt,
            db,
            gate,
            client,
            &self.script,
            from,
            state,
            &mut self.transcript,
        );
        put_state(&mut self.state, state);
        self.answered = answered;
        self.failed = told.is_err();
        told
    }

    /// Carries out the next line, which there is. With it so many lines are answered.
    fn step_on<R: Wait>(&mut self, rt: &R, db: &Db, next: usize) -> Result<Stepped, AllocError>
        requires own { IsOf db.now self.old.caller }
        requires open { IsUnfinished self.old }
        requires next { next ≡ self.old.answered + 1 }
        ensures told { Tells self.old self.new }
        ensures stepped { AnswersStep db.now.callers self.old self.new result }
        ensures stopped { OnErr result (HasStopped self.old self.new) }
        ensures state { self.new ≡ record self.old {
          caller = self.new.caller;
          answered = self.new.answered;
          text = self.new.text;
          commits = self.new.commits;
          writing = self.new.writing;
          failed = is_err result;
        } }
    {
        let line = line_at(&self.script, self.answered);
        let number = line.number;
        let told = step_kept(rt, db, line, &mut self.state, &mut self.transcript);
        self.failed = told.is_err();
        if told? {
            self.answered = next;
            Ok(Stepped::Answered { line: number })
        } else {
            Ok(Stepped::Blocked { line: number })
        }
    }

    /// Aborts what is open, once no line is left.
    fn close(&mut self, db: &Db)
        requires own { IsOf db.now self.old.caller }
        requires done { self.old.answered ≡ length self.old.script }
        ensures { self.new ≡ record self.old { writing = false } }
    {
        let state = take_state(&mut self.state);
        let alloc = self.transcript.allocator();
        put_state(&mut self.state, state.closed(alloc, db));
    }

    /// The text of the answers so far.
    pub fn answers(&self) -> &[u8]
        ensures text { result.now ≡ self.now.text }
        ensures told { (replies : List Reply) × AreTold self.now replies }
    {
        self.transcript.text()
    }

    /// How many of the answers so far tell a commit. It takes no memory.
    pub fn commits(&self) -> u64
        ensures { result ≡ self.now.commits }
    {
        self.transcript.commits()
    }

    /// What the next line waits for, where it is a wait that breaks no rule. It takes no memory.
    /// After [`Stepped::Blocked`] at a wait these are the watches that were found quiet.
    pub fn waits_for(&self) -> Option<WaitsFor<'_>>
        ensures { TellsWait self.now (option_map awaited_of result) }
    {
        if self.failed {
            return None;
        }
        let line = self.script.get(self.answered)?;
        let state = self.state.as_ref()?;
        state.awaited(&line.command)
    }

    /// The pass, after what is open was aborted. It takes no memory.
    pub fn end(self, db: &Db) -> Pass
        requires own { IsOf db.now self.caller }
        ensures { result ≡ self.caller }
    {
        let Session {
            client: _,
            script,
            state,
            answered: _,
            transcript,
            failed: _,
        } = self;
        drop(script);
        drop(transcript);
        match state {
            Some(state) => state.close(db),
            None => unreachable!(),
        }
    }
}

/// Takes out the state, which is there.
fn take_state(kept: &mut Option<SessionState>) -> SessionState
    requires { IsSome kept.old }
    ensures was { kept.old ≡ Some result }
    ensures left { kept.new ≡ None }
{
    let Some(state) = kept.take() else {
        unreachable!();
    };
    state
}

/// Puts a state where none is.
fn put_state(kept: &mut Option<SessionState>, state: SessionState)
    requires { kept.old ≡ None }
    ensures { kept.new ≡ Some state }
{
    let gone = kept.replace(state);
    let None = gone else { unreachable!() };
}

/// Carries out a line on the state, which is there, and adds its answer. It gives whether there is
/// one. After `AllocError` nothing is open, and the answers are as before.
fn step_kept<R: Wait>(
    rt: &R,
    db: &Db,
    line: &Line,
    kept: &mut Option<SessionState>,
    transcript: &mut Transcript,
) -> Result<bool, AllocError>
    requires here { IsSome kept.old }
    requires own { IsOf db.now (caller_in kept.old) }
    requires stands { (state : SessionState) → kept.old ≡ Some state → Stands state.open }
    requires holds { (state : SessionState) → kept.old ≡ Some state
        → Holds (caller_of state.open) state.watching }
    requires room { transcript.old.commits + 1 < 2 ^ 64 }
    ensures { StepsKept db.now.callers line.now kept.old kept.new transcript.old transcript.new
        result }
{
    let state = take_state(kept);
    let (state, told) = step_line(rt, db, line, state, transcript);
    put_state(kept, state);
    told
}

/// The line at a place of a script.
fn line_at(script: &Script, at: usize) -> &Line
    requires { at < length script.now }
    ensures { slice_get script.now at ≡ Some result.now }
{
    let Some(line) = script.get(at) else {
        unreachable!();
    };
    line
}
