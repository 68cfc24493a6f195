//! A script carried out line by line.
ghost use Rattle.std.specs.Prelude.{◌≡◌, ◌≤◌, ◌<◌, ◌+◌, ◌^◌, MatchResult, OnErr, OnOk, false, length};
ghost use Rattle.mem_txn.specs.Database.{IsOf};
ghost use Rattle.client_session.specs.Answered.{IsLater};
ghost use Rattle.client_session.specs.inner.Added.{AddsReply, IsAdded};
ghost use Rattle.client_session.specs.inner.Carried.{AddsSome, AnswersLine, CarriedOn, CarriesOut};
ghost use Rattle.client_session.specs.inner.Carried.{SoFar, StepsLine, Stops, StopsLine};
ghost use Rattle.client_session.specs.inner.OpenView.{caller_of, is_writing, Stands};
ghost use Rattle.client_session.specs.inner.WatchingView.{Holds};

use crate::reply::Reply;
use crate::session_state::SessionState;
use crate::transcript::Transcript;
use client_script::{Line, Script};
use mdb_ports::Gate;
use mdb_schema::Schema;
use mem_txn::Db;
use std::alloc::AllocError;
use std::sync::Wait;

/// Carries out a script from a place on, and adds its answers. It gives the session's state, with
/// nothing open, and how many lines are answered then. After `AllocError` these are some first
/// lines.
pub(crate) fn carry_out<R: Wait, G: Gate>(
    rt: &R,
    db: &Db,
    gate: &G,
    client: u32,
    script: &Script,
    from: usize,
    state: SessionState,
    transcript: &mut Transcript,
) -> (SessionState, usize, Result<(), AllocError>)
    requires own { IsOf db.now (caller_of state.open) }
    requires place { from ≤ length script.now }
    requires so_far { SoFar script.now from state transcript.old }
    ensures told { AddsSome (caller_of state.open) (caller_of result.0.open) script.now from
        result.1 transcript.old transcript.new }
    ensures answered { OnOk result.2 (CarriesOut (caller_of state.open) (caller_of result.0.open)
        script.now from result.1 transcript.old transcript.new) }
    ensures stopped { OnErr result.2 (Stops (caller_of state.open) (caller_of result.0.open)
        script.now from result.1 transcript.old transcript.new) }
    ensures all { OnOk result.2 (result.1 ≡ length script.now) }
    ensures place { result.1 ≤ length script.now }
    ensures closed { is_writing result.0.open ≡ false }
{
    let alloc = transcript.allocator();
    let (state, answered, told) = answer_lines(
        rt, db, gate, client, script, from, state, transcript,
    );
    (state.closed(alloc, db), answered, told)
}

/// Carries out each line from a place on, and adds its answer, till one finds no memory. It gives
/// what is there then, and how many lines are answered.
fn answer_lines<R: Wait, G: Gate>(
    rt: &R,
    db: &Db,
    gate: &G,
    client: u32,
    script: &Script,
    from: usize,
    state: SessionState,
    transcript: &mut Transcript,
) -> (SessionState, usize, Result<(), AllocError>)
    requires own { IsOf db.now (caller_of state.open) }
    requires place { from ≤ length script.now }
    requires so_far { SoFar script.now from state transcript.old }
    ensures told { AddsSome (caller_of state.open) (caller_of result.0.open) script.now from
        result.1 transcript.old transcript.new }
    ensures answered { OnOk result.2 (CarriedOn (caller_of state.open) script.now from result.1
        transcript.old result.0 transcript.new) }
    ensures stopped { OnErr result.2 (Stops (caller_of state.open) (caller_of result.0.open)
        script.now from result.1 transcript.old transcript.new) }
    ensures all { OnOk result.2 (result.1 ≡ length script.now) }
    ensures place { result.1 ≤ length script.now }
{
    let mut state = state;
    for at in from..script.len() {
        let Some(line) = script.get(at) else {
            unreachable!();
        };
        let (next, told) = answer_line(rt, db, gate, client, line, state, transcript);
        state = next;
        if told.is_err() {
            return (state, at, told);
        }
    }
    (state, script.len(), Ok(()))
}

/// Carries out a line, and adds its answer. After `AllocError` the answers are as before.
fn answer_line<R: Wait, G: Gate>(
    rt: &R,
    db: &Db,
    gate: &G,
    client: u32,
    line: &Line,
    state: SessionState,
    transcript: &mut Transcript,
) -> (SessionState, Result<(), AllocError>)
    requires own { IsOf db.now (caller_of state.open) }
    requires stands { Stands state.open }
    requires holds { Holds (caller_of state.open) state.watching }
    requires room { transcript.old.commits + 1 < 2 ^ 64 }
    ensures answered { OnOk result.1
        (AnswersLine line.now state result.0 transcript.old transcript.new) }
    ensures kept { OnErr result.1 (transcript.new ≡ transcript.old) }
    ensures stopped { OnErr result.1 (StopsLine line.now state (caller_of result.0.open)) }
    ensures caller { IsLater (caller_of state.open) (caller_of result.0.open) }
{
    let alloc = transcript.allocator();
    gate.before(client, line.number);
    let (state, told) = state.turn(rt, alloc, db, &line.command);
    let added = add_reply(db.schema(), line.number, told, transcript);
    if added.is_ok() {
        gate.after(client, line.number);
    }
    (state, added)
}

/// Adds the reply to a line, where its turn gave one. After `AllocError` the answers are as before.
fn add_reply(
    schema: &Schema,
    line: u32,
    told: Result<Reply, AllocError>,
    transcript: &mut Transcript,
) -> Result<(), AllocError>
    requires room { transcript.old.commits + 1 < 2 ^ 64 }
    ensures added { OnOk result (MatchResult told
        (λ reply. AddsReply schema.now line reply transcript.old transcript.new) (λ error. ⊥)) }
    ensures kept { OnErr result (transcript.new ≡ transcript.old) }
{
    match told {
        Ok(reply) => transcript.add(schema, line, &reply),
        Err(error) => Err(error),
    }
}

/// Carries out a line, with one try alone at `write` and one look alone at a wait, and adds its
/// answer. It gives whether there is one. After `AllocError` nothing is open, and the answers
/// are as before.
pub(crate) fn step_line<R: Wait>(
    rt: &R,
    db: &Db,
    line: &Line,
    state: SessionState,
    transcript: &mut Transcript,
) -> (SessionState, Result<bool, AllocError>)
    requires own { IsOf db.now (caller_of state.open) }
    requires stands { Stands state.open }
    requires holds { Holds (caller_of state.open) state.watching }
    requires room { transcript.old.commits + 1 < 2 ^ 64 }
    ensures answered { OnOk result.1 (StepsLine db.now.callers line.now state result.0
        transcript.old transcript.new result.1) }
    ensures kept { OnErr result.1 (transcript.new ≡ transcript.old) }
    ensures stopped { OnErr result.1 (StopsLine line.now state (caller_of result.0.open)) }
    ensures closed { OnErr result.1 (is_writing result.0.open ≡ false) }
    ensures caller { IsLater (caller_of state.open) (caller_of result.0.open) }
{
    let alloc = transcript.allocator();
    let (state, told) = state.step(rt, alloc, db, &line.command);
    let added = add_step(db.schema(), line.number, told, transcript);
    match added {
        Ok(answered) => (state, Ok(answered)),
        Err(error) => (state.closed(alloc, db), Err(error)),
    }
}

/// Adds the reply to a line, where its step gave one, and tells whether it did. After `AllocError`
/// the answers are as before.
fn add_step(
    schema: &Schema,
    line: u32,
    told: Result<Option<Reply>, AllocError>,
    transcript: &mut Transcript,
) -> Result<bool, AllocError>
    requires room { transcript.old.commits + 1 < 2 ^ 64 }
    ensures { IsAdded schema.now line told transcript.old transcript.new result }
{
    match told.transpose() {
        Some(reply) => add_reply(schema, line, reply, transcript).map(|_| true),
        None => Ok(false),
    }
}
