//! Sessions that are carried out step by step.
use super::{Solo, Told, answers_of, opened_of};
use crate::worked::{Worked, sessions_of_one};
use client_session::Stepped;
use mdb_ports::OpenGate;
use std::alloc::{AllocError, Global};
use std::sync::Wait;
use std::test::Fail;

/// Takes steps till no line is left, at most so many, and tells whether the text is this then.
fn tells_by_steps<R: Wait>(rt: &R, solo: &mut Solo, steps: usize, answers: &str) -> Told {
    for _ in 0..steps {
        if solo.step(rt)? == Stepped::Ended {
            return Ok(solo.has_told(answers));
        }
    }
    Ok(false)
}

/// Whether a worked session is answered so, step by step.
fn is_answered_by_steps<R: Wait>(rt: &R, alloc: Global, worked: Worked) -> Told {
    let answers = answers_of(alloc, worked)?;
    let (mut solo, length) = opened_of(alloc, worked)?;
    let told = tells_by_steps(rt, &mut solo, length.saturating_add(1), &answers);
    solo.close(rt);
    told
}

/// Fails with the place of the first that is answered otherwise.
fn all_answered_by_steps<R: Wait>(rt: &R, alloc: Global, sessions: &[Worked]) -> Result<(), Fail> {
    for at in 0..sessions.len() {
        if !is_answered_by_steps(rt, alloc, sessions[at])? {
            return Err(Fail::from(at));
        }
    }
    Ok(())
}

#[test]
fn worked_sessions_are_answered_by_steps(rt: HostRuntime) -> Result<(), Fail> {
    all_answered_by_steps(&rt, rt.alloc(), sessions_of_one())
}

/// Takes a step, and then runs the rest.
fn tells_after_a_step<R: Wait>(rt: &R, solo: &mut Solo, answers: &str) -> Told {
    let first = solo.step(rt)?;
    Ok(first == Stepped::Answered { line: 1 } && solo.tells(rt, answers)?)
}

/// Whether the rest of a session is run after a step.
fn runs_the_rest<R: Wait>(rt: &R, alloc: Global) -> Told {
    let mut solo = Solo::opened(alloc, "write\ncommit\nread\n")?;
    let told = tells_after_a_step(rt, &mut solo, "1: write @0\n2: commit @1\n3: read @1\n");
    let commits = solo.close(rt);
    Ok(told? && commits == 1)
}

#[test]
fn a_run_carries_out_what_steps_have_left(rt: HostRuntime) -> Result<(), Fail> {
    assert!(rt; runs_the_rest(&rt, rt.alloc())?);
    Ok(())
}

/// A session that waits at its seventh line for two watches, or till one of them cancels the wait.
const WAITING: &str = "\
read
watch w get users id
watch v get users age
end
add s w
add s v
wait s until w
";

/// Whether it waits for nothing before, and for these once a step was blocked there.
fn tells_what_it_waits_for<R: Wait>(rt: &R, solo: &mut Solo) -> Told {
    for line in 1..7 {
        if solo.awaited().is_some() || solo.step(rt)? != (Stepped::Answered { line }) {
            return Ok(false);
        }
    }
    Ok(solo.step(rt)? == Stepped::Blocked { line: 7 } && solo.awaited() == Some((2, true)))
}

/// Whether a session tells what it waits for.
fn waits_are_told<R: Wait>(rt: &R, alloc: Global) -> Told {
    let mut solo = Solo::opened(alloc, WAITING)?;
    let told = tells_what_it_waits_for(rt, &mut solo);
    solo.close(rt);
    told
}

/// Whether a wait within a write transaction, which is refused, waits for nothing.
fn refused_wait_is_none<R: Wait>(rt: &R, alloc: Global) -> Told {
    let mut solo = Solo::opened(alloc, "write\nwait s\n")?;
    let begun = solo.step(rt);
    let awaited = solo.awaited();
    solo.close(rt);
    Ok(begun? == Stepped::Answered { line: 1 } && awaited.is_none())
}

#[test]
fn a_session_tells_what_it_waits_for(rt: HostRuntime) -> Result<(), Fail> {
    assert!(rt; waits_are_told(&rt, rt.alloc())?);
    assert!(rt; refused_wait_is_none(&rt, rt.alloc())?);
    Ok(())
}

/// Three commits are asked for, and the last has no transaction.
const TWO_COMMITS: &str = "write\ncommit\nwrite\nabort\nwrite\ncommit\ncommit\n";

/// How many commits the answers to a script tell, where it is carried out.
fn commits_told<R: Wait>(rt: &R, alloc: Global, script: &str) -> Result<u64, AllocError> {
    let mut solo = Solo::opened(alloc, script)?;
    let ran = solo.session.run(rt, &solo.db, &OpenGate);
    let commits = solo.session.commits();
    solo.close(rt);
    ran?;
    Ok(commits)
}

#[test]
fn a_session_counts_the_commits_that_it_tells(rt: HostRuntime) -> Result<(), Fail> {
    assert!(rt; commits_told(&rt, rt.alloc(), TWO_COMMITS)? == 2);
    assert!(rt; commits_told(&rt, rt.alloc(), "read\n")? == 0);
    Ok(())
}
