//! Whole sessions, and that a session is run once.
use super::{Solo, Told, answers_of, opened_of};
use crate::worked::{Worked, sessions_of_one};
use std::alloc::Global;
use std::sync::Wait;
use std::test::Fail;

/// Whether a worked session is answered so.
fn is_answered<R: Wait>(rt: &R, alloc: Global, worked: Worked) -> Told {
    let answers = answers_of(alloc, worked)?;
    let (mut solo, _length) = opened_of(alloc, worked)?;
    let told = solo.tells(rt, &answers);
    solo.close(rt);
    told
}

/// Fails with the place of the first that is answered otherwise.
fn all_answered<R: Wait>(rt: &R, alloc: Global, sessions: &[Worked]) -> Result<(), Fail> {
    for at in 0..sessions.len() {
        if !is_answered(rt, alloc, sessions[at])? {
            return Err(Fail::from(at));
        }
    }
    Ok(())
}

#[test]
fn worked_sessions_are_answered(rt: HostRuntime) -> Result<(), Fail> {
    all_answered(&rt, rt.alloc(), sessions_of_one())
}

const ONE_COMMIT: &str = "1: write @0\n2: commit @1\n";

/// Runs a session twice, and tells whether the text of its answers is this each time.
fn tells_twice<R: Wait>(rt: &R, solo: &mut Solo, answers: &str) -> Told {
    Ok(solo.tells(rt, answers)? & solo.tells(rt, answers)?)
}

/// Whether a second run of a session adds no answer and no commit.
fn is_run_once<R: Wait>(rt: &R, alloc: Global) -> Told {
    let mut solo = Solo::opened(alloc, "write\ncommit\n")?;
    let told = tells_twice(rt, &mut solo, ONE_COMMIT);
    let commits = solo.close(rt);
    Ok(told? && commits == 1)
}

#[test]
fn a_second_run_changes_nothing(rt: HostRuntime) -> Result<(), Fail> {
    assert!(rt; is_run_once(&rt, rt.alloc())?);
    Ok(())
}
