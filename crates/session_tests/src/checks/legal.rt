//! Outputs that are legal: worked sessions.
use super::checked;
use crate::worked::{Worked, joined, sessions_of_one};
use run_check::Verdict;
use std::alloc::{AllocError, Global};
use std::test::Fail;

/// Whether the output of a session is legal.
fn is_legal(alloc: Global, worked: Worked) -> Result<bool, AllocError> {
    let session = worked.session();
    let out = joined(alloc, session.output)?;
    Ok(checked(alloc, session, out.as_bytes())? == Verdict::Legal)
}

/// Fails with the place of the first session whose output isn't.
fn all_legal(alloc: Global, sessions: &[Worked]) -> Result<(), Fail> {
    for at in 0..sessions.len() {
        if !is_legal(alloc, sessions[at])? {
            return Err(Fail::from(at));
        }
    }
    Ok(())
}

#[test]
fn worked_outputs_are_legal(rt: HostRuntime) -> Result<(), Fail> {
    all_legal(rt.alloc(), sessions_of_one())
}

#[test]
fn outputs_of_two_clients_are_legal(rt: HostRuntime) -> Result<(), Fail> {
    all_legal(rt.alloc(), &[Worked::BothWrite, Worked::Parked])
}
