//! What an output tells by itself, whatever the schema is.
use super::clients::{scripts_of, words_of};
use super::{Near, with_line};
use crate::worked::{Session, Worked, joined};
use run_check::{Stop, read_output};
use std::alloc::{AllocError, Global};
use std::test::Fail;

/// The count of the commits that a text prints, or its first line that fails one of three tests.
fn told_in(alloc: Global, session: &Session, out: &[u8]) -> Result<Result<usize, u32>, AllocError> {
    let words = words_of(alloc, session.clients)?;
    let scripts = scripts_of(alloc, session.clients)?;
    // As the call asks.
    if words.len() != scripts.len() || scripts.len() > 64 || out.len() > 1 << 24 {
        return Err(AllocError);
    }
    match read_output(alloc, &words, &scripts, out) {
        Ok(output) => Ok(Ok(output.commit_count())),
        Err(Stop::Bad { line }) => Ok(Err(line)),
        Err(Stop::Memory) => Err(AllocError),
    }
}

/// Whether a near output first fails one of three tests at the line that it names.
fn fails_there(alloc: Global, failing: &Near) -> Result<bool, AllocError> {
    let session = failing.0.session();
    let out = with_line(alloc, session, failing.1, failing.2)?;
    Ok(told_in(alloc, session, &out)? == Err(failing.3))
}

/// The place of the first of which another line fails, if there is one.
fn first_other(alloc: Global, failing: &[Near]) -> Result<Option<usize>, AllocError> {
    for at in 0..failing.len() {
        if !fails_there(alloc, &failing[at])? {
            return Ok(Some(at));
        }
    }
    Ok(None)
}

/// Whether the output of a session prints so many commits.
fn has_commits(alloc: Global, worked: Worked, count: usize) -> Result<bool, AllocError> {
    let session = worked.session();
    let out = joined(alloc, session.output)?;
    Ok(told_in(alloc, session, out.as_bytes())? == Ok(count))
}

#[test]
fn commits_are_counted(rt: HostRuntime) -> Result<(), Fail> {
    assert!(rt; has_commits(rt.alloc(), Worked::WriteAndRead, 1)?);
    assert!(rt; has_commits(rt.alloc(), Worked::BothWrite, 2)?);
    Ok(())
}

static FAILING: [Near; 6] = [
    (Worked::WriteAndRead, 1, "client 2 c1", 1),
    (Worked::WriteAndRead, 3, "2: deleted", 3),
    (Worked::WriteAndRead, 7, "6: none\n  {}", 8),
    (Worked::BothWrite, 8, "3: commit @3", 8),
    (Worked::BothWrite, 8, "3: commit @1", 8),
    (Worked::BothWrite, 6, "1: write @0", 8),
];

#[test]
fn shape_numbers_and_bases_are_told(rt: HostRuntime) -> Result<(), Fail> {
    assert!(rt; first_other(rt.alloc(), &FAILING)?.is_none());
    Ok(())
}

/// Whether the output prints one commit, with a text in the place of a line.
fn passes(alloc: Global, place: usize, text: &str) -> Result<bool, AllocError> {
    let session = Worked::WriteAndRead.session();
    let out = with_line(alloc, session, place, text)?;
    Ok(told_in(alloc, session, &out)? == Ok(1))
}

/// A row that was never written, and a commit that its client couldn't read, fail no test yet.
#[test]
fn answers_are_not_looked_at(rt: HostRuntime) -> Result<(), Fail> {
    assert!(rt; passes(rt.alloc(), 6, "5: row {\"age\":4}")?);
    assert!(rt; passes(rt.alloc(), 5, "4: read @0")?);
    Ok(())
}
