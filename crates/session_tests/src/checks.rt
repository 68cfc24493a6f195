//! Outputs that are legal, and near ones with their first bad lines.
use crate::worked::{Session, Worked, joined};
use clients::{scripts_of, words_of};
use mdb_schema::{Schema, read_schema};
use run_check::{Verdict, check_output};
use std::alloc::{AllocError, Global};

mod bytes;
mod clients;
mod histories;
mod legal;
mod outputs;
mod replies;
mod shapes;

/// A near output: that of a session, but with this text in the place of a line, and its first bad line.
type Near = (Worked, usize, &'static str, u32);

/// The schema that a text reads as. A text that can't be read counts as want of memory, which ends a
/// test.
fn schema_of(alloc: Global, text: &str) -> Result<Schema, AllocError> {
    match read_schema(alloc, text.as_bytes()) {
        Ok(schema) => Ok(schema),
        Err(_) => Err(AllocError),
    }
}

/// The verdict on a text as what the clients of a session were told. What can't be checked counts as want of
/// memory.
fn checked(alloc: Global, session: &Session, out: &[u8]) -> Result<Verdict, AllocError> {
    let schema = schema_of(alloc, session.schema)?;
    let words = words_of(alloc, session.clients)?;
    let scripts = scripts_of(alloc, session.clients)?;
    if words.len() != scripts.len()
        || scripts.len() == 0
        || scripts.len() > 64
        || out.len() > 1 << 24
    {
        return Err(AllocError);
    }
    check_output(alloc, &schema, &words, &scripts, out)
}

/// Adds a line, or another text in its place.
fn add_line(
    out: &mut Vec<u8>,
    line: &str,
    is_replaced: bool,
    text: &str,
) -> Result<(), AllocError> {
    let kept = if is_replaced { text } else { line };
    out.extend_from_slice(kept.as_bytes())?;
    out.push(b'\n')?;
    Ok(())
}

/// The output of a session with a text in the place of a line, counted from 1.
fn with_line(
    alloc: Global,
    session: &Session,
    place: usize,
    text: &str,
) -> Result<Vec<u8>, AllocError> {
    let out = joined(alloc, session.output)?;
    let mut near = Vec::new(alloc);
    for (at, line) in out.lines().enumerate() {
        add_line(&mut near, line, at + 1 == place, text)?;
    }
    Ok(near)
}

/// Whether the first bad line of a near output is the one that it names.
fn is_bad_there(alloc: Global, near: &Near) -> Result<bool, AllocError> {
    let session = near.0.session();
    let out = with_line(alloc, session, near.1, near.2)?;
    Ok(checked(alloc, session, &out)? == Verdict::Not { line: near.3 })
}

/// The place of the first near output whose first bad line is another, if there is one.
fn first_other(alloc: Global, nears: &[Near]) -> Result<Option<usize>, AllocError> {
    for at in 0..nears.len() {
        if !is_bad_there(alloc, &nears[at])? {
            return Ok(Some(at));
        }
    }
    Ok(None)
}
