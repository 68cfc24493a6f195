//! Files and sinks in memory.
use super::{fetch_first, gives};
use crate::worked::{File, files_of, listed, sink_with};
use mdb_ports::{CallList, Failed, FileList, Files, MemFiles, MemSink, Sink};
use std::alloc::{AllocError, Global};
use std::process::Abort;
use std::test::Fail;

/// Each row: a name, an offset, what a fetch of three bytes answers, and the buffer after it.
static FETCHES: &[(&str, u64, Result<usize, Failed>, &[u8; 3])] = &[
    ("a", 0, Ok(3), b"hel"),
    ("a", 1, Ok(3), b"ell"),
    ("a", 3, Ok(2), b"lo."),
    ("a", 5, Ok(0), b"..."),
    ("a", 6, Ok(0), b"..."),
    ("a", u64::MAX, Ok(0), b"..."),
    ("b", 0, Ok(0), b"..."),
    ("c", 0, Err(Failed), b"..."),
];

/// The call that fails, and what puts of ten bytes answer, seven at most a call and 20 in all.
type Puts = (u64, &'static [Result<usize, Failed>]);

/// Five puts into a sink of which one of the first four calls fails.
static PUTS: &[Puts] = &[
    (1, &[Err(Failed), Ok(7), Ok(7), Ok(6), Err(Failed)]),
    (2, &[Ok(7), Err(Failed), Ok(7), Ok(6), Err(Failed)]),
    (3, &[Ok(7), Ok(7), Err(Failed), Ok(6), Err(Failed)]),
    (4, &[Ok(7), Ok(7), Ok(6), Err(Failed), Err(Failed)]),
];

/// Two files of the name `a`, and an empty one of the name `b`.
static FILES: [File; 3] = [("a", &[("hello", 1)]), ("b", &[]), ("a", &[("later", 1)])];

/// The three files in memory, of which no call fails.
fn sound_files(alloc: Global) -> Result<MemFiles, AllocError> {
    Ok(MemFiles::of(listed(alloc, &FILES)?, CallList::new(alloc)))
}

/// Whether a fetch answers as its row says.
fn fetches(files: &mut MemFiles, row: &(&str, u64, Result<usize, Failed>, &[u8; 3])) -> bool {
    let mut into = *b"...";
    files.fetch(row.0, row.1, &mut into) == row.2 && into == *row.3
}

/// Fetches from the same files row after row, each of which is answered as it says.
fn check_fetches<R: Abort>(rt: &R, files: &mut MemFiles) {
    for row in FETCHES {
        assert!(rt; fetches(files, row), "{} from {}", row.0, row.1);
    }
}

#[test]
fn a_fetch_gives_the_bytes_from_an_offset(rt: HostRuntime) -> Result<(), Fail> {
    check_fetches(&rt, &mut sound_files(rt.alloc())?);
    Ok(())
}

/// Whether of four fetches just the call so numbered fails.
fn just_one_fails(files: &mut MemFiles, fails: u64) -> bool {
    for call in 1..=4u64 {
        if gives(files, "a", 1, b"el") == (call == fails) {
            return false;
        }
    }
    true
}

/// Whether a call fails that is chosen, and no other.
fn is_call_failing(alloc: Global, call: u64) -> Result<bool, AllocError> {
    let mut files = files_of(alloc, &FILES, call)?;
    Ok(just_one_fails(&mut files, call))
}

#[test]
fn a_chosen_call_of_files_fails(rt: HostRuntime) -> Result<(), Fail> {
    for call in 1..=4u64 {
        assert!(rt; is_call_failing(rt.alloc(), call)?, "call {call}");
    }
    Ok(())
}

#[test]
fn an_absent_file_fails(rt: HostRuntime) {
    let alloc = rt.alloc();
    let mut files = MemFiles::of(FileList::new(alloc), CallList::new(alloc));
    assert!(rt; fetch_first(&mut files, "a") == Err(Failed));
}

/// Whether puts of ten bytes answer so, and the sink then has its 20 bytes.
fn puts(sink: &mut MemSink, wants: &[Result<usize, Failed>]) -> bool {
    for want in wants {
        if sink.put(b"0123456789") != *want {
            return false;
        }
    }
    sink.bytes() == b"01234560123456012345".as_slice()
}

/// Whether a sink of which this call fails answers the puts so.
fn is_put_so(alloc: Global, row: &Puts) -> Result<bool, AllocError> {
    let mut sink = sink_with(alloc, 20, row.0)?;
    Ok(puts(&mut sink, row.1))
}

/// How many rows are answered as they say before the first that isn't.
fn count_put_so(alloc: Global, rows: &[Puts]) -> Result<usize, AllocError> {
    for at in 0..rows.len() {
        if !is_put_so(alloc, &rows[at])? {
            return Ok(at);
        }
    }
    Ok(rows.len())
}

#[test]
fn a_chosen_call_of_a_sink_fails_and_a_full_one_takes_nothing(rt: HostRuntime) -> Result<(), Fail> {
    let count = count_put_so(rt.alloc(), PUTS)?;
    assert!(rt; count == PUTS.len(), "after {count}");
    Ok(())
}
