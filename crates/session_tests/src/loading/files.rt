//! How many bytes the file of an output may have, and how many calls it takes.
use crate::worked::{list, only};
use mdb_datum::Text;
use mdb_ports::{FileList, MemFiles};
use run_io::{OutputError, load_output};
use std::alloc::{AllocError, Global};
use std::test::Fail;

/// 31 bytes. No two pieces of a file that they fill are the same.
const SOME: &str = "a file is read piece by piece. ";

/// So many bytes.
fn bytes_of(alloc: Global, length: usize) -> Result<Vec<u8>, AllocError> {
    let mut bytes = SOME.as_bytes().repeat(alloc, length / 31 + 1)?;
    bytes.truncate(length);
    Ok(bytes)
}

/// The file `o` of these bytes, where a call may fail.
fn one_file(alloc: Global, bytes: &[u8], fails: u64) -> Result<MemFiles, AllocError> {
    let mut files = FileList::new(alloc);
    list(alloc, &mut files, "o", bytes)?;
    Ok(MemFiles::of(files, only(alloc, fails)?))
}

/// A word for what was loaded, beside the bytes that the file has.
fn word_of(found: &Result<Vec<u8>, OutputError>, bytes: &[u8]) -> Result<&'static str, AllocError> {
    match found {
        Ok(found) if found.as_slice() == bytes => Ok("whole"),
        Ok(_found) => Ok("other bytes"),
        Err(OutputError::Memory) => Err(AllocError),
        Err(OutputError::Read) => Ok("unread"),
        Err(OutputError::TooLarge) => Ok("too large"),
    }
}

/// A name, the length of the file `o`, the call that fails, and what the load comes to.
type Case = (&'static str, usize, u64, &'static str);

static CASES: [Case; 18] = [
    ("x", 0, 0, "unread"),
    ("o", 0, 0, "whole"),
    ("o", 1, 0, "whole"),
    ("o", 65_535, 0, "whole"),
    ("o", 65_536, 0, "whole"),
    ("o", 65_537, 0, "whole"),
    ("o", 1_048_575, 0, "whole"),
    ("o", 1_048_576, 0, "whole"),
    ("o", 1_048_640, 0, "whole"),
    ("o", 16_777_216, 0, "whole"),
    ("o", 16_777_217, 0, "too large"),
    ("o", 0, 1, "unread"),
    ("o", 65_536, 1, "unread"),
    ("o", 65_536, 2, "unread"),
    ("o", 65_536, 3, "whole"),
    ("o", 1_048_576, 17, "unread"),
    ("o", 1_048_576, 18, "whole"),
    ("o", 16_777_217, 257, "unread"),
];

/// What the load of these bytes comes to.
fn outcome(alloc: Global, bytes: &[u8], case: &Case) -> Result<&'static str, AllocError> {
    let mut files = one_file(alloc, bytes, case.2)?;
    let found = load_output(alloc, &mut files, &Text::of(alloc, case.0)?);
    word_of(&found, bytes)
}

/// Whether the load comes to what the case says.
fn comes(alloc: Global, case: &Case) -> Result<bool, AllocError> {
    let bytes = bytes_of(alloc, case.1)?;
    Ok(outcome(alloc, &bytes, case)? == case.3)
}

#[test]
fn an_output_is_read_by_pieces_up_to_its_limit(rt: HostRuntime) -> Result<(), Fail> {
    for at in 0..CASES.len() {
        assert!(rt; comes(rt.alloc(), &CASES[at])?, "{at}");
    }
    Ok(())
}
