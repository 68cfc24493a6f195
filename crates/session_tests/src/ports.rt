//! What no clause says: that each call can succeed, the bytes of worked examples, and the real
//! ends.
mod holds;
mod host;
mod interrupted;
mod memory;
mod pipes;

use mdb_ports::{Failed, Files, Sink};

/// Whether a fetch answers two bytes, and these.
fn gives<F: Files>(files: &mut F, name: &str, at: u64, want: &[u8; 2]) -> bool {
    let mut into = *b"..";
    files.fetch(name, at, &mut into) == Ok(2) && into == *want
}

/// What a fetch of one byte from the front answers.
fn fetch_first<F: Files>(files: &mut F, name: &str) -> Result<usize, Failed> {
    let mut byte = [0];
    files.fetch(name, 0, &mut byte)
}

/// How many of three bytes one call takes, by the trait alone.
fn put_three<S: Sink>(sink: &mut S) -> Result<usize, Failed> {
    sink.put(b"abc")
}
