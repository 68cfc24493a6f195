//! That a text can be written whole, and in how many calls.
use crate::worked::sink_with;
use mdb_ports::MemSink;
use run_io::write_all;
use std::alloc::{AllocError, Global};
use std::test::Fail;

/// A text, the sink's room, the call that fails, and how many bytes the sink then holds.
type Case = (&'static str, usize, u64, usize);

static CASES: [Case; 9] = [
    ("", 0, 1, 0),
    ("abc", 99, 0, 3),
    ("abcdefg", 7, 2, 7),
    ("abcdefghijklmnopqrst", 99, 0, 20),
    ("abcdefghijklmnopqrst", 99, 1, 0),
    ("abcdefghijklmnopqrst", 99, 2, 7),
    ("abcdefghijklmnopqrst", 99, 3, 14),
    ("abcdefghijklmnopqrst", 99, 4, 20),
    ("abcdefghijklmnopqrst", 10, 0, 10),
];

/// Whether a sink takes so many bytes of a text, and all only after success.
fn takes(sink: &mut MemSink, text: &[u8], held: usize) -> bool {
    let whole = write_all(sink, text).is_ok();
    whole == (held == text.len()) && Some(sink.bytes()) == text.get(..held)
}

/// Whether that is so of the case's.
fn holds(alloc: Global, case: &Case) -> Result<bool, AllocError> {
    let mut sink = sink_with(alloc, case.1, case.2)?;
    Ok(takes(&mut sink, case.0.as_bytes(), case.3))
}

#[test]
fn a_sink_holds_the_front_of_a_text(rt: HostRuntime) -> Result<(), Fail> {
    for at in 0..CASES.len() {
        assert!(rt; holds(rt.alloc(), &CASES[at])?, "{at}");
    }
    Ok(())
}
