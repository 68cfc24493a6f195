//! Outputs that a signal interrupts, or that take part of what is written.
ghost use Rattle.std.specs.Prelude.{◌≡◌, length};

use super::put_three;
use mdb_ports::{Failed, OutSink};
use std::cell::Cell;
use std::fmt::Display;
use std::io::{self, ErrorKind};

/// Whether a call is one of those to be interrupted, of which there is then one fewer.
pub(super) fn interrupts(left: &Cell<u32>) -> bool {
    let count = left.get();
    left.set(count.saturating_sub(1));
    count > 0
}

/// An output of which the first calls are interrupted, and the others take at most so many bytes,
/// or fail. It keeps what it took of three bytes.
#[derive(Drop)]
struct FakeOutput {
    interruptions: Cell<u32>,
    takes: Option<usize>,
    taken: Cell<[u8; 3]>,
}

impl FakeOutput {
    /// Keeps the front of three bytes, and gives how many bytes it has.
    fn keep(&self, front: &[u8]) -> usize
        ensures { result ≡ length front.now }
    {
        let mut taken = self.taken.get();
        for (at, byte) in front.iter().enumerate().take(3) {
            taken[at] = *byte;
        }
        self.taken.set(taken);
        front.len()
    }
}

impl Print for FakeOutput {
    /// Writes nothing.
    fn print<D: Display + Drop>(&self, _value: D) -> io::Result<()> {
        Ok(())
    }

    /// Writes nothing.
    fn println<D: Display + Drop>(&self, _value: D) -> io::Result<()> {
        Ok(())
    }

    /// Writes nothing.
    fn write_all(&self, _bytes: &[u8]) -> io::Result<()> {
        Ok(())
    }

    /// Takes some of the bytes, or is interrupted or fails.
    fn write_some(&self, bytes: &[u8]) -> io::Result<usize> {
        if interrupts(&self.interruptions) {
            return Err(io::Error::from(ErrorKind::Interrupted));
        }
        match self.takes {
            Some(most) => Ok(self.keep(&bytes[..bytes.len().min(most)])),
            None => Err(io::Error::from(ErrorKind::StorageFull)),
        }
    }
}

/// How many calls are interrupted, how many bytes a call takes, what a put of three bytes answers,
/// and what the output has of them then.
type Output = (u32, Option<usize>, Result<usize, Failed>, &'static [u8; 3]);

static OUTPUTS: &[Output] = &[
    (0, Some(9), Ok(3), b"abc"),
    (0, Some(2), Ok(2), b"ab."),
    (0, Some(0), Err(Failed), b"..."),
    (0, None, Err(Failed), b"..."),
    (2, Some(2), Ok(2), b"ab."),
    (2, None, Err(Failed), b"..."),
];

/// Whether a put into such an output answers so, and the output has these bytes then.
fn is_put_so(row: &Output) -> bool {
    let output = FakeOutput {
        interruptions: Cell::new(row.0),
        takes: row.1,
        taken: Cell::new(*b"..."),
    };
    let told = put_three(&mut OutSink::new(&output));
    told == row.2 && output.taken.get() == *row.3
}

#[test]
fn a_short_or_interrupted_write_is_told_as_it_was(rt: HostRuntime) {
    for row in OUTPUTS {
        assert!(rt; is_put_so(row), "{}, {:?}", row.0, row.1);
    }
}
