//! A stream of the host as a sink.
ghost use Rattle.std.specs.Prelude.{◌≡◌, ◌<◌, ◌≤◌, length, take, IfOk, OnErr};
ghost use Rattle.std.specs.Io.KnownBytes.{Appends, Keeps};
ghost use Rattle.mdb_ports.specs.Faults.{HasCause};
ghost use Rattle.mdb_ports.specs.Sink.{Grows, untold};

use crate::fault::{counted, failed};
use crate::retry::write_retrying;
use crate::{Failed, Sink};
use std::io::{self, Printer, Write};
use std::marker::Model;

/// A stream that is written to, as standard output. As a sink it tells nothing of what was written;
/// its own clauses say what a stream that tells its bytes has then.
///
/// Nothing is kept back: what a call took has been given to the stream.
#[derive(Drop)]
pub struct OutSink<W: Write> {
    to: W,
    faults: u64,
}

impl<W: Write> Model for OutSink<W> {
    ghost use Rattle.mdb_ports.specs.Streams.{OutState};

    ghost Value = { OutState };

    ghost view = { λ s. record { written = W.contents s.to; faults = s.faults } };
}

impl<'a, R: Print> OutSink<Printer<'a, R>> {
    /// Standard output of this runtime, with no fault yet.
    pub fn new(rt: &'a R) -> OutSink<Printer<'a, R>>
        ensures { result.faults ≡ 0 }
    {
        OutSink {
            to: io::writer(rt),
            faults: 0,
        }
    }
}

impl<W: Write> Sink for OutSink<W> {
    ghost told = { λ _. untold };

    ghost faults = { λ s. s.faults };

    /// Writes the front of `piece` in one call of the stream, made again where a signal interrupted
    /// it. A stream that takes no byte has failed.
    fn put(&mut self, piece: &[u8]) -> Result<usize, Failed>
        requires { 0 < length piece.now }
        ensures bound { IfOk result (λ n. (1 ≤ n) × (n ≤ length piece.now)) }
        ensures grown { IfOk result (λ n. Grows untold untold (take n piece.now)) }
        ensures kept { OnErr result (untold ≡ untold) }
        ensures cause { HasCause self.old.faults self.new.faults result }

        ensures written { IfOk result
            (λ n. Appends self.old.written self.new.written (take n piece.now)) }
        ensures unwritten { OnErr result (Keeps self.old.written self.new.written) }
    {
        let outcome = failed(write_retrying(&mut self.to, piece));
        counted(outcome, &mut self.faults)
    }
}
