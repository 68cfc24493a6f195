//! A sink in memory.
ghost use Rattle.std.specs.Prelude.{◌≡◌, ◌<◌, ◌≤◌, ◌-◌, ◌↔◌, ◌⊎◌, [], min, length, take, IsErr};
ghost use Rattle.std.specs.Prelude.{IfOk, OnErr, Some};
ghost use Rattle.mdb_ports.specs.Sink.{Grows};
ghost use Rattle.mdb_ports.specs.Faults.{HasCause};
ghost use Rattle.mdb_ports.specs.Script.{IsFailingCall};
ghost use Rattle.mdb_ports.specs.MemSink.{after_put};

use crate::{CallList, Failed, Sink};
use std::alloc::{AllocError, Global};
use std::marker::Model;

/// Bytes gathered in memory, up to a room, of which chosen calls fail. It tells its bytes.
///
/// It takes its memory when it is made, so `put` takes none. It counts its calls from 1, up to the
/// end of a `u64`, where the number of every further call stands.
#[derive(Drop)]
pub struct MemSink {
    bytes: Vec<u8>,
    room: usize,
    most: usize,
    fails: CallList,
    calls: u64,
    faults: u64,
}

impl Model for MemSink {
    ghost use Rattle.std.specs.Prelude.{◌≤◌, vec_len, vec_capacity};
    ghost use Rattle.mdb_ports.specs.MemSink.{SinkScript};

    ghost Value = { SinkScript };

    ghost view = { λ s. record {
      bytes = s.bytes.items;
      room = s.room;
      most = s.most;
      fails = s.fails;
      calls = s.calls;
      faults = s.faults;
    } };

    ghost invariant = { λ s.
        (1 ≤ s.most) × (vec_len s.bytes ≤ s.room) × (s.room ≤ vec_capacity s.bytes) };
}

impl MemSink {
    /// An empty sink with room for `room` bytes, that takes at most `most` bytes a call. The calls
    /// so numbered fail. It takes the memory for the room.
    pub fn of(
        alloc: Global,
        room: usize,
        most: usize,
        fails: CallList,
    ) -> Result<MemSink, AllocError>
        requires { 1 ≤ most }
        ensures { IfOk result (λ s. s ≡ record {
          bytes = [];
          room = room;
          most = most;
          fails = fails;
          calls = 0;
          faults = 0;
        }) }
    {
        Ok(MemSink {
            bytes: Vec::with_capacity(alloc, room)?,
            room,
            most,
            fails,
            calls: 0,
            faults: 0,
        })
    }

    /// The bytes that it took, in order.
    pub fn bytes(&self) -> &[u8]
        ensures { result.now ≡ self.now.bytes }
    {
        &self.bytes
    }
}

impl Sink for MemSink {
    ghost told = { λ s. Some s.bytes };

    ghost faults = { λ s. s.faults };

    /// Takes as many bytes as `most`, the piece and the room left allow. It fails exactly where its
    /// number is among the calls that fail, or the sink holds `room` bytes.
    fn put(&mut self, piece: &[u8]) -> Result<usize, Failed>
        requires { 0 < length piece.now }
        ensures bound { IfOk result (λ n. (1 ≤ n) × (n ≤ length piece.now)) }
        ensures grown { IfOk result (λ n.
            Grows (Some self.old.bytes) (Some self.new.bytes) (take n piece.now)) }
        ensures kept { OnErr result (Some self.new.bytes ≡ Some self.old.bytes) }
        ensures cause { HasCause self.old.faults self.new.faults result }

        ensures fails { IsErr result
            ↔ (IsFailingCall self.old.fails self.old.calls
            ⊎ (length self.old.bytes ≡ self.old.room)) }
        ensures amount { IfOk result (λ n. n ≡
            min self.old.most (min (length piece.now) (self.old.room - length self.old.bytes))) }
        ensures after { self.new ≡ after_put self.old piece.now result }
    {
        self.calls = self.calls.saturating_add(1);
        let left = self.room - self.bytes.len();
        if left > 0 && !self.fails.has(self.calls) {
            let n = self.most.min(piece.len().min(left));
            if self.bytes.extend_from_slice(&piece[..n]).is_ok() {
                return Ok(n);
            }
        }
        self.faults = self.faults.saturating_add(1);
        Err(Failed)
    }
}
