//! Sinks, as a trait.
ghost use Rattle.std.specs.Prelude.{◌≡◌, ◌<◌, ◌≤◌, ℕ, List, Option, length, take, IfOk, OnErr};
ghost use Rattle.mdb_ports.specs.Sink.{Grows};
ghost use Rattle.mdb_ports.specs.Faults.{HasCause};

use crate::Failed;

/// A place that bytes are written to.
pub trait Sink {
    /// The bytes written so far, or `None` where the object doesn't tell them.
    ghost told: { Self → Option (List ℕ) };

    /// How many calls have failed, up to the end of a `u64`.
    ghost faults: { Self → ℕ };

    /// Writes the front of `piece`, and gives how many bytes it took. After `Failed` it took none.
    fn put(&mut self, piece: &[u8]) -> Result<usize, Failed>
        requires { 0 < length piece.now }
        ensures bound { IfOk result (λ n. (1 ≤ n) × (n ≤ length piece.now)) }
        ensures grown { IfOk result (λ n.
            Grows (told self.old) (told self.new) (take n piece.now)) }
        ensures kept { OnErr result (told self.new ≡ told self.old) }
        ensures cause { HasCause (faults self.old) (faults self.new) result };
}
