//! Files, as a trait.
ghost use Rattle.std.specs.Prelude.{◌≡◌, ◌<◌, ◌≤◌, ℕ, Bool, Option, length, IfOk, OnErr};
ghost use Rattle.mdb_ports.specs.Files.{Contents, Fetches, IsAbsentIfReliable};
ghost use Rattle.mdb_ports.specs.Faults.{HasCause};

use crate::Failed;

/// Files that are read by their names.
pub trait Files {
    /// The files that the object tells, or `None` where it tells none. They never change.
    ghost told: { Self → Option Contents };

    /// How many calls have failed, up to the end of a `u64`.
    ghost faults: { Self → ℕ };

    /// Whether only a file that isn't there fails.
    ghost reliable: { Self → Bool };

    /// Reads bytes of the file of this name from the offset `at` on, in bytes, into the front of
    /// `into`, and gives how many. `Ok(0)` means that `at` is at or past the file's end. A file
    /// that isn't there is `Failed`.
    fn fetch(&mut self, name: &str, at: u64, into: &mut [u8]) -> Result<usize, Failed>
        requires { 0 < length into.old }
        ensures same_files { told self.new ≡ told self.old }
        ensures bound { IfOk result (λ n. n ≤ length into.old) }
        ensures bytes { Fetches (told self.old) name.now at into.new result }
        ensures cause { HasCause (faults self.old) (faults self.new) result }
        ensures stays { reliable self.new ≡ reliable self.old }
        ensures absent { OnErr result
            (IsAbsentIfReliable (reliable self.old) (told self.old) name.now) };
}
