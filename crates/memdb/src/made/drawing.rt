//! Numbers that are drawn one from the other.
ghost use Rattle.std.specs.Prelude.{◌≡◌, ◌≤◌};
ghost use Rattle.memdb.specs.Made.{drawn};

use std::marker::Model;

/// What was drawn last, seen as that number. The next one follows from it.
#[derive(Drop)]
pub(crate) struct Drawing {
    last: u32,
}

impl Model for Drawing {
    ghost use Rattle.std.specs.Prelude.{◌≤◌, ℕ};

    ghost Value = { ℕ };

    ghost view = { λ d. d.last };

    ghost invariant = { λ d. d.last ≤ 65536 };
}

impl Drawing {
    /// A drawing that begins from a number.
    pub(crate) fn new(number: u32) -> Drawing
        requires { number ≤ 65536 }
        ensures { result ≡ number }
    {
        Drawing { last: number }
    }

    /// The next number.
    pub(crate) fn next(&mut self) -> u32
        ensures result { result ≡ drawn self.old 1 }
        ensures last { self.new ≡ result }
    {
        self.last = (75 * self.last + 74) % 65537;
        self.last
    }
}
