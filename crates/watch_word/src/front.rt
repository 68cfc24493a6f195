//! The log of firings, as far as it was seen.
ghost use Rattle.std.specs.Prelude.{◌≡◌};
ghost use Rattle.watch_word.specs.Logs.{IsLater};

use crate::rule::SeenLog;
use std::marker::Model;

/// A copy of the log of firings, as far as it was seen. It has no bytes. Contracts see it as its
/// book and the cells that have fired.
#[derive(Drop)]
pub struct Front {
    pub(crate) seen: SeenLog,
}

impl Model for Front {
    ghost use Rattle.watch_word.specs.Logs.{Log, AreDistinct};
    ghost use Rattle.watch_word.specs.inner.Rule.{fired_in};

    ghost Value = { Log };

    ghost view = { λ f. record { book = f.seen.book; fired = fired_in f.seen.log } };

    ghost invariant = { λ f. AreDistinct (fired_in f.seen.log) };
}

impl Front {
    /// A second copy of the same front. It takes no memory.
    pub fn share(&self) -> Front
        ensures { result ≡ self.now }
    {
        Front {
            seen: self.seen.again(),
        }
    }

    /// The further of two fronts of one log. It takes no memory.
    pub fn joined(&self, other: &Front) -> Front
        requires { other.now.book ≡ self.now.book }
        ensures later { IsLater self.now result }
        ensures latest { IsLater other.now result }
    {
        let mut seen = self.seen.again();
        seen.learn(&other.seen);
        Front { seen }
    }
}
