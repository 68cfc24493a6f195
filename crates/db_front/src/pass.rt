//! The token of one caller.
ghost use Rattle.std.specs.Prelude.{◌≡◌};

use crate::board::Place;
use std::marker::Model;
use watch_word::Front;

/// The token of one caller. Contracts see the caller's number, whether it has the writer's turn,
/// and the lists that it knows: the commits that it has seen, its own ones, the counts that it has
/// read and what its tries for the turn found. They see its log too.
///
/// It can't be dropped. It goes back into [`Passes`](crate::Passes), which `close` takes.
pub struct Pass<V: Drop> {
    pub(crate) place: Place<V>,
    pub(crate) number: u64,
    /// The number of commits in the list seen, where it has published.
    pub(crate) last: u64,
    /// The log as far as its caller has seen it, which the layer above keeps here.
    pub(crate) log: Front,
}

impl<V: Drop> Model for Pass<V> {
    ghost use Rattle.std.specs.Prelude.{◌≡◌, ◌+◌, [], length};
    ghost use Rattle.db_front.specs.Passes.{Known};
    ghost use Rattle.db_front.specs.inner.Seats.{IsFree, known_of};

    ghost Value = { Known V };

    ghost view = { λ p. known_of p.place p.number p.log };

    ghost invariant = { λ p. IsFree p.place p.number × (p.place.me.0.more ≡ [])
        × (p.place.me.0.stage ≡ 2 → p.last + 1 ≡ length p.place.me.0.seen) };
}

impl<V: Drop> Pass<V> {
    /// The caller's number, counted from 1.
    pub fn number(&self) -> u64
        ensures { result ≡ self.now.number }
    {
        self.number
    }

    /// The log that is kept with it. No call of a [`Shared`](crate::Shared) reads or changes it.
    pub fn log(&self) -> &Front
        ensures { result.now ≡ self.now.log }
    {
        &self.log
    }

    /// Keeps the log in place of the old one. It takes no memory.
    pub fn keep(&mut self, log: Front)
        ensures { self.new ≡ record self.old { log = log } }
    {
        self.log = log;
    }
}
