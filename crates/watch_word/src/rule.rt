//! The rule of the book, and what each step tells.
ghost use Rattle.std.specs.Prelude.{◌≡◌, None};
ghost use Rattle.watch_word.specs.declared.event.Event.TheVariants.{Home};

use crate::event::Event;
use logbook::{Gain, Offer, Plain, Play, Rule, Seen, Word};

/// The rule of a book.
pub(crate) struct Law;

impl Rule<Event, u64> for Law {
    ghost use Rattle.std.specs.Prelude.{[]};
    ghost use base.Fml.{ftrue};
    ghost use Rattle.watch_word.specs.inner.Rule.{KeepsRule};

    ghost holds = { λ cells log. KeepsRule cells log };

    ghost first = { [] };

    ghost hinted = { λ n log. Unit {0} };

    ghost shows = { λ log. [] };

    ghost keeps = { λ names log. ftrue };

    ghost moves = { λ ask before after answer. Unit {0} };
}

/// Callers trade nothing with the book.
pub(crate) struct Nothing;

impl Gain<Event, u64> for Nothing {
    ghost use base.Fml.{ftrue};

    ghost after = { λ names about answer. ftrue };
}

/// A step that adds a cell.
pub(crate) struct Add;

impl Play<Event, u64> for Add {
    ghost use Rattle.watch_word.specs.inner.Rule.{Adds};

    ghost then = { Adds };
}

/// A step that brings a cell home.
pub(crate) struct ComeHome;

impl Play<Event, u64> for ComeHome {
    ghost use Rattle.watch_word.specs.inner.Rule.{ComesHome};

    ghost then = { ComesHome };
}

/// A step that fires a cell.
pub(crate) struct Fire;

impl Play<Event, u64> for Fire {
    ghost use Rattle.watch_word.specs.inner.Rule.{Fires};

    ghost then = { Fires };
}

/// A step that looks whether a cell has fired.
pub(crate) struct Look;

impl Play<Event, u64> for Look {
    ghost use Rattle.watch_word.specs.inner.Rule.{Sees};

    ghost then = { Sees };
}

/// What a step asks for: the id of the cell that it brings home, if it does.
impl Plain<u64, Event, u64> for Look {
    ghost use Rattle.std.specs.Prelude.{None};
    ghost use Rattle.watch_word.specs.declared.event.Event.TheVariants.{Home};

    ghost ask = { λ id. Home 0 id };

    ghost state = { λ id. None };
}

/// A beginning of the log that was seen.
pub(crate) type SeenLog = Seen<Event, u64, Law>;

/// A word that the book tracks.
pub(crate) type BookWord = Word<Event, u64, Law>;

/// An update that asks for nothing, which a step wants beside it.
pub(crate) type Still = Offer<Event, u64, Law, Nothing>;

/// An update for steps on this log, one of which may bring home the cell of this id.
pub(crate) fn still(seen: &SeenLog, id: u64) -> Still
    ensures { (result.names ≡ seen.now.names) × (result.state ≡ None) × (result.ask ≡ Home 0 id) }
{
    seen.plain::<Nothing, u64, Look>(&id)
}
