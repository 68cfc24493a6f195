//! What each step tells its seat.

use crate::board::View;
use crate::card::Card;
use crate::version::Version;
use atomic_table::{Join, Play, Split};

/// A load of the number of commits.
pub(crate) struct Count;

impl<V: Drop> Play<Option<Card<V>>, View<V>> for Count {
    ghost use Rattle.db_front.specs.Steps.{LoadsCount};

    ghost then = { LoadsCount };
}

/// A load of the number of finished commits.
pub(crate) struct Note;

impl<V: Version> Play<Option<Card<V>>, View<V>> for Note {
    ghost use Rattle.db_front.specs.Steps.{LoadsDone};

    ghost then = { LoadsDone V.fired };
}

/// A try for the writer's turn.
pub(crate) struct Try;

impl<V: Drop> Play<Option<Card<V>>, View<V>> for Try {
    ghost use Rattle.db_front.specs.Steps.{TriesWriter};

    ghost then = { TriesWriter };
}

/// A try for a shown turn.
pub(crate) struct Take;

impl<V: Version> Play<Option<Card<V>>, View<V>> for Take {
    ghost use Rattle.db_front.specs.Steps.{TriesShown};

    ghost then = { TriesShown V.stands };
}

/// The writer's turn is given back.
pub(crate) struct Leave;

impl<V: Drop> Play<Option<Card<V>>, View<V>> for Leave {
    ghost use Rattle.db_front.specs.inner.Plays.{left};

    ghost then = { left };
}

/// A shown turn is given back, with the slot's old log.
pub(crate) struct Back;

impl<V: Drop> Play<Option<Card<V>>, View<V>> for Back {
    ghost use Rattle.db_front.specs.inner.Plays.{back};

    ghost then = { back };
}

/// A shown turn is given back, with a new log in the slot.
pub(crate) struct Renew;

impl<V: Drop> Play<Option<Card<V>>, View<V>> for Renew {
    ghost use Rattle.db_front.specs.inner.Plays.{renewed};

    ghost then = { renewed };
}

/// The commit event.
pub(crate) struct Commit;

impl<V: Drop> Play<Option<Card<V>>, View<V>> for Commit {
    ghost use Rattle.db_front.specs.inner.Plays.{committed};

    ghost then = { committed };
}

/// The last commit is finished.
pub(crate) struct Finish;

impl<V: Drop> Play<Option<Card<V>>, View<V>> for Finish {
    ghost use Rattle.db_front.specs.inner.Plays.{finished};

    ghost then = { finished };
}

/// A number goes to another seat, or comes back.
pub(crate) struct Hand;

impl<V> Split<View<V>> for Hand {
    ghost use Rattle.db_front.specs.inner.FrontRule.{fewer, handed_over};

    ghost left = { fewer };

    ghost right = { handed_over };
}

impl<V> Join<View<V>> for Hand {
    ghost use Rattle.std.specs.Prelude.{[]};
    ghost use Rattle.db_front.specs.inner.FrontRule.{joined, blank};

    ghost both = { joined };

    ghost spent = { blank 0 0 [] [] [] };
}
