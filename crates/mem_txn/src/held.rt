//! Held watches.
ghost use Rattle.std.specs.Prelude.{◌≡◌, IfOk};

use mdb_schema::Query;
use std::alloc::{AllocError, Global};
use std::marker::Model;
use std::sync::Arc;
use table_index::Spot;
use watch_word::Watch;

/// What a held watch knows.
#[derive(Drop)]
struct Watching {
    query: Query,
    spot: Spot,
    number: u64,
}

impl Model for Watching {
    ghost use Rattle.mem_txn.specs.Held.{HeldWatch};
    ghost use Rattle.mem_txn.specs.HeldCode.{held_code};

    ghost Value = { HeldWatch };

    ghost coded = { held_code };

    ghost use Rattle.mem_txn.specs.inner.HeldView.{watching_view};

    ghost view = { watching_view };
}

/// A watch with its question, the spot where that was looked up, and the number of the commit after
/// which it was asked; seen as a `HeldWatch`. It may have several owners.
#[derive(Drop)]
pub struct Held {
    watching: Arc<Watching, Global>,
}

impl Model for Held {
    ghost use Rattle.mem_txn.specs.Held.{HeldWatch};
    ghost use Rattle.mem_txn.specs.HeldCode.{held_code};

    ghost Value = { HeldWatch };

    ghost coded = { held_code };

    ghost use Rattle.mem_txn.specs.inner.HeldView.{held_view};

    ghost view = { held_view };
}

impl Held {
    /// A watch of a question that was looked up so, after so many commits.
    pub(crate) fn of(
        alloc: Global,
        query: Query,
        spot: Spot,
        number: u64,
    ) -> Result<Held, AllocError>
        ensures { IfOk result (λ h. h ≡ record { query = query; spot = spot; number = number }) }
    {
        let watching = Watching {
            query,
            spot,
            number,
        };
        Ok(Held {
            watching: Arc::new(alloc, watching)?,
        })
    }

    /// A second owner of the same watch. It takes no memory. `AllocError` comes where the kit's
    /// `Arc` refuses one more owner.
    pub fn share(&self) -> Result<Held, AllocError>
        ensures { IfOk result (λ h. h ≡ self.now) }
    {
        Ok(Held {
            watching: Arc::try_clone(&self.watching)?,
        })
    }

    /// The number of the commit after which it was asked.
    pub fn number(&self) -> u64
        ensures { result ≡ self.now.number }
    {
        self.watching.number
    }

    /// The question.
    pub fn query(&self) -> &Query
        ensures { result.now ≡ self.now.query }
    {
        &self.watching.query
    }

    /// The place of the question's index in the table, counted from 0.
    pub fn index(&self) -> u32
        ensures { let spot = self.now.spot in result ≡ spot.index }
    {
        self.watching.spot.index()
    }

    /// The id of its cell.
    pub fn id(&self) -> u64
        ensures { let spot = self.now.spot in result ≡ spot.watch.id }
    {
        self.watch().id()
    }

    /// Where the question was looked up.
    pub(crate) fn spot(&self) -> &Spot
        ensures { result.now ≡ self.now.spot }
    {
        &self.watching.spot
    }

    /// The watch.
    pub fn watch(&self) -> &Watch
        ensures { let spot = self.now.spot in result.now ≡ spot.watch }
    {
        self.watching.spot.watch()
    }
}
