//! An answer with what watches it.
ghost use Rattle.std.specs.Prelude.{◌≡◌};

use mdb_encode::Key;
use mdb_schema::Answer;
use std::marker::Model;
use watch_word::Watch;

/// The answer to a question, and where it was looked up.
#[derive(Drop)]
pub struct Watched {
    pub answer: Answer,
    pub spot: Spot,
}

/// Where a question was looked up, and the watch of its answer.
#[derive(Drop)]
pub struct Spot {
    pub(crate) index: u32,
    pub(crate) key: Option<Key>,
    pub(crate) exact: bool,
    pub(crate) watch: Watch,
}

impl Model for Spot {
    ghost use Rattle.table_index.specs.Spot.{SpotOf};

    ghost Value = { SpotOf };

    ghost use Rattle.table_index.specs.inner.Views.{spot_view};

    ghost view = { spot_view };
}

impl Spot {
    /// The place of the question's index in the table, counted from 0.
    pub fn index(&self) -> u32
        ensures { result ≡ self.now.index }
    {
        self.index
    }

    /// The question's key, empty where it has no argument.
    pub fn key(&self) -> &[u8]
        ensures { result.now ≡ self.now.key }
    {
        match &self.key {
            Some(key) => key.bytes(),
            None => &[],
        }
    }

    /// Whether the entry of that very key was looked up, and not those whose keys begin with it.
    pub fn exact(&self) -> bool
        ensures { result ≡ self.now.exact }
    {
        self.exact
    }

    /// The watch.
    pub fn watch(&self) -> &Watch
        ensures { result.now ≡ self.now.watch }
    {
        &self.watch
    }
}
