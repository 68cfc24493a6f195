//! The notices of a change.
ghost use Rattle.std.specs.Prelude.{◌≡◌, length, option_copied, slice_get};

use radix_txn::Notice;
use std::marker::Model;

/// One notice an index: the cells that are gone from its tree. Contracts see the list of their
/// lists.
#[derive(Drop)]
pub struct Notices {
    pub(crate) list: Vec<Notice>,
}

impl Model for Notices {
    ghost use Rattle.std.specs.Prelude.{List};
    ghost use Rattle.watch_word.specs.Logs.{Cell};

    ghost Value = { List (List Cell) };

    ghost view = { λ n. n.list.items };
}

impl Notices {
    /// How many indexes there are.
    pub fn len(&self) -> usize
        ensures { result ≡ length self.now }
    {
        self.list.len()
    }

    /// The notice of the index at a place, counted from 0, if there is such a place.
    pub fn get(&self, index: usize) -> Option<&Notice>
        ensures { option_copied result ≡ slice_get self.now index }
    {
        self.list.get(index)
    }
}
