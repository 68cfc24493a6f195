//! Lists of notes.
ghost use Rattle.std.specs.Prelude.{◌≡◌, []};
ghost use Rattle.watch_future.specs.Cells.{AreOfBook, has_any};
ghost use Rattle.watch_word.specs.Logs.{IsLater};

use crate::noting::Notes;
use std::alloc::{AllocError, Global};
use std::marker::Model;
use watch_word::{Front, Moved, Watch};

/// Watches that were noted, seen as the list of their cells. A program with a loop of its own keeps
/// one, and polls again once any of them has moved.
#[derive(Drop)]
pub struct NoteList {
    watches: Vec<Watch>,
}

impl Model for NoteList {
    ghost use Rattle.std.specs.Prelude.{List};
    ghost use Rattle.watch_word.specs.Logs.{Cell};

    ghost Value = { List Cell };

    ghost view = { λ l. l.watches.items };
}

impl Notes for NoteList {
    ghost use Rattle.std.specs.Prelude.{Some};

    ghost noted = { λ l. Some l };

    fn note(&mut self, watch: &Watch) -> Result<(), AllocError> {
        self.watches.push(watch.share()?)?;
        Ok(())
    }
}

impl NoteList {
    /// An empty list. It takes no memory.
    pub fn new(alloc: Global) -> NoteList
        ensures { result ≡ [] }
    {
        NoteList {
            watches: Vec::new(alloc),
        }
    }

    /// Empties the list, and keeps its memory for the notes of the next poll.
    pub fn clear(&mut self)
        ensures { self.new ≡ [] }
    {
        self.watches.clear();
    }

    /// Looks whether a cell of the list has fired, which is so exactly where the front given back
    /// has one. It takes no memory and waits for nobody.
    pub fn any_moved(&self, front: &Front) -> Moved
        requires { AreOfBook front.now.book self.now }
        ensures later { IsLater front.now result.front }
        ensures fired { result.fired ≡ has_any self.now result.front }
    {
        for watch in &self.watches {
            // Each looks from the front given: what a later look has seen may have an earlier cell.
            let moved = watch.moved(front);
            if moved.fired {
                return moved;
            }
        }
        Moved {
            fired: false,
            front: front.share(),
        }
    }
}
