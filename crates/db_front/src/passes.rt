//! A list of passes.
ghost use Rattle.std.specs.Prelude.{◌≡◌, ◌<◌, [], ◌∷◌, ◌++◌, length, IfOk, option_to_list};
ghost use Rattle.std.specs.Prelude.{slice_get};

use crate::pass::Pass;
use std::alloc::{AllocError, Global};
use std::collections::VecDeque;
use std::marker::Model;

/// A list of passes, which keeps the room that it was made with. It can't be dropped: `close` takes
/// it.
pub struct Passes<V: Drop> {
    list: VecDeque<Pass<V>>,
}

impl<V: Drop> Model for Passes<V> {
    ghost use Rattle.std.specs.VecDeque.{deque_capacity};
    ghost use Rattle.db_front.specs.Passes.{PassList};

    ghost Value = { PassList V };

    ghost view = { λ p. record { room = deque_capacity p.list; passes = p.list.items } };
}

impl<V: Drop> Passes<V> {
    /// No passes, with room for so many.
    pub(crate) fn with_room(alloc: Global, room: usize) -> Result<Passes<V>, AllocError>
        ensures { IfOk result (λ p. p ≡ record { room = room; passes = [] }) }
    {
        let list = VecDeque::with_capacity(alloc, room)?;
        Ok(Passes { list })
    }

    /// How many there are.
    pub fn len(&self) -> usize
        ensures { result ≡ length self.now.passes }
    {
        self.list.len()
    }

    /// Takes out the first pass, if there is one. It takes no memory.
    pub fn take(&mut self) -> Option<Pass<V>>
        ensures first { result ≡ slice_get self.old.passes 0 }
        ensures rest { self.old.passes ≡ option_to_list result ++ self.new.passes }
        ensures room { self.new.room ≡ self.old.room }
    {
        self.list.pop_front()
    }

    /// Adds a pass at the end, in the room of one that was taken out. It takes no memory.
    pub fn give(&mut self, pass: Pass<V>)
        requires { length self.old.passes < self.old.room }
        ensures { self.new ≡ record self.old { passes = self.old.passes ++ pass ∷ [] } }
    {
        self.list.push_back_reserved(pass);
    }

    /// Ends a list without a pass.
    pub(crate) fn end(self)
        requires { self.passes ≡ [] }
    {
        let Passes { list } = self;
        list.destroy_empty();
    }
}
