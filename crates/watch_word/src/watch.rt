//! Watches of cells.
ghost use Rattle.std.specs.Prelude.{◌≡◌, IfOk};
ghost use Rattle.std.specs.Arc.{arc_value};
ghost use Rattle.watch_word.specs.Logs.{has_fired, AreDistinct, IsLater};

use crate::cell::{Moved, WatchCell, look};
use crate::front::Front;
use std::alloc::AllocError;
use std::marker::Model;
use std::sync::Arc;

/// A cell that someone watches. Contracts see it as the cell.
#[derive(Drop)]
pub struct Watch {
    cell: Arc<WatchCell>,
}

impl Model for Watch {
    ghost use Rattle.std.specs.Arc.{arc_value};
    ghost use Rattle.watch_word.specs.Logs.{Cell};

    ghost Value = { Cell };

    ghost view = { λ w. arc_value w.cell };
}

impl Watch {
    /// A watch of the cell.
    pub fn of(cell: Arc<WatchCell>) -> Watch
        ensures { result ≡ arc_value cell }
    {
        Watch { cell }
    }

    /// A second watch of the same cell. `AllocError` comes where a further owner of it is refused.
    pub fn share(&self) -> Result<Watch, AllocError>
        ensures { IfOk result (λ w. w ≡ self.now) }
    {
        let cell = Arc::try_clone(&self.cell)?;
        Ok(Watch { cell })
    }

    /// The id of the cell.
    pub fn id(&self) -> u64
        ensures { result ≡ self.now.id }
    {
        self.cell.id()
    }

    /// Says that somebody is about to sleep until the cell fires, who looks once more before.
    pub fn attend(&self) {
        self.cell.attend();
    }

    /// Looks whether the cell has fired, which is so exactly where the front given back has it. It
    /// takes no memory and waits for nobody.
    pub fn moved(&self, front: &Front) -> Moved
        requires { self.now.book ≡ front.now.book }
        ensures later { IsLater front.now result.front }
        ensures fired { result.fired ≡ has_fired self.now result.front }
        ensures once { AreDistinct result.front.fired }
    {
        look(front, &self.cell)
    }
}
