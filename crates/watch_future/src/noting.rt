//! What takes notes of watches.
ghost use Rattle.std.specs.Prelude.{◌≡◌, ◌∷◌, [], List, Option, OnErr, OnOk, ⊤};
ghost use Rattle.watch_future.specs.Cells.{with_cells};
ghost use Rattle.watch_future.specs.Facts.{Fact};
ghost use Rattle.watch_word.specs.Logs.{Cell};

use std::alloc::AllocError;
use watch_word::Watch;

/// Takes notes of watches, for whoever is to go on once one of them has moved.
pub trait Notes {
    /// The cells noted, in order, where they are told.
    ghost noted: { Self → Option (List Cell) };

    /// What stays true of the notes, whatever is noted.
    ghost lasting: { Self → Fact → Type 0 } = { λ _ _. ⊤ };

    /// Notes a watch, after those that were noted before. `AllocError` comes for want of memory, and
    /// then the notes are as before.
    fn note(&mut self, watch: &Watch) -> Result<(), AllocError>
        ensures noted { OnOk result (noted self.new ≡ with_cells (watch.now ∷ []) (noted self.old)) }
        ensures kept { OnErr result (noted self.new ≡ noted self.old) }
        ensures lasts { (f : Fact) → lasting self.old f → lasting self.new f };
}
