//! Lists of passes.
ghost use Rattle.std.specs.Prelude.{◌≡◌, ◌<◌, ◌++◌, ◌∷◌, [], MatchOption, length};

use crate::pass::Pass;
use crate::version::Version;
use std::marker::Model;

/// The passes that nobody has taken, in order, seen as `Callers`. There is room for each pass of
/// the database. It can't be dropped: [`crate::Db::close`] takes it back.
pub struct Passes {
    pub(crate) list: db_front::Passes<Version>,
}

impl Model for Passes {
    ghost use Rattle.mem_txn.specs.Database.{Callers};
    ghost use Rattle.mem_txn.specs.Codes.{callers_code};

    ghost Value = { Callers };

    ghost coded = { callers_code };

    ghost use Rattle.mem_txn.specs.inner.Views.{passes_view, AreIdle};

    ghost view = { passes_view };

    ghost invariant = { AreIdle };
}

impl Passes {
    /// Takes out the first pass. It takes no memory.
    pub fn take(&mut self) -> Option<Pass>
        ensures { MatchOption result ((self.old.passes ≡ []) × (self.new ≡ self.old))
            (λ p. self.old ≡ record self.new { passes = p ∷ self.new.passes }) }
    {
        match self.list.take() {
            Some(token) => Some(Pass { token }),
            None => None,
        }
    }

    /// Adds a pass at the end. It takes no memory.
    pub fn give(&mut self, pass: Pass)
        requires room { length self.old.passes < self.old.made }
        ensures { self.new ≡ record self.old { passes = self.old.passes ++ pass ∷ [] } }
    {
        let Pass { token } = pass;
        self.list.give(token);
    }
}
