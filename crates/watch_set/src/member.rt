//! The members of a set.
ghost use Rattle.std.specs.Prelude.{◌≡◌, IfOk};
ghost use Rattle.std.specs.Prelude.{nat_eq};
ghost use Rattle.watch_set.specs.Members.{cell_id, has_cell};

use mdb_datum::Text;
use mem_txn::Held;
use std::alloc::{AllocError, Global};
use std::marker::Model;

/// A watch under its name.
#[derive(Drop)]
pub(crate) struct Member {
    pub(crate) name: Text,
    pub(crate) held: Held,
}

impl Model for Member {
    ghost use Rattle.watch_set.specs.Members.{Member};
    ghost use Rattle.watch_set.specs.inner.SetView.{member_code};

    ghost Value = { Member };

    ghost coded = { member_code };

    ghost view = { λ m. record { name = m.name; held = m.held } };
}

impl Member {
    /// A second owner of a watch, under a copy of a name.
    pub(crate) fn of(alloc: Global, name: &Text, held: &Held) -> Result<Member, AllocError>
        ensures { IfOk result (λ m. m ≡ record { name = name.now; held = held.now }) }
    {
        Ok(Member {
            name: Text::of(alloc, name.as_str())?,
            held: held.share()?,
        })
    }

    /// Whether it watches the cell of this watch.
    fn watches(&self, held: &Held) -> bool
        ensures { let own = self.now.held in result ≡ nat_eq (cell_id own) (cell_id held.now) }
    {
        self.held.id() == held.id()
    }
}

/// Whether one of these watches the cell of this watch.
pub(crate) fn are_watching(members: &[Member], held: &Held) -> bool
    ensures { result ≡ has_cell (cell_id held.now) members.now }
{
    for member in members {
        if member.watches(held) {
            return true;
        }
    }
    false
}
