//! Checks of held watches.
ghost use Rattle.std.specs.Prelude.{◌≡◌, IfNone, IfOk, IfSome, length};
ghost use Rattle.mem_txn.specs.Checked.{AnswersCheck, HasHeard, Hears, IsHeldBy, IsLate, IsLookAt};
ghost use Rattle.mem_txn.specs.Checked.{number_of};
ghost use Rattle.mem_txn.specs.Database.{HasSeen, IsOf, reading_of};
ghost use Rattle.mem_txn.specs.inner.Looks.{Finds};
ghost use Rattle.mem_txn.specs.AskedSpots.{IsAsked};

use crate::db::Db;
use crate::held::Held;
use crate::look::Look;
use crate::pass::Pass;
use crate::read_txn::ReadTxn;
use crate::view::View;
use std::alloc::AllocError;
use std::sync::Wait;
use watch_word::Moved;

impl Db {
    /// Looks whether a watch's cell has fired, after all commits that there are, which the pass
    /// then has seen: it reads the state, and checks the watch there by [`ReadTxn::check`]. Where a
    /// commit that wasn't shown yet has fired the cell, the call reads again.
    ///
    /// It takes no memory. `AllocError` comes where the state can't get one more owner, and the
    /// pass may have seen more by then.
    pub fn check<R: Wait>(&self, rt: &R, pass: &mut Pass, held: &Held) -> Result<Look, AllocError>
        requires own { IsOf self.now pass.old }
        requires held { IsHeldBy pass.old held.now }
        ensures look { IfOk result (λ l. AnswersCheck pass.old pass.new held.now l) }
        ensures held { IsHeldBy pass.new held.now }
        ensures seen { HasSeen pass.old pass.new }
        ensures tries { pass.new.tries ≡ pass.old.tries }
    {
        for _ in rt.forever() {
            let read = self.read(rt, pass)?;
            if let Some(look) = read.check(pass, held) {
                return Ok(look);
            }
        }
        unreachable!()
    }
}

impl ReadTxn {
    /// Looks whether a watch's cell has fired, in the state that was read. `Quiet` comes only where
    /// no commit up to the one before the last has fired it, nor the last where that is the
    /// caller's own. `Fired` comes only where the cell has fired and the question has another one.
    /// `None` comes only where a commit that isn't in this state yet has fired the cell: then read
    /// again. It is one load of the cell's word, takes no memory and waits for nobody.
    pub fn check(&self, pass: &mut Pass, held: &Held) -> Option<Look>
        requires read { self.now ≡ reading_of pass.old }
        requires heard { HasHeard pass.old }
        requires held { IsHeldBy pass.old held.now }
        ensures look { IfSome result
            (λ l. (number_of l ≡ length pass.new.seen) × IsLookAt pass.new held.now l) }
        ensures late { IfNone result (IsLate pass.new held.now) }
        ensures hears { Hears pass.old pass.new }
        ensures heard { HasHeard pass.new }
    {
        let Moved { fired, front } = held.watch().moved(pass.token.log());
        pass.token.keep(front);
        found_in(self.view(), fired, held)
    }
}

/// What is found of a watch in a state, where its cell has fired or hasn't.
fn found_in(view: &View, fired: bool, held: &Held) -> Option<Look>
    requires { let h = held.now in IsAsked view.now.view.schema h.query h.spot }
    ensures { Finds view.now fired held.now result }
{
    let at = view.number();
    if !fired {
        return Some(Look::Quiet { at });
    }
    let cell = view.cell_at(held.query(), held.spot());
    if cell.id() == held.id() {
        None
    } else {
        Some(Look::Fired { at })
    }
}
