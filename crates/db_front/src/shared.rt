//! What callers share, and the calls on it.
ghost use Rattle.std.specs.Prelude.{IfOk, ◌≡◌, ◌+◌, ◌-◌, ◌<◌, ◌≤◌, ◌^◌, [], ◌∷◌, ◌++◌};
ghost use Rattle.std.specs.Prelude.{length};
ghost use Rattle.std.specs.Arc.{arc_value};
ghost use Rattle.db_front.specs.Commits.{HasFirstFirings};
ghost use Rattle.db_front.specs.Passes.{HasBegun, HasLooked, HasTried, HasTurned, HasTurnIfOk};
ghost use Rattle.db_front.specs.Passes.{IfBegun, IsFinished, IsNumber, MayBegin, TellsFinished};

use crate::board::BoardTable;
use crate::commits::{commit, end};
use crate::pass::Pass;
use crate::shown::{Ready, Shown};
use crate::turns::{Sleepers, leave_turn, see, see_begun, take_turn, try_turn};
use crate::version::{Version, copies_of};
use crate::waits::{NextCommit, Waits};
use std::alloc::{AllocError, Global};
use std::marker::Model;
use std::sync::{Arc, Wait};
use watch_word::Front;

/// The current value and the log of firings, which callers share. Contracts see which object it is
/// and how many callers it has. A pass belongs to the object that it was made with.
#[derive(Drop)]
pub struct Shared<V: Version> {
    pub(crate) alloc: Global,
    pub(crate) table: BoardTable<V>,
    pub(crate) callers: u64,
    pub(crate) sleepers: Sleepers,
    pub(crate) waits: Waits,
}

impl<V: Version> Model for Shared<V> {
    ghost use Rattle.std.specs.Prelude.{◌≡◌};
    ghost use Rattle.db_front.specs.Passes.{Group};
    ghost use Rattle.db_front.specs.inner.Seats.{IsSized};

    ghost Value = { Group };

    ghost view = { λ s. record {
      table = (s.table.shared.table_id, s.table.shared.key.1);
      callers = s.table.shared.key.1;
    } };

    ghost invariant = { λ s. IsSized s.table.shared.table_id s.table.shared.key.1
        × (s.callers ≡ s.table.shared.key.1) };
}

impl<V: Version> Shared<V> {
    /// The value after the whole list of commits that the pass now has seen, which begins with all
    /// that it had seen. It may wait while another caller commits, and for no other look.
    ///
    /// `AllocError` comes where a further owner of the value is refused. The pass may
    /// have seen more by then.
    pub fn look<R: Wait>(&self, rt: &R, pass: &mut Pass<V>) -> Result<Shown<V>, AllocError>
        requires { pass.old.table ≡ self.now.table }
        ensures pass { HasLooked pass.old pass.new }
        ensures stood { (v : V) × V.stands pass.new.seen v }
        ensures value { IfOk result (λ s. V.stands pass.new.seen (arc_value s.value)) }
        ensures number { IfOk result (λ s. IsNumber pass.old pass.new s.number) }
        ensures finished { IfOk result (λ s. TellsFinished pass.old pass.new s.number s.finished) }
        ensures log { IfOk result (λ s. HasFirstFirings V.fired s.finished pass.new.seen s.log) }
    {
        let board = &self.table.shared;
        let sleepers = &self.sleepers;
        let (number, finished, shared) = see(rt, board, sleepers, &mut pass.place, pass.number);
        match shared {
            Ok(card) => Ok(card.shown(number, finished)),
            Err(e) => Err(e),
        }
    }

    /// Takes the writer's turn, and waits until it is free. The value shown is the current one
    /// until the turn is given back or the pass publishes.
    ///
    /// After `AllocError`, which comes as in `look`, the pass doesn't have the turn.
    pub fn begin<R: Wait>(&self, rt: &R, pass: &mut Pass<V>) -> Result<Shown<V>, AllocError>
        requires { MayBegin self.now pass.old }
        ensures pass { HasBegun pass.old pass.new }
        ensures stood { (v : V) × V.stands pass.new.seen v }
        ensures value { IfOk result (λ s. V.stands pass.new.seen (arc_value s.value)) }
        ensures number { IfOk result (λ s. IsFinished pass.old pass.new s.number s.finished) }
        ensures log { IfOk result (λ s. HasFirstFirings V.fired s.number pass.new.seen s.log) }
        ensures turn { HasTurnIfOk result pass.new }
    {
        let board = &self.table.shared;
        take_turn(rt, board, &self.sleepers, &mut pass.place, pass.number);
        let (number, shared) = see_begun(rt, board, &self.sleepers, &mut pass.place, pass.number);
        match shared {
            Ok(card) => Ok(card.shown(number, number)),
            Err(e) => Err(e),
        }
    }

    /// Makes one try to take the writer's turn. `None` comes exactly where the try found the number
    /// of another caller. It never waits for the writer's turn.
    ///
    /// After `AllocError`, which comes as in `look`, the pass doesn't have the turn.
    pub fn try_begin<R: Wait>(
        &self,
        rt: &R,
        pass: &mut Pass<V>,
    ) -> Result<Option<Shown<V>>, AllocError>
        requires { MayBegin self.now pass.old }
        ensures pass { HasTurned pass.old pass.new }
        ensures value { IfBegun result (λ s. V.stands pass.new.seen (arc_value s.value)) }
        ensures number { IfBegun result (λ s. IsFinished pass.old pass.new s.number s.finished) }
        ensures log { IfBegun result (λ s. HasFirstFirings V.fired s.number pass.new.seen s.log) }
        ensures turn { HasTried V.stands self.now.callers result pass.old pass.new }
    {
        let board = &self.table.shared;
        let found = try_turn(board, &mut pass.place, pass.number);
        if found != 0 {
            return Ok(None);
        }
        let (number, shared) = see_begun(rt, board, &self.sleepers, &mut pass.place, pass.number);
        match shared {
            Ok(card) => Ok(Some(card.shown(number, number))),
            Err(e) => Err(e),
        }
    }

    /// Makes a value ready to be published. It takes the memory for a copy of it for each caller but
    /// one, so that `publish` takes none.
    pub fn ready(&self, value: Arc<V>) -> Result<Ready<V>, AllocError>
        ensures { IfOk result (λ r. r ≡ arc_value value) }
    {
        let copies = copies_of(self.alloc, &value, self.callers)?;
        Ok(Ready { value, copies })
    }

    /// The commit event, made while every shown turn is held. It gives the new number. It takes no
    /// memory, and may wait while another caller looks.
    pub fn publish<R: Wait>(&self, rt: &R, pass: &mut Pass<V>, ready: Ready<V>) -> u64
        requires own { pass.old.table ≡ self.now.table }
        requires begun { pass.old.stage ≡ 1 }
        requires room { length pass.old.seen ≤ 2 ^ 63 }
        requires stands { V.stands (pass.old.seen ++ (pass.old.number, ready) ∷ []) ready }
        ensures pass { pass.new ≡ record pass.old {
          seen = pass.old.seen ++ (pass.old.number, ready) ∷ [];
          mine = pass.old.mine ++ (pass.old.number, ready) ∷ [];
          stage = 2;
        } }
        ensures number { result + 1 ≡ length pass.new.seen }
    {
        let board = &self.table.shared;
        let count = commit(
            rt,
            board,
            &self.sleepers,
            &mut pass.place,
            pass.number,
            self.callers,
            ready,
        );
        pass.last = count;
        count
    }

    /// Shows the log in each slot, then the finished number, and gives the writer's turn back. It
    /// takes no memory, and may wait while another caller looks.
    ///
    /// It wakes those who sleep until a commit is finished only where `wake` is true: whoever
    /// finishes a commit that fires no cell on which somebody sleeps says false. No clause speaks of
    /// it.
    pub fn finish<R: Wait>(&self, rt: &R, pass: &mut Pass<V>, log: Front, wake: bool)
        requires own { pass.old.table ≡ self.now.table }
        requires published { pass.old.stage ≡ 2 }
        requires log { HasFirstFirings V.fired (length pass.old.seen - 1) pass.old.seen log }
        ensures { pass.new ≡ record pass.old { stage = 0 } }
    {
        let board = &self.table.shared;
        end(
            rt,
            board,
            &self.sleepers,
            &mut pass.place,
            pass.number,
            self.callers,
            pass.last,
            log,
        );
        if wake {
            self.waits.wake();
        }
    }

    /// Gives the writer's turn back without a commit. It takes no memory and waits for nobody.
    pub fn leave(&self, pass: &mut Pass<V>)
        requires own { pass.old.table ≡ self.now.table }
        requires begun { pass.old.stage ≡ 1 }
        ensures { pass.new ≡ record pass.old { stage = 0 } }
    {
        leave_turn(&self.table.shared, &self.sleepers, &mut pass.place);
    }

    /// Announces that the caller may sleep until the next commit is finished that wakes; `None` once
    /// waits have been ended. A caller that then looks, finds nothing and sleeps misses no such
    /// commit: each was finished before that look, or it wakes the caller. It takes no memory.
    pub fn next_commit(&self) -> Option<NextCommit<'_>> {
        self.waits.announce()
    }

    /// Ends all waits for a commit, also those that are announced later. It takes no memory.
    pub fn end_waits(&self) {
        self.waits.end();
    }
}
