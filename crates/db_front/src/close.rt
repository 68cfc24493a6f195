//! The end of the front.
ghost use Rattle.std.specs.Prelude.{◌≡◌, ℕ, ◌+◌, ◌^◌, ◌<◌, ◌≤◌, List, [], ◌∷◌, ◌++◌, length, map};
ghost use Rattle.std.specs.Arc.{arc_value};
ghost use Rattle.db_front.specs.Commits.{HasFirstFirings, IsHistory};
ghost use Rattle.db_front.specs.Passes.{AreAll, AreIdle, AreIn, AreMade};
ghost use Rattle.db_front.specs.inner.FrontRule.{HasHand};
ghost use Rattle.db_front.specs.inner.Seats.{IsAt, IsFree, IsSame, hand_of};

use crate::board::{Board, BoardTable, COUNT, DONE, Place, turn_of};
use crate::pass::Pass;
use crate::passes::Passes;
use crate::plays::{Count, Hand, Note};
use crate::shared::Shared;
use crate::shown::Shown;
use crate::turns::{Sleepers, enter, take_turn};
use crate::version::Version;
use std::sync::Wait;

/// Takes the number of a pass into the seat.
fn absorb<V: Version>(board: &Board<V>, place: &mut Place<V>, pass: Pass<V>)
    requires table { IsAt board.now.table_id board.now.key.1 place.old }
    requires pass { (pass.table ≡ (board.now.table_id, board.now.key.1)) × (pass.stage ≡ 0) }
    ensures seat { IsSame place.old place.new }
    ensures joined { place.new.me ≡ (
      record place.old.me.0 {
        more = place.old.me.0.more ++ hand_of pass ∷ [];
      },
      place.old.me.1,
    ) }
{
    let Pass {
        place: other,
        number: _,
        last: _,
        log: _,
    } = pass;
    board.join_seat::<Hand>(place, other);
}

/// Takes the numbers of all these passes into the seat.
fn gather<V: Version>(board: &Board<V>, place: &mut Place<V>, mut passes: Passes<V>)
    requires table { IsAt board.now.table_id board.now.key.1 place.old }
    requires idle { AreIdle (board.now.table_id, board.now.key.1) passes.passes }
    requires alone { place.old.me.0.more ≡ [] }
    ensures seat { IsSame place.old place.new }
    ensures joined { place.new.me
        ≡ (record place.old.me.0 { more = map hand_of passes.passes }, place.old.me.1) }
{
    while let Some(pass) = passes.take() {
        absorb(board, place, pass);
    }
    passes.end();
}

/// Takes the table apart, with the writer's turn held: nobody can commit any more, so the list that
/// the seat has seen is the whole history.
fn take_apart<V: Version>(table: BoardTable<V>, place: Place<V>)
    requires table { IsAt table.shared.table_id table.shared.key.1 place }
    requires held { (0 < place.me.0.stage) × (0 < place.me.0.number) }
    ensures { IsHistory table.shared.key.1 place.me.0.seen × HasHand place.me.0.seen place.me.0 }
{
    let mut closed = table.close_with(place);
    let mut at = 0;
    while at < closed.slot_count() {
        drop(closed.take(at));
        at += 1;
    }
    closed.free();
}

/// Takes the writer's turn and the own shown turn, and the table apart.
fn settle<V: Version, R: Wait>(
    rt: &R,
    table: BoardTable<V>,
    sleepers: &Sleepers,
    mut place: Place<V>,
    number: u64,
) -> Shown<V>
    requires table { IsAt table.shared.table_id table.shared.key.1 place }
    requires free { IsFree place number × (place.me.0.stage ≡ 0) }
    ensures { (h : List (ℕ × V)) × IsHistory table.shared.key.1 h × HasHand h place.me.0
        × (result.number + 1 ≡ length h) × (result.finished ≡ result.number)
        × (result.number ≤ 2 ^ 63) × V.stands h (arc_value result.value)
        × HasFirstFirings V.fired result.finished h result.log }
{
    take_turn(rt, &table.shared, sleepers, &mut place, number);
    let turn = turn_of(number);
    let card = enter(rt, &table.shared, sleepers, &mut place, number, turn);
    let count = table.shared.load::<Count>(&mut place, COUNT);
    let finished = table.shared.load::<Note>(&mut place, DONE);
    take_apart(table, place);
    card.shown(count, finished)
}

impl<V: Version> Shared<V> {
    /// Ends the front, with the passes of all its callers. It gives the last value with the number
    /// of all commits, and a log with all their firings. In their list are the own commits of each
    /// caller, each once and in order, and no others. It takes no memory.
    pub fn close<R: Wait>(self, rt: &R, mut passes: Passes<V>) -> Shown<V>
        requires there { 0 < length passes.passes }
        requires all { AreAll self.callers passes.passes }
        requires idle { AreIdle self.table passes.passes }
        ensures { (h : List (ℕ × V)) × IsHistory self.callers h × AreIn h passes.passes
            × (result.number + 1 ≡ length h) × (result.finished ≡ result.number)
            × (result.number ≤ 2 ^ 63) × V.stands h (arc_value result.value)
            × HasFirstFirings V.fired result.finished h result.log
            × AreMade self.callers h passes.passes }
    {
        let Shared {
            alloc: _,
            table,
            callers: _,
            sleepers,
            waits: _,
        } = self;
        let Some(first) = passes.take() else {
            unreachable!()
        };
        let Pass {
            mut place,
            number,
            last: _,
            log: _,
        } = first;
        gather(&table.shared, &mut place, passes);
        settle(rt, table, &sleepers, place, number)
    }
}
