//! The commit event, and its end.
ghost use Rattle.std.specs.Prelude.{◌≡◌, ◌+◌, ◌-◌, ◌≤◌, ◌^◌, ◌<◌, ◌*◌, [], ◌∷◌, ◌++◌, length, drop, Some};
ghost use Rattle.std.specs.Prelude.{IfSome, IfNone};
ghost use Rattle.std.specs.Arc.{arc_value};
ghost use Rattle.atomic_table.specs.Table.{rest as other_slots};
ghost use Rattle.watch_word.specs.Logs.{Log};
ghost use Rattle.db_front.specs.Commits.{HasFirstFirings};
ghost use Rattle.db_front.specs.Steps.{IsTurn};
ghost use Rattle.db_front.specs.inner.Copies.{AreCopies};
ghost use Rattle.db_front.specs.inner.Seats.{IsAt, IsFree, IsSame, HoldsTo, committing};

use crate::board::{Board, COUNT, DONE, Place, turn_of};
use crate::card::Card;
use crate::plays::{Back, Commit, Finish, Renew};
use crate::shown::Ready;
use crate::turns::{Sleepers, enter, give, leave_turn, take_shown, wake};
use crate::version::Version;
use std::sync::{Arc, Wait};
use watch_word::Front;

/// A further owner of the value. It waits where there can't be one more, which no program comes
/// near.
fn again<V: Drop, R: Wait>(rt: &R, value: &Arc<V>) -> Arc<V>
    ensures { arc_value result ≡ arc_value value.now }
{
    for _ in rt.forever() {
        if let Ok(owner) = Arc::try_clone(value) {
            return owner;
        }
    }
    unreachable!()
}

/// Takes the shown turns of the callers below the last one, with the writer's turn held.
fn take_others<V: Version, R: Wait>(
    rt: &R,
    board: &Board<V>,
    sleepers: &Sleepers,
    place: &mut Place<V>,
    number: u64,
    callers: u64,
)
    requires table { IsAt board.now.table_id board.now.key.1 place.old }
    requires free { IsFree place.old number × (place.old.me.0.stage ≡ 1) }
    requires callers { callers ≡ board.now.key.1 }
    ensures seat { IsSame place.old place.new }
    ensures took { HoldsTo (callers - 1) place.old.me.0 place.new }
{
    for caller in 1..callers {
        take_shown(rt, board, sleepers, place, number, turn_of(caller));
    }
}

/// Puts the value into the slot whose turn was taken last, with the log that lies there, and gives
/// the turn back.
fn lay<V: Version>(
    board: &Board<V>,
    sleepers: &Sleepers,
    place: &mut Place<V>,
    turn: usize,
    value: Arc<V>,
)
    requires table { IsAt board.now.table_id board.now.key.1 place.old }
    requires turn { IsTurn board.now.key.1 turn }
    requires held { (c : V × Log) × (place.old.me.0.outs ≡ (turn, c.1) ∷ drop 1 place.old.me.0.outs)
        × (place.old.me.1 ≡ (turn, Some c) ∷ other_slots place.old.me.1) }
    requires stands { V.stands place.old.me.0.seen (arc_value value) }
    ensures seat { IsSame place.old place.new }
    ensures gave { place.new.me ≡ (
      record place.old.me.0 { outs = drop 1 place.old.me.0.outs },
      other_slots place.old.me.1,
    ) }
{
    let Card { value: old, log } = board.exchange(place, turn, None).unwrap();
    give(board, sleepers, place, turn, Card { value, log });
    drop(old);
}

/// One of the copies, or a further owner of the value where none is left.
fn next_copy<V: Drop, R: Wait>(rt: &R, copies: &mut Vec<Arc<V>>, value: &Arc<V>) -> Arc<V>
    requires { AreCopies (arc_value value.now) copies.old.items }
    ensures copy { arc_value result ≡ arc_value value.now }
    ensures others { AreCopies (arc_value value.now) copies.new.items }
{
    match copies.pop() {
        Some(copy) => copy,
        None => again(rt, value),
    }
}

/// Puts a copy of the value into each slot of the callers below the last one, and gives their turns
/// back.
fn lay_others<V: Version, R: Wait>(
    rt: &R,
    board: &Board<V>,
    sleepers: &Sleepers,
    place: &mut Place<V>,
    callers: u64,
    spare: Option<Arc<V>>,
    mut copies: Vec<Arc<V>>,
)
    requires table { IsAt board.now.table_id board.now.key.1 place.old }
    requires callers { (0 < callers) × (callers ≡ board.now.key.1) }
    requires held { HoldsTo (callers - 1) place.old.me.0 place.old }
    requires spare { IfNone spare (callers ≤ 1) }
    requires stands { IfSome spare (λ a. V.stands place.old.me.0.seen (arc_value a)) }
    requires copies { IfSome spare (λ a. AreCopies (arc_value a) copies.items) }
    ensures seat { IsSame place.old place.new }
    ensures gave { place.new.me ≡ (record place.old.me.0 { outs = [] }, []) }
{
    let Some(value) = spare else {
        return;
    };
    let mut left = callers - 1;
    while left > 0 {
        let copy = next_copy(rt, &mut copies, &value);
        lay(board, sleepers, place, turn_of(left), copy);
        left -= 1;
    }
}

/// A further owner of the value, if there are slots below the last one.
fn spare_of<V: Drop, R: Wait>(rt: &R, value: &Arc<V>, callers: u64) -> Option<Arc<V>>
    ensures none { IfNone result (callers ≤ 1) }
    ensures some { IfSome result (λ a. arc_value a ≡ arc_value value.now) }
{
    if callers > 1 {
        Some(again(rt, value))
    } else {
        None
    }
}

/// The commit event, with the writer's turn held. It takes every shown turn, and gives them back
/// with the value in their slots. It gives the new number of commits.
pub(crate) fn commit<V: Version, R: Wait>(
    rt: &R,
    board: &Board<V>,
    sleepers: &Sleepers,
    place: &mut Place<V>,
    number: u64,
    callers: u64,
    ready: Ready<V>,
) -> u64
    requires table { IsAt board.now.table_id board.now.key.1 place.old }
    requires free { IsFree place.old number × (place.old.me.0.stage ≡ 1) }
    requires callers { callers ≡ board.now.key.1 }
    requires room { length place.old.me.0.seen ≤ 2 ^ 63 }
    requires stands { V.stands (place.old.me.0.seen ++ (number, ready) ∷ []) ready }
    ensures seat { IsSame place.old place.new }
    ensures committed { place.new.me ≡ (committing place.old.me.0 ready, []) }
    ensures count { result + 1 ≡ length place.new.me.0.seen }
{
    let Ready {
        value: next,
        copies,
    } = ready;
    let spare = spare_of(rt, &next, callers);
    let turn = turn_of(callers);
    take_others(rt, board, sleepers, place, number, callers);
    let Card { value, log } = enter(rt, board, sleepers, place, number, turn);
    let gone = board.exchange(place, turn, Some(Card { value: next, log }));
    let None = gone else { unreachable!() };
    let count = board.fetch_add::<Commit>(place, COUNT, 1);
    board.store::<Back>(place, turn, 0);
    wake(board, sleepers, turn);
    lay_others(rt, board, sleepers, place, callers, spare, copies);
    drop(value);
    count + 1
}

/// Puts the log into the next slot.
fn renew<V: Version, R: Wait>(
    rt: &R,
    board: &Board<V>,
    sleepers: &Sleepers,
    place: &mut Place<V>,
    number: u64,
    turn: usize,
    log: Front,
)
    requires table { IsAt board.now.table_id board.now.key.1 place.old }
    requires free { IsFree place.old number × (2 ≤ place.old.me.0.stage) }
    requires turn { IsTurn board.now.key.1 turn × (turn ≡ 8 * place.old.me.0.stage) }
    requires log { HasFirstFirings V.fired (length place.old.me.0.seen - 1) place.old.me.0.seen log }
    ensures seat { IsSame place.old place.new }
    ensures renewed { place.new.me
        ≡ (record place.old.me.0 { stage = place.old.me.0.stage + 1 }, []) }
{
    let Card { value, log: spent } = enter(rt, board, sleepers, place, number, turn);
    let gone = board.exchange(place, turn, Some(Card { value, log }));
    let None = gone else { unreachable!() };
    board.store::<Renew>(place, turn, 0);
    wake(board, sleepers, turn);
    drop(spent);
}

/// Puts the log into each slot, one after the other.
fn renew_all<V: Version, R: Wait>(
    rt: &R,
    board: &Board<V>,
    sleepers: &Sleepers,
    place: &mut Place<V>,
    number: u64,
    callers: u64,
    log: &Front,
)
    requires table { IsAt board.now.table_id board.now.key.1 place.old }
    requires free { IsFree place.old number × (place.old.me.0.stage ≡ 2) }
    requires callers { callers ≡ board.now.key.1 }
    requires log { HasFirstFirings V.fired (length place.old.me.0.seen - 1) place.old.me.0.seen log.now }
    ensures seat { IsSame place.old place.new }
    ensures renewed { place.new.me ≡ (record place.old.me.0 { stage = callers + 2 }, []) }
{
    for caller in 1..callers + 1 {
        renew(
            rt,
            board,
            sleepers,
            place,
            number,
            turn_of(caller),
            log.share(),
        );
    }
}

/// Puts the log into the slots, shows the finished number, and gives the writer's turn back.
pub(crate) fn end<V: Version, R: Wait>(
    rt: &R,
    board: &Board<V>,
    sleepers: &Sleepers,
    place: &mut Place<V>,
    number: u64,
    callers: u64,
    count: u64,
    log: Front,
)
    requires table { IsAt board.now.table_id board.now.key.1 place.old }
    requires free { IsFree place.old number × (place.old.me.0.stage ≡ 2) }
    requires callers { callers ≡ board.now.key.1 }
    requires count { count + 1 ≡ length place.old.me.0.seen }
    requires log { HasFirstFirings V.fired (length place.old.me.0.seen - 1) place.old.me.0.seen log }
    ensures seat { IsSame place.old place.new }
    ensures ended { place.new.me ≡ (record place.old.me.0 { stage = 0 }, []) }
{
    renew_all(rt, board, sleepers, place, number, callers, &log);
    board.store::<Finish>(place, DONE, count);
    leave_turn(board, sleepers, place);
}
