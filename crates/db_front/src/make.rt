//! The front at its start, with its passes.
ghost use Rattle.std.specs.Prelude.{IfOk, Some, ◌≡◌, ◌+◌, ◌-◌, ◌<◌, ◌≤◌, [], ◌∷◌, length};
ghost use Rattle.std.specs.Prelude.{replicate};
ghost use Rattle.std.specs.Arc.{arc_value};
ghost use Rattle.watch_word.specs.Logs.{Log};
ghost use Rattle.db_front.specs.Passes.{fresh, all_fresh, AreAll, AreIdle};
ghost use Rattle.db_front.specs.inner.FrontRule;
ghost use Rattle.db_front.specs.inner.FrontRule.{start, dealing};
ghost use Rattle.db_front.specs.inner.Seats.{IsSized, IsAt, LiesTo};

use crate::board::{Board, BoardTable, Opening, Place, size_of, turn_of};
use crate::card::Card;
use crate::pass::Pass;
use crate::passes::Passes;
use crate::plays::Hand;
use crate::shared::Shared;
use crate::turns::Sleepers;
use crate::version::Version;
use crate::waits::Waits;
use atomic_table::Table;
use std::alloc::{AllocError, Global};
use std::sync::Arc;
use watch_word::Front;

/// The pass of the next number, which is split off.
fn deal_one<V: Version>(board: &Board<V>, place: &mut Place<V>, number: u64, log: &Front) -> Pass<V>
    requires table { IsAt board.now.table_id board.now.key.1 place.old }
    requires next { (0 < number) × (number < board.now.key.1) }
    requires dealing { place.old.me ≡ (dealing board.now.key number, []) }
    ensures table { place.new.table_id ≡ place.old.table_id }
    ensures dealing { place.new.me ≡ (dealing board.now.key (number + 1), []) }
    ensures pass { result
        ≡ fresh (board.now.table_id, board.now.key.1) board.now.key.0 log.now number }
{
    let other = board.split_seat::<Hand>(place);
    Pass {
        place: other,
        number,
        last: 0,
        log: log.share(),
    }
}

/// The passes below the last one.
fn deal<V: Version>(
    board: &Board<V>,
    place: &mut Place<V>,
    passes: &mut Passes<V>,
    callers: u64,
    log: &Front,
)
    requires table { IsAt board.now.table_id board.now.key.1 place.old }
    requires callers { (0 < callers) × (callers ≡ board.now.key.1) }
    requires dealing { place.old.me ≡ (dealing board.now.key 1, []) }
    requires passes { passes.old ≡ record { room = callers; passes = [] } }
    ensures table { place.new.table_id ≡ place.old.table_id }
    ensures dealing { place.new.me ≡ (dealing board.now.key callers, []) }
    ensures passes { passes.new ≡ record {
      room = callers;
      passes
          = all_fresh (board.now.table_id, board.now.key.1) board.now.key.0 log.now (callers - 1);
    } }
{
    for number in 1..callers {
        let pass = deal_one(board, place, number, log);
        passes.give(pass);
    }
}

/// The passes of all callers, in order. The last one keeps the seat that the others are split off.
/// It takes memory for their list.
fn deal_all<V: Version>(
    alloc: Global,
    board: &Board<V>,
    mut place: Place<V>,
    callers: u64,
    log: &Front,
) -> Result<Passes<V>, AllocError>
    requires table { IsAt board.now.table_id board.now.key.1 place }
    requires callers { (0 < callers) × (callers ≡ board.now.key.1) }
    requires dealing { place.me ≡ (dealing board.now.key 1, []) }
    ensures { IfOk result (λ p. p ≡ record {
      room = callers;
      passes = all_fresh (board.now.table_id, board.now.key.1) board.now.key.0 log.now callers;
    }) }
{
    let mut passes = Passes::with_room(alloc, callers as usize)?;
    deal(board, &mut place, &mut passes, callers, log);
    passes.give(Pass {
        place,
        number: callers,
        last: 0,
        log: log.share(),
    });
    Ok(passes)
}

/// What the table begins with: the value of a card, and the number of the callers.
fn opening_of<V: Version>(card: &Card<V>, callers: u64) -> Result<Opening<V>, AllocError>
    ensures { IfOk result (λ o. o ≡ (card.now.0, callers)) }
{
    let value = Arc::try_clone(&card.value)?;
    Ok(Opening { value, callers })
}

/// Places for slots, with nothing in them.
fn places<V: Version>(alloc: Global, count: usize) -> Result<Vec<Option<Card<V>>>, AllocError>
    ensures { IfOk result (λ slots. length slots.items ≡ count) }
{
    let mut slots = Vec::with_capacity(alloc, count)?;
    while slots.len() < count {
        slots.push(None)?;
    }
    Ok(slots)
}

/// The slots, with a card for each caller, of whose value it has a copy of its own.
fn slots_of<V: Version>(
    alloc: Global,
    card: &Card<V>,
    callers: u64,
) -> Result<Vec<Option<Card<V>>>, AllocError>
    requires { callers ≤ 64 }
    ensures size { IfOk result (λ slots. length slots.items ≡ FrontRule.size_of callers) }
    ensures laid { IfOk result (λ slots. LiesTo callers card.now slots.items) }
{
    let mut slots = places(alloc, size_of(callers))?;
    for caller in 1..callers + 1 {
        slots[turn_of(caller)] = Some(card.copy(alloc)?);
    }
    Ok(slots)
}

/// Words for so many callers, all 0.
fn words_of(alloc: Global, callers: u64) -> Result<Vec<u64>, AllocError>
    requires { callers ≤ 64 }
    ensures { IfOk result (λ words. words.items ≡ replicate (FrontRule.size_of callers) 0) }
{
    Ok(vec![in alloc; 0; size_of(callers)]?)
}

/// The table whose slots are filled, and its first seat.
fn table_of<V: Version>(
    alloc: Global,
    words: &[u64],
    slots: Vec<Option<Card<V>>>,
    opening: Opening<V>,
) -> Result<(BoardTable<V>, Place<V>), AllocError>
    requires callers { (0 < opening.1) × (opening.1 ≤ 64) }
    requires stands { V.stands (start opening.0) opening.0 }
    requires words { words.now ≡ replicate (FrontRule.size_of opening.1) 0 }
    requires size { length slots.items ≡ FrontRule.size_of opening.1 }
    requires laid { (log : Log) × LiesTo opening.1 (opening.0, log) slots.items
        × V.fired (start opening.0) log }
    ensures sized { IfOk result (λ t. IsSized t.0.shared.table_id t.0.shared.key.1) }
    ensures key { IfOk result (λ t. t.0.shared.key ≡ opening) }
    ensures table { IfOk result (λ t. t.1.table_id ≡ t.0.shared.table_id) }
    ensures seat { IfOk result (λ t. t.1.me ≡ (dealing opening 1, [])) }
{
    match Table::new(alloc, words, slots, &opening) {
        Ok(made) => Ok(made),
        Err(_) => Err(AllocError),
    }
}

/// The table with a card in each slot, and its first seat.
fn lay<V: Version>(
    alloc: Global,
    card: Card<V>,
    callers: u64,
) -> Result<(BoardTable<V>, Place<V>), AllocError>
    requires callers { (0 < callers) × (callers ≤ 64) }
    requires stands { V.stands (start card.0) card.0 }
    requires log { V.fired (start card.0) card.1 }
    ensures sized { IfOk result (λ t. IsSized t.0.shared.table_id t.0.shared.key.1) }
    ensures key { IfOk result (λ t. t.0.shared.key ≡ (card.0, callers)) }
    ensures table { IfOk result (λ t. t.1.table_id ≡ t.0.shared.table_id) }
    ensures seat { IfOk result (λ t. t.1.me ≡ (dealing (card.0, callers) 1, [])) }
{
    let opening = opening_of(&card, callers)?;
    let slots = slots_of(alloc, &card, callers)?;
    let words = words_of(alloc, callers)?;
    table_of(alloc, words.as_slice(), slots, opening)
}

/// A front that shows the value with the number 0, and the passes of the callers 1 to `callers`, in
/// order, each with the opening log. `AllocError` means want of memory.
pub fn make_shared<V: Version>(
    alloc: Global,
    value: Arc<V>,
    log: Front,
    callers: u32,
) -> Result<(Shared<V>, Passes<V>), AllocError>
    requires callers { (1 ≤ callers) × (callers ≤ 64) }
    requires stands { V.stands ((0, arc_value value) ∷ []) (arc_value value) }
    requires log { V.fired ((0, arc_value value) ∷ []) log }
    ensures callers { IfOk result
        (λ t. (t.0.callers ≡ callers) × (length t.1.passes ≡ callers)) }
    ensures passes { IfOk result (λ t. t.1 ≡ record {
      room = callers;
      passes = all_fresh t.0.table (arc_value value) log callers;
    }) }
    ensures all { IfOk result (λ t. AreAll t.0.callers t.1.passes) }
    ensures idle { IfOk result (λ t. AreIdle t.0.table t.1.passes) }
{
    let card = Card {
        value,
        log: log.share(),
    };
    let (table, place) = lay(alloc, card, callers as u64)?;
    let passes = deal_all(alloc, &table.shared, place, callers as u64, &log)?;
    Ok((
        Shared {
            alloc,
            table,
            callers: callers as u64,
            sleepers: Sleepers::none(),
            waits: Waits::none(),
        },
        passes,
    ))
}
