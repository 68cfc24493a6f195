//! Turns: taken, given back, and what is seen while one is held.
ghost use Rattle.std.specs.Prelude.{IfOk, OnOk, OnErr, ◌≢◌, ◌≡◌, ◌+◌, ◌<◌, ◌≤◌, [], ◌∷◌, ◌++◌, drop};
ghost use Rattle.std.specs.Prelude.{None};
ghost use Rattle.db_front.specs.Commits.{HasFirstFirings};
ghost use Rattle.atomic_table.specs.Table.{rest as other_slots};
ghost use Rattle.db_front.specs.Steps.{IsTurn};
ghost use Rattle.db_front.specs.inner.Seats.{IsAt, IsOf, IsFree, IsSame, Entered, Began, Sees};
ghost use Rattle.db_front.specs.inner.Seats.{SeesBegun, TookShown};

use crate::board::{Board, COUNT, DONE, Place, WRITER, turn_of};
use crate::card::Card;
use crate::plays::{Back, Count, Leave, Note, Take, Try};
use crate::version::Version;
use crossbeam_utils::CachePadded;
use std::alloc::AllocError;
use std::hint::spin_loop;
use std::sync::Wait;
use std::sync::atomic::Ordering::SeqCst;
use std::sync::atomic::{AtomicBool, AtomicU64};
use std::time::Duration;

/// Those who sleep until a turn is given back. What writers change lies apart from what every look
/// loads.
#[derive(Drop)]
pub(crate) struct Sleepers {
    /// How many wait for a shown turn.
    shown: AtomicU64,
    writers: CachePadded<SleepingWriters>,
}

/// Those who sleep until the writer's turn is given back.
#[derive(Drop)]
struct SleepingWriters {
    count: AtomicU64,
    /// Whether one of them was woken, and none since has got the turn or gone back to sleep.
    called: AtomicBool,
}

impl Sleepers {
    /// Nobody sleeps.
    pub(crate) fn none() -> Sleepers {
        Sleepers {
            shown: AtomicU64::new(0),
            writers: CachePadded::new(SleepingWriters {
                count: AtomicU64::new(0),
                called: AtomicBool::new(false),
            }),
        }
    }

    /// Lets another sleeper be called, where one that slept has got the writer's turn.
    fn let_call(&self, slept: bool) {
        if slept {
            self.writers.called.store(false, SeqCst);
        }
    }
}

/// How often a caller looks at a shown turn that is taken before it sleeps. Such a turn is short, but
/// a commit of many callers takes one for each.
const LOOKS: u32 = 1000;

/// The same of the writer's turn, which lasts as long as a transaction: a caller that looks on for
/// it would only slow down the one that has it.
const WRITER_LOOKS: u32 = 100;

/// How long the longest sleep for the writer's turn may last, in milliseconds: so long one waits that
/// missed its wake.
const LONGEST_SLEEP: u64 = 128;

/// Whether the turn is seen to change in so many looks.
fn is_seen_to_change<V: Version>(board: &Board<V>, turn: usize, found: u64, looks: u32) -> bool
    requires { turn < board.now.table_id.words }
{
    for _ in 0..looks {
        if board.peek(turn) != found {
            return true;
        }
        spin_loop();
    }
    false
}

/// Returns when the shown turn may be free: looks at it for a short while, and then sleeps until it
/// is given back.
fn rest<V: Version, R: Wait>(rt: &R, board: &Board<V>, sleepers: &Sleepers, turn: usize, found: u64)
    requires { turn < board.now.table_id.words }
{
    if is_seen_to_change(board, turn, found, LOOKS) {
        return;
    }
    sleepers.shown.fetch_add(1, SeqCst);
    // A park compares the low 32 bits of the word.
    board.park(rt, turn, (found % 4294967296) as u32);
    sleepers.shown.fetch_sub(1, SeqCst);
}

/// The same of the writer's turn; says whether it slept. A caller that was called just before it
/// slept isn't called again, so it sleeps for so many milliseconds at most.
fn rest_for_writer<V: Version, R: Wait>(
    rt: &R,
    board: &Board<V>,
    sleepers: &Sleepers,
    found: u64,
    limit: u64,
) -> bool
    requires { WRITER < board.now.table_id.words }
{
    if is_seen_to_change(board, WRITER, found, WRITER_LOOKS) {
        return false;
    }
    let writers: &SleepingWriters = &sleepers.writers;
    writers.count.fetch_add(1, SeqCst);
    // Whoever was called last may have been awake already.
    writers.called.store(false, SeqCst);
    let limit = Duration::from_millis(limit);
    board.park_timeout(rt, WRITER, (found % 4294967296) as u32, limit);
    writers.count.fetch_sub(1, SeqCst);
    true
}

/// How long the next sleep for the writer's turn may last, in milliseconds: twice as long as the one
/// before it.
fn next_limit(limit: u64, slept: bool) -> u64 {
    if slept && limit < LONGEST_SLEEP {
        limit.saturating_mul(2)
    } else {
        limit
    }
}

/// Wakes a caller that sleeps until the shown turn is given back. A caller counts itself before it
/// sleeps, and doesn't sleep where the turn was given back meanwhile, so none is missed.
pub(crate) fn wake<V: Version>(board: &Board<V>, sleepers: &Sleepers, turn: usize)
    requires { turn < board.now.table_id.words }
{
    if sleepers.shown.load(SeqCst) != 0 {
        board.wake_one(turn);
    }
}

/// Wakes a caller that sleeps until the writer's turn is given back, if none is on its way already:
/// a wake costs as much as a short transaction.
fn wake_writer<V: Version>(board: &Board<V>, sleepers: &Sleepers)
    requires { WRITER < board.now.table_id.words }
{
    let writers: &SleepingWriters = &sleepers.writers;
    if writers.count.load(SeqCst) != 0 && !writers.called.load(SeqCst) {
        writers.called.store(true, SeqCst);
        board.wake_one(WRITER);
    }
}

/// Takes a shown turn.
pub(crate) fn take_shown<V: Version, R: Wait>(
    rt: &R,
    board: &Board<V>,
    sleepers: &Sleepers,
    place: &mut Place<V>,
    number: u64,
    turn: usize,
)
    requires table { IsAt board.now.table_id board.now.key.1 place.old }
    requires own { IsOf place.old number }
    requires turn { IsTurn board.now.key.1 turn }
    ensures seat { IsSame place.old place.new }
    ensures took { TookShown V.stands place.old place.new turn }
{
    for _ in rt.forever() {
        let found = board.compare_exchange::<Take>(place, turn, 0, number);
        if found == 0 {
            return;
        }
        rest(rt, board, sleepers, turn, found);
    }
    unreachable!()
}

/// Takes a shown turn, and what lies in its slot.
pub(crate) fn enter<V: Version, R: Wait>(
    rt: &R,
    board: &Board<V>,
    sleepers: &Sleepers,
    place: &mut Place<V>,
    number: u64,
    turn: usize,
) -> Card<V>
    requires table { IsAt board.now.table_id board.now.key.1 place.old }
    requires own { IsOf place.old number }
    requires turn { IsTurn board.now.key.1 turn }
    ensures seat { IsSame place.old place.new }
    ensures took { Entered V.stands place.old place.new turn result }
{
    take_shown(rt, board, sleepers, place, number, turn);
    board.exchange(place, turn, None).unwrap()
}

/// Puts a card into the slot whose turn was taken last, with the log that lay there, and gives the
/// turn back.
pub(crate) fn give<V: Version>(
    board: &Board<V>,
    sleepers: &Sleepers,
    place: &mut Place<V>,
    turn: usize,
    card: Card<V>,
)
    requires table { IsAt board.now.table_id board.now.key.1 place.old }
    requires turn { IsTurn board.now.key.1 turn }
    requires out { place.old.me.0.outs ≡ (turn, card.1) ∷ drop 1 place.old.me.0.outs }
    requires slot { place.old.me.1 ≡ (turn, None) ∷ other_slots place.old.me.1 }
    requires stands { V.stands place.old.me.0.seen card.0 }
    ensures seat { IsSame place.old place.new }
    ensures gave { place.new.me ≡ (
      record place.old.me.0 { outs = drop 1 place.old.me.0.outs },
      other_slots place.old.me.1,
    ) }
{
    let gone = board.exchange(place, turn, Some(card));
    let None = gone else { unreachable!() };
    board.store::<Back>(place, turn, 0);
    wake(board, sleepers, turn);
}

/// Looks into the caller's own slot: the number of commits, the number of finished ones, and what lies there.
pub(crate) fn see<V: Version, R: Wait>(
    rt: &R,
    board: &Board<V>,
    sleepers: &Sleepers,
    place: &mut Place<V>,
    number: u64,
) -> (u64, u64, Result<Card<V>, AllocError>)
    requires table { IsAt board.now.table_id board.now.key.1 place.old }
    requires free { IsFree place.old number }
    ensures seat { IsSame place.old place.new × (place.new.me.1 ≡ []) }
    ensures sees { Sees place.old.me.0 place.new.me.0 result.0 result.1 }
    ensures stood { (v : V) × V.stands place.new.me.0.seen v }
    ensures value { IfOk result.2 (λ c. V.stands place.new.me.0.seen c.0) }
    ensures log { IfOk result.2 (λ c. HasFirstFirings V.fired result.1 place.new.me.0.seen c.1) }
{
    let turn = turn_of(number);
    let card = enter(rt, board, sleepers, place, number, turn);
    let count = board.load::<Count>(place, COUNT);
    let finished = board.load::<Note>(place, DONE);
    let shared = card.share();
    give(board, sleepers, place, turn, card);
    (count, finished, shared)
}

/// Looks into the own slot with the writer's turn held, where all commits are finished. For want of
/// memory it gives the turn back.
pub(crate) fn see_begun<V: Version, R: Wait>(
    rt: &R,
    board: &Board<V>,
    sleepers: &Sleepers,
    place: &mut Place<V>,
    number: u64,
) -> (u64, Result<Card<V>, AllocError>)
    requires table { IsAt board.now.table_id board.now.key.1 place.old }
    requires free { IsFree place.old number × (place.old.me.0.stage ≡ 1) }
    ensures seat { IsSame place.old place.new }
    ensures view { SeesBegun place.old place.new result.0 }
    ensures stood { (v : V) × V.stands place.old.me.0.seen v }
    ensures value { IfOk result.1 (λ c. V.stands place.old.me.0.seen c.0) }
    ensures log { IfOk result.1 (λ c. HasFirstFirings V.fired result.0 place.old.me.0.seen c.1) }
    ensures held { OnOk result.1 (place.new.me.0.stage ≡ 1) }
    ensures memory { OnErr result.1 (place.new.me.0.stage ≡ 0) }
{
    let (count, _, shared) = see(rt, board, sleepers, place, number);
    match shared {
        Ok(card) => (count, Ok(card)),
        Err(e) => {
            leave_turn(board, sleepers, place);
            (count, Err(e))
        }
    }
}

/// Takes the writer's turn.
pub(crate) fn take_turn<V: Version, R: Wait>(
    rt: &R,
    board: &Board<V>,
    sleepers: &Sleepers,
    place: &mut Place<V>,
    number: u64,
)
    requires table { IsAt board.now.table_id board.now.key.1 place.old }
    requires free { IsFree place.old number × (place.old.me.0.stage ≡ 0) }
    ensures seat { IsSame place.old place.new }
    ensures began { Began place.old place.new }
{
    let mut limit = 1;
    let mut slept = false;
    for _ in rt.forever() {
        let found = board.compare_exchange::<Try>(place, WRITER, 0, number);
        if found == 0 {
            sleepers.let_call(slept);
            return;
        }
        let rested = rest_for_writer(rt, board, sleepers, found, limit);
        slept = rested || slept;
        limit = next_limit(limit, rested);
    }
    unreachable!()
}

/// One try for the writer's turn.
pub(crate) fn try_turn<V: Version>(board: &Board<V>, place: &mut Place<V>, number: u64) -> u64
    requires table { IsAt board.now.table_id board.now.key.1 place.old }
    requires free { IsFree place.old number × (place.old.me.0.stage ≡ 0) }
    ensures seat { IsSame place.old place.new }
    ensures tries { place.new.me.0.tries ≡ place.old.me.0.tries ++ result ∷ [] }
    ensures won { result ≡ 0 → Began place.old place.new }
    ensures lost { result ≢ 0 → (result ≢ number) × (result ≤ place.old.me.0.callers)
        × (place.new.me ≡ (record place.old.me.0 { tries = place.new.me.0.tries }, [])) }
{
    board.compare_exchange::<Try>(place, WRITER, 0, number)
}

/// Gives the writer's turn back.
pub(crate) fn leave_turn<V: Version>(board: &Board<V>, sleepers: &Sleepers, place: &mut Place<V>)
    requires table { IsAt board.now.table_id board.now.key.1 place.old }
    requires held { place.old.me.0.stage ≡ 1 }
    ensures seat { IsSame place.old place.new }
    ensures left { place.new.me ≡ (record place.old.me.0 { stage = 0 }, place.old.me.1) }
{
    board.store::<Leave>(place, WRITER, 0);
    wake_writer(board, sleepers);
}
