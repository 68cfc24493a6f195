//! Four callers at work at the same time for a while, as writers and as readers, and a reader that
//! keeps a value for long.
ghost use Rattle.std.specs.Prelude.{◌≡◌};

use super::{Duo, Entry, Roll, commit, commits_below, in_order, opened};
use db_front::{Pass, Passes, Shared, Shown};
use std::alloc::{AllocError, Global};
use std::marker::Model;
use std::rt::Clock;
use std::sync::Wait;
use std::test::*;
use std::thread::{Threads, join_mut};
use std::time::{Duration, Instant};

/// A front of four callers. Their passes are out of the list, and none has the writer's turn.
struct Four {
    shared: Shared<Roll>,
    passes: Passes<Roll>,
    one: Pass<Roll>,
    two: Pass<Roll>,
    three: Pass<Roll>,
    four: Pass<Roll>,
}

impl Model for Four {
    ghost use Rattle.std.specs.Prelude.{◌≡◌, []};

    ghost Value = { Unit {0} };

    ghost view = { λ f. tt };

    ghost invariant = { λ f. (f.shared.callers ≡ 4) × (f.passes.passes ≡ [])
        × (f.passes.room ≡ 4) × (f.one.table ≡ f.shared.table) × (f.one.stage ≡ 0)
        × (f.one.number ≡ 1) × (f.two.table ≡ f.shared.table) × (f.two.stage ≡ 0)
        × (f.two.number ≡ 2) × (f.three.table ≡ f.shared.table) × (f.three.stage ≡ 0)
        × (f.three.number ≡ 3) × (f.four.table ≡ f.shared.table) × (f.four.stage ≡ 0)
        × (f.four.number ≡ 4) };
}

impl Four {
    /// A front without a commit.
    fn opened(alloc: Global) -> Result<Four, AllocError> {
        let (shared, mut passes) = opened(alloc, None, 4)?;
        match (passes.take(), passes.take(), passes.take(), passes.take()) {
            (Some(one), Some(two), Some(three), Some(four)) => Ok(Four {
                shared,
                passes,
                one,
                two,
                three,
                four,
            }),
            _ => unreachable!(),
        }
    }

    /// Gives all passes back, and closes.
    fn end<R: Wait>(self, rt: &R) -> Shown<Roll> {
        let Four {
            shared,
            mut passes,
            one,
            two,
            three,
            four,
        } = self;
        passes.give(one);
        passes.give(two);
        passes.give(three);
        passes.give(four);
        shared.close(rt, passes)
    }
}

/// Whether two seconds are over.
fn is_over<C: Clock>(clock: &C, start: Instant) -> bool {
    match start.elapsed(clock) {
        Ok(passed) => passed >= Duration::from_millis(2000),
        Err(_) => true,
    }
}

/// The number of commits that a look shows, where the value has as many entries and an earlier look
/// hasn't shown more.
fn seen_after<R: Wait>(
    rt: &R,
    shared: &Shared<Roll>,
    pass: &mut Pass<Roll>,
    earlier: u64,
) -> Result<Option<u64>, AllocError>
    requires { pass.old.table ≡ shared.now.table }
    ensures { (pass.new.table ≡ pass.old.table) × (pass.new.stage ≡ pass.old.stage)
        × (pass.new.number ≡ pass.old.number) }
{
    let Shown { value, number, .. } = shared.look(rt, pass)?;
    if number >= earlier && value.entries.len() as u64 == number {
        Ok(Some(number))
    } else {
        Ok(None)
    }
}

/// Looks until the time is over; a writer, which is a caller up to that number, commits after each
/// look. It gives the number of the caller's commits, where what it saw was in order.
fn at_work<R: Wait + Clock>(
    rt: &R,
    alloc: Global,
    shared: &Shared<Roll>,
    pass: &mut Pass<Roll>,
    caller: u64,
    writers: u64,
    start: Instant,
) -> Result<Option<u64>, AllocError>
    requires { (pass.old.table ≡ shared.now.table) × (pass.old.stage ≡ 0) }
    ensures { (pass.new.table ≡ pass.old.table) × (pass.new.stage ≡ 0)
        × (pass.new.number ≡ pass.old.number) }
{
    let mut looks = 0;
    let mut seen = 0;
    while looks < 100_000 && !is_over(rt, start) {
        looks += 1;
        let Some(number) = seen_after(rt, shared, pass, seen)? else {
            return Ok(None);
        };
        seen = number;
        if caller <= writers {
            commit(rt, alloc, shared, pass, Entry { caller, own: looks })?;
        }
    }
    Ok(Some(if caller <= writers { looks } else { 0 }))
}

/// Two callers at work on two threads, of which the first has that number and the second the next.
fn pair_at_work<R: Threads + Wait + Clock + Sync>(
    rt: &R,
    alloc: Global,
    shared: &Shared<Roll>,
    one: &mut Pass<Roll>,
    two: &mut Pass<Roll>,
    callers: [u64; 2],
    writers: u64,
    start: Instant,
) -> Result<[Option<u64>; 2], AllocError>
    requires one { (one.old.table ≡ shared.now.table) × (one.old.stage ≡ 0) }
    requires two { (two.old.table ≡ shared.now.table) × (two.old.stage ≡ 0) }
    ensures one { (one.new.table ≡ one.old.table) × (one.new.stage ≡ 0)
        × (one.new.number ≡ one.old.number) }
    ensures two { (two.new.table ≡ two.old.table) × (two.new.stage ≡ 0)
        × (two.new.number ≡ two.old.number) }
{
    let [first, second] = callers;
    let (made_first, made_second) = join_mut(
        rt,
        &mut || -> Result<Option<u64>, AllocError>
            requires { (one.now.table ≡ shared.now.table) × (one.now.stage ≡ 0) }
            ensures { (one.exit.now.table ≡ one.entry.now.table) × (one.exit.now.stage ≡ 0)
                × (one.exit.now.number ≡ one.entry.now.number) }
        { at_work(rt, alloc, shared, one, first, writers, start) },
        &mut || -> Result<Option<u64>, AllocError>
            requires { (two.now.table ≡ shared.now.table) × (two.now.stage ≡ 0) }
            ensures { (two.exit.now.table ≡ two.entry.now.table) × (two.exit.now.stage ≡ 0)
                × (two.exit.now.number ≡ two.entry.now.number) }
        { at_work(rt, alloc, shared, two, second, writers, start) },
    );
    Ok([made_first?, made_second?])
}

/// Four callers at work on four threads. It gives what `at_work` gives of each.
fn four_at_work<R: Threads + Wait + Clock + Sync>(
    rt: &R,
    alloc: Global,
    shared: &Shared<Roll>,
    one: &mut Pass<Roll>,
    two: &mut Pass<Roll>,
    three: &mut Pass<Roll>,
    four: &mut Pass<Roll>,
    writers: u64,
    start: Instant,
) -> Result<[[Option<u64>; 2]; 2], AllocError>
    requires one { (one.old.table ≡ shared.now.table) × (one.old.stage ≡ 0) }
    requires two { (two.old.table ≡ shared.now.table) × (two.old.stage ≡ 0) }
    requires three { (three.old.table ≡ shared.now.table) × (three.old.stage ≡ 0) }
    requires four { (four.old.table ≡ shared.now.table) × (four.old.stage ≡ 0) }
    ensures one { (one.new.table ≡ one.old.table) × (one.new.stage ≡ 0)
        × (one.new.number ≡ one.old.number) }
    ensures two { (two.new.table ≡ two.old.table) × (two.new.stage ≡ 0)
        × (two.new.number ≡ two.old.number) }
    ensures three { (three.new.table ≡ three.old.table) × (three.new.stage ≡ 0)
        × (three.new.number ≡ three.old.number) }
    ensures four { (four.new.table ≡ four.old.table) × (four.new.stage ≡ 0)
        × (four.new.number ≡ four.old.number) }
{
    let (lower, upper) = join_mut(
        rt,
        &mut || -> Result<[Option<u64>; 2], AllocError>
            requires one { (one.now.table ≡ shared.now.table) × (one.now.stage ≡ 0) }
            requires two { (two.now.table ≡ shared.now.table) × (two.now.stage ≡ 0) }
            ensures one { (one.exit.now.table ≡ one.entry.now.table) × (one.exit.now.stage ≡ 0)
                × (one.exit.now.number ≡ one.entry.now.number) }
            ensures two { (two.exit.now.table ≡ two.entry.now.table) × (two.exit.now.stage ≡ 0)
                × (two.exit.now.number ≡ two.entry.now.number) }
        { pair_at_work(rt, alloc, shared, one, two, [1, 2], writers, start) },
        &mut || -> Result<[Option<u64>; 2], AllocError>
            requires three { (three.now.table ≡ shared.now.table) × (three.now.stage ≡ 0) }
            requires four { (four.now.table ≡ shared.now.table) × (four.now.stage ≡ 0) }
            ensures three { (three.exit.now.table ≡ three.entry.now.table)
                × (three.exit.now.stage ≡ 0)
                × (three.exit.now.number ≡ three.entry.now.number) }
            ensures four { (four.exit.now.table ≡ four.entry.now.table)
                × (four.exit.now.stage ≡ 0)
                × (four.exit.now.number ≡ four.entry.now.number) }
        { pair_at_work(rt, alloc, shared, three, four, [3, 4], writers, start) },
    );
    Ok([lower?, upper?])
}

/// Whether the last value of a front on which four callers were at work has just their commits.
fn after_four<R: Threads + Wait + Clock + Sync>(
    rt: &R,
    alloc: Global,
    writers: u64,
    start: Instant,
) -> Result<bool, AllocError> {
    let mut f = Four::opened(alloc)?;
    let made = four_at_work(
        rt,
        alloc,
        &f.shared,
        &mut f.one,
        &mut f.two,
        &mut f.three,
        &mut f.four,
        writers,
        start,
    );
    let last = f.end(rt);
    match made {
        Ok(made) => Ok(has_all(&last, &made)),
        Err(e) => Err(e),
    }
}

/// Whether the last value has just these commits of each caller, each caller's in order.
fn has_all(last: &Shown<Roll>, made: &[[Option<u64>; 2]; 2]) -> bool {
    let entries = last.value.entries.as_slice();
    let [[one, two], [three, four]] = *made;
    let all = one
        .unwrap_or(0)
        .saturating_add(two.unwrap_or(0))
        .saturating_add(three.unwrap_or(0))
        .saturating_add(four.unwrap_or(0));
    last.number == all
        && in_order(entries, 1) == one
        && in_order(entries, 2) == two
        && in_order(entries, 3) == three
        && in_order(entries, 4) == four
}

#[test]
fn the_commits_of_four_threads_join_in_one_list(rt: HostRuntime) -> Result<(), Fail> {
    let start = Instant::now(&rt)?;
    assert!(rt; after_four(&rt, rt.alloc(), 4, start)?);
    Ok(())
}

#[test]
fn three_readers_see_the_values_of_one_writer_in_order(rt: HostRuntime) -> Result<(), Fail> {
    let start = Instant::now(&rt)?;
    assert!(rt; after_four(&rt, rt.alloc(), 1, start)?);
    Ok(())
}

/// The number of a value that the second caller keeps through a thousand commits of the first, how
/// many entries it has then, and the number that the second caller sees next.
fn kept<R: Wait>(rt: &R, alloc: Global, duo: &mut Duo) -> Result<(u64, usize, u64), AllocError> {
    let shown = duo.shared.look(rt, &mut duo.two)?;
    commits_below(rt, alloc, &duo.shared, &mut duo.one, 1, 1001)?;
    let (now, _) = duo.look_of_two(rt)?;
    Ok((shown.number, shown.value.entries.len(), now))
}

/// What `kept` gives in a front of its own.
fn kept_through<R: Wait>(rt: &R, alloc: Global) -> Result<(u64, usize, u64), AllocError> {
    let mut duo = Duo::opened(alloc, None)?;
    let told = kept(rt, alloc, &mut duo);
    duo.end(rt);
    told
}

#[test]
fn a_value_is_kept_through_a_thousand_commits(rt: HostRuntime) -> Result<(), Fail> {
    assert!(rt; kept_through(&rt, rt.alloc())? == (0, 0, 1000));
    Ok(())
}
