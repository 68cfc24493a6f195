//! Commits of one, two and sixty-four callers, with values that list who committed.
ghost use Rattle.std.specs.Prelude.{◌≡◌, ◌+◌, ◌<◌, ◌^◌, ℕ, length, IfOk, OnOk, OnErr};
ghost use Rattle.std.specs.Arc.{arc_value};
ghost use Rattle.watch_word.specs.Logs.{Log};
ghost use Rattle.db_front.specs.Passes.{all_fresh, AreAll, AreIdle};

mod logs;
mod long;

use db_front::{Pass, Passes, Ready, Shared, Shown, Version, make_shared};
use std::alloc::{AllocError, Global};
use std::marker::Model;
use std::sync::{Arc, Wait};
use std::test::*;
use std::thread::{Threads, join_mut};
use watch_word::{Front, open_book};

/// A commit: its caller, and which of the caller's commits it is.
#[derive(Clone, Copy)]
struct Entry {
    caller: u64,
    own: u64,
}

/// All commits, in order; seen as how many there are. The opening value has a token besides, which
/// tells whether it is there.
#[derive(Drop)]
struct Roll {
    entries: Arc<Vec<Entry>>,
    token: Option<Arc<u64>>,
}

impl Model for Roll {
    ghost use Rattle.std.specs.Prelude.{ℕ, length};
    ghost use Rattle.std.specs.Arc.{arc_value};

    ghost Value = { ℕ };

    ghost view = { λ r. length (arc_value r.entries).items };
}

impl Version for Roll {
    ghost use Rattle.std.specs.Prelude.{◌≡◌, ◌+◌, length};

    ghost stands = { λ h v. v + 1 ≡ length h };

    ghost fired = { λ h log. Unit {0} };

    fn copy(&self, _alloc: Global) -> Result<Roll, AllocError> {
        let token = self.token.clone()?;
        let entries = Arc::try_clone(&self.entries)?;
        Ok(Roll { entries, token })
    }
}

/// A front without a commit, and its passes.
fn opened(
    alloc: Global,
    token: Option<Arc<u64>>,
    callers: u32,
) -> Result<(Shared<Roll>, Passes<Roll>), AllocError>
    requires { (0 < callers) × (callers < 65) }
    ensures callers { IfOk result (λ t. t.0.callers ≡ callers) }
    ensures all { IfOk result (λ t. AreAll t.0.callers t.1.passes) }
    ensures fresh { IfOk result (λ t. (o : ℕ) × (l : Log) × (t.1.passes
        ≡ all_fresh t.0.table o l callers)) }
    ensures idle { IfOk result (λ t. AreIdle t.0.table t.1.passes) }
    ensures count { IfOk result (λ t. length t.1.passes ≡ callers) }
    ensures room { IfOk result (λ t. t.1.room ≡ callers) }
{
    let entries = Arc::new(alloc, Vec::new(alloc))?;
    let value = Arc::new(alloc, Roll { entries, token })?;
    let (_book, log) = open_book(alloc)?;
    make_shared(alloc, value, log, callers)
}

/// The value with one entry more.
fn with_entry(alloc: Global, old: &Roll, entry: Entry) -> Result<Arc<Roll>, AllocError>
    ensures { IfOk result (λ a. arc_value a ≡ old.now + 1) }
{
    let mut entries = Vec::from_slice(alloc, old.entries.as_slice())?;
    entries.push(entry)?;
    let roll = Roll {
        entries: Arc::new(alloc, entries)?,
        token: None,
    };
    Ok(Arc::new(alloc, roll)?)
}

/// The value with one entry more, ready to be published. No test comes near the number of commits
/// at which it gives up.
fn readied(
    alloc: Global,
    shared: &Shared<Roll>,
    shown: &Shown<Roll>,
    entry: Entry,
) -> Result<Ready<Roll>, AllocError>
    ensures room { OnOk result (shown.now.number < 2 ^ 63) }
    ensures longer { IfOk result (λ r. r ≡ arc_value shown.now.value + 1) }
{
    if shown.number >= 1 << 63 {
        return Err(AllocError);
    }
    shared.ready(with_entry(alloc, &shown.value, entry)?)
}

/// Begins and publishes. The log that is still to be shown.
fn publish<R: Wait>(
    rt: &R,
    alloc: Global,
    shared: &Shared<Roll>,
    pass: &mut Pass<Roll>,
    entry: Entry,
) -> Result<Front, AllocError>
    requires { (pass.old.table ≡ shared.now.table) × (pass.old.stage ≡ 0) }
    ensures pass { (pass.new.table ≡ pass.old.table) × (pass.new.number ≡ pass.old.number)
        × (pass.new.log ≡ pass.old.log) }
    ensures published { OnOk result (pass.new.stage ≡ 2) }
    ensures idle { OnErr result (pass.new.stage ≡ 0) }
{
    let shown = shared.begin(rt, pass)?;
    match readied(alloc, shared, &shown, entry) {
        Ok(ready) => {
            shared.publish(rt, pass, ready);
            Ok(shown.log)
        }
        Err(e) => {
            shared.leave(pass);
            Err(e)
        }
    }
}

/// One whole commit.
fn commit<R: Wait>(
    rt: &R,
    alloc: Global,
    shared: &Shared<Roll>,
    pass: &mut Pass<Roll>,
    entry: Entry,
) -> Result<(), AllocError>
    requires { (pass.old.table ≡ shared.now.table) × (pass.old.stage ≡ 0) }
    ensures { (pass.new.table ≡ pass.old.table) × (pass.new.stage ≡ 0)
        × (pass.new.number ≡ pass.old.number) × (pass.new.log ≡ pass.old.log) }
{
    let log = publish(rt, alloc, shared, pass, entry)?;
    shared.finish(rt, pass, log, true);
    Ok(())
}

/// The numbers of commits and of finished ones that a pass sees.
fn numbers<R: Wait>(
    rt: &R,
    shared: &Shared<Roll>,
    pass: &mut Pass<Roll>,
) -> Result<(u64, u64), AllocError>
    requires { pass.old.table ≡ shared.now.table }
    ensures { (pass.new.table ≡ pass.old.table) × (pass.new.stage ≡ pass.old.stage)
        × (pass.new.number ≡ pass.old.number) × (pass.new.log ≡ pass.old.log) }
{
    let shown = shared.look(rt, pass)?;
    Ok((shown.number, shown.finished))
}

/// Whether a try found the turn taken. It gives the turn back.
fn is_taken<R: Wait>(
    rt: &R,
    shared: &Shared<Roll>,
    pass: &mut Pass<Roll>,
) -> Result<bool, AllocError>
    requires { (pass.old.table ≡ shared.now.table) × (pass.old.stage ≡ 0) }
    ensures { (pass.new.table ≡ pass.old.table) × (pass.new.stage ≡ 0)
        × (pass.new.number ≡ pass.old.number) }
{
    match shared.try_begin(rt, pass)? {
        None => Ok(true),
        Some(_) => {
            shared.leave(pass);
            Ok(false)
        }
    }
}

/// A front of two callers. Their passes are out of the list, and neither has the writer's turn.
struct Duo {
    shared: Shared<Roll>,
    passes: Passes<Roll>,
    one: Pass<Roll>,
    two: Pass<Roll>,
}

impl Model for Duo {
    ghost use Rattle.std.specs.Prelude.{◌≡◌, []};

    ghost Value = { Unit {0} };

    ghost view = { λ d. tt };

    ghost invariant = { λ d. (d.shared.callers ≡ 2) × (d.passes.passes ≡ [])
        × (d.passes.room ≡ 2) × (d.one.table ≡ d.shared.table) × (d.one.stage ≡ 0)
        × (d.one.number ≡ 1) × (d.two.table ≡ d.shared.table) × (d.two.stage ≡ 0)
        × (d.two.number ≡ 2) };
}

impl Duo {
    /// A front without a commit.
    fn opened(alloc: Global, token: Option<Arc<u64>>) -> Result<Duo, AllocError> {
        let (shared, mut passes) = opened(alloc, token, 2)?;
        match (passes.take(), passes.take()) {
            (Some(one), Some(two)) => Ok(Duo {
                shared,
                passes,
                one,
                two,
            }),
            _ => unreachable!(),
        }
    }

    /// A front without a commit, whose opening value owns the token too.
    fn with_token(alloc: Global, token: &Arc<u64>) -> Result<Duo, AllocError> {
        Duo::opened(alloc, Some(Arc::try_clone(token)?))
    }

    /// One whole commit of the first caller.
    fn commit<R: Wait>(&mut self, rt: &R, alloc: Global) -> Result<(), AllocError> {
        commit(
            rt,
            alloc,
            &self.shared,
            &mut self.one,
            Entry { caller: 1, own: 1 },
        )
    }

    /// The same, and what the second caller sees of it between `publish` and `finish`.
    fn look_amid_commit<R: Wait>(
        &mut self,
        rt: &R,
        alloc: Global,
    ) -> Result<(u64, u64), AllocError> {
        let entry = Entry { caller: 1, own: 1 };
        let log = publish(rt, alloc, &self.shared, &mut self.one, entry)?;
        let seen = numbers(rt, &self.shared, &mut self.two);
        self.shared.finish(rt, &mut self.one, log, true);
        seen
    }

    /// What the first caller sees.
    fn look_of_one<R: Wait>(&mut self, rt: &R) -> Result<(u64, u64), AllocError> {
        numbers(rt, &self.shared, &mut self.one)
    }

    /// What the second caller sees.
    fn look_of_two<R: Wait>(&mut self, rt: &R) -> Result<(u64, u64), AllocError> {
        numbers(rt, &self.shared, &mut self.two)
    }

    /// Whether the second caller finds the writer's turn taken.
    fn try_of_two<R: Wait>(&mut self, rt: &R) -> Result<bool, AllocError> {
        is_taken(rt, &self.shared, &mut self.two)
    }

    /// The same while the first caller has the turn.
    fn try_amid_turn<R: Wait>(&mut self, rt: &R) -> Result<bool, AllocError> {
        drop(self.shared.begin(rt, &mut self.one)?);
        let taken = is_taken(rt, &self.shared, &mut self.two);
        self.shared.leave(&mut self.one);
        taken
    }

    /// Gives both passes back, and closes.
    fn end<R: Wait>(self, rt: &R) -> Shown<Roll> {
        let Duo {
            shared,
            mut passes,
            one,
            two,
        } = self;
        passes.give(one);
        passes.give(two);
        shared.close(rt, passes)
    }
}

/// Commits of one caller, counted from 1, below the number given.
fn commits_below<R: Wait>(
    rt: &R,
    alloc: Global,
    shared: &Shared<Roll>,
    pass: &mut Pass<Roll>,
    caller: u64,
    end: u64,
) -> Result<(), AllocError>
    requires { (pass.old.table ≡ shared.now.table) × (pass.old.stage ≡ 0) }
    ensures { (pass.new.table ≡ pass.old.table) × (pass.new.stage ≡ 0)
        × (pass.new.number ≡ pass.old.number) }
{
    for own in 1..end {
        commit(rt, alloc, shared, pass, Entry { caller, own })?;
    }
    Ok(())
}

/// Fifty commits each on two threads.
fn hundred<R: Threads + Wait + Sync>(
    rt: &R,
    alloc: Global,
    shared: &Shared<Roll>,
    one: &mut Pass<Roll>,
    two: &mut Pass<Roll>,
) -> Result<(), AllocError>
    requires one { (one.old.table ≡ shared.now.table) × (one.old.stage ≡ 0) }
    requires two { (two.old.table ≡ shared.now.table) × (two.old.stage ≡ 0) }
    ensures one { (one.new.table ≡ one.old.table) × (one.new.stage ≡ 0)
        × (one.new.number ≡ one.old.number) }
    ensures two { (two.new.table ≡ two.old.table) × (two.new.stage ≡ 0)
        × (two.new.number ≡ two.old.number) }
{
    let (first, second) = join_mut(
        rt,
        &mut || -> Result<(), AllocError>
            requires { (one.now.table ≡ shared.now.table) × (one.now.stage ≡ 0) }
            ensures { (one.exit.now.table ≡ one.entry.now.table) × (one.exit.now.stage ≡ 0)
                × (one.exit.now.number ≡ one.entry.now.number) }
        { commits_below(rt, alloc, shared, one, 1, 51) },
        &mut || -> Result<(), AllocError>
            requires { (two.now.table ≡ shared.now.table) × (two.now.stage ≡ 0) }
            ensures { (two.exit.now.table ≡ two.entry.now.table) × (two.exit.now.stage ≡ 0)
                × (two.exit.now.number ≡ two.entry.now.number) }
        { commits_below(rt, alloc, shared, two, 2, 51) },
    );
    first.and(second)
}

/// How many commits the caller has, where they stand in order.
fn in_order(entries: &[Entry], caller: u64) -> Option<u64> {
    let mut last = 0;
    for entry in entries {
        if entry.caller == caller {
            if entry.own <= last {
                return None;
            }
            last = entry.own;
        }
    }
    Some(last)
}

/// The last value after fifty commits each on two threads.
fn after_hundred<R: Threads + Wait + Sync>(
    rt: &R,
    alloc: Global,
) -> Result<Shown<Roll>, AllocError> {
    let mut duo = Duo::opened(alloc, None)?;
    let done = hundred(rt, alloc, &duo.shared, &mut duo.one, &mut duo.two);
    let last = duo.end(rt);
    done.and(Ok(last))
}

/// How many commits there are, and how many the first two callers have, where they stand in order.
fn counts(last: &Shown<Roll>) -> (u64, [Option<u64>; 2]) {
    let entries = last.value.entries.as_slice();
    (last.number, [in_order(entries, 1), in_order(entries, 2)])
}

#[test]
fn two_threads_make_fifty_commits_each(rt: HostRuntime) -> Result<(), Fail> {
    let last = after_hundred(&rt, rt.alloc())?;
    assert!(rt; counts(&last) == (100, [Some(50), Some(50)]));
    Ok(())
}

/// Whether the second caller finds the writer's turn taken: while the first one has it, and then.
fn try_twice<R: Wait>(rt: &R, duo: &mut Duo) -> Result<[bool; 2], AllocError> {
    Ok([duo.try_amid_turn(rt)?, duo.try_of_two(rt)?])
}

/// What `try_twice` finds in a front of its own.
fn tried<R: Wait>(rt: &R, alloc: Global) -> Result<[bool; 2], AllocError> {
    let mut duo = Duo::opened(alloc, None)?;
    let taken = try_twice(rt, &mut duo);
    duo.end(rt);
    taken
}

#[test]
fn a_try_finds_the_turn_taken_and_then_free(rt: HostRuntime) -> Result<(), Fail> {
    assert!(rt; tried(&rt, rt.alloc())? == [true, false]);
    Ok(())
}

/// The numbers that the second caller sees between `publish` and `finish` of the first, and those
/// that both see then.
fn look_between<R: Wait>(
    rt: &R,
    alloc: Global,
    duo: &mut Duo,
) -> Result<[(u64, u64); 3], AllocError> {
    let between = duo.look_amid_commit(rt, alloc)?;
    Ok([between, duo.look_of_two(rt)?, duo.look_of_one(rt)?])
}

/// What `look_between` sees in a front of its own.
fn looked<R: Wait>(rt: &R, alloc: Global) -> Result<[(u64, u64); 3], AllocError> {
    let mut duo = Duo::opened(alloc, None)?;
    let seen = look_between(rt, alloc, &mut duo);
    duo.end(rt);
    seen
}

#[test]
fn a_look_before_finish_sees_the_commit_unfinished(rt: HostRuntime) -> Result<(), Fail> {
    assert!(rt; looked(&rt, rt.alloc())? == [(1, 0), (1, 1), (1, 1)]);
    Ok(())
}

/// How many owners the token has: while the second caller still has the opening value after a
/// commit, and once it has let it go.
fn owners<R: Wait>(
    rt: &R,
    alloc: Global,
    token: &Arc<u64>,
    duo: &mut Duo,
) -> Result<(usize, usize), AllocError> {
    let shown = duo.shared.look(rt, &mut duo.two)?;
    duo.commit(rt, alloc)?;
    let read = Arc::strong_count(token);
    drop(shown);
    Ok((read, Arc::strong_count(token)))
}

/// What `owners` counts of a token in a front of its own.
fn counted<R: Wait>(rt: &R, alloc: Global) -> Result<(usize, usize), AllocError> {
    let token = Arc::new(alloc, 0)?;
    let mut duo = Duo::with_token(alloc, &token)?;
    let owners = owners(rt, alloc, &token, &mut duo);
    duo.end(rt);
    owners
}

#[test]
fn a_value_is_dropped_with_its_last_owner(rt: HostRuntime) -> Result<(), Fail> {
    assert!(rt; counted(&rt, rt.alloc())? == (2, 1));
    Ok(())
}

/// One commit of the first pass, which then is the last.
fn commit_first<R: Wait>(
    rt: &R,
    alloc: Global,
    shared: &Shared<Roll>,
    passes: &mut Passes<Roll>,
    caller: u64,
) -> Result<(), AllocError>
    requires all { AreAll shared.now.callers passes.old.passes }
    requires idle { AreIdle shared.now.table passes.old.passes }
    requires room { (length passes.old.passes ≡ 64) × (passes.old.room ≡ 64) }
    ensures all { AreAll shared.now.callers passes.new.passes }
    ensures idle { AreIdle shared.now.table passes.new.passes }
    ensures room { (length passes.new.passes ≡ 64) × (passes.new.room ≡ 64) }
{
    let mut pass = match passes.take() {
        Some(pass) => pass,
        None => unreachable!(),
    };
    let done = commit(rt, alloc, shared, &mut pass, Entry { caller, own: 1 });
    passes.give(pass);
    done
}

/// One commit by each pass in turn.
fn by_each<R: Wait>(
    rt: &R,
    alloc: Global,
    shared: &Shared<Roll>,
    passes: &mut Passes<Roll>,
) -> Result<(), AllocError>
    requires all { AreAll shared.now.callers passes.old.passes }
    requires idle { AreIdle shared.now.table passes.old.passes }
    requires room { (length passes.old.passes ≡ 64) × (passes.old.room ≡ 64) }
    ensures all { AreAll shared.now.callers passes.new.passes }
    ensures idle { AreIdle shared.now.table passes.new.passes }
    ensures room { (length passes.new.passes ≡ 64) × (passes.new.room ≡ 64) }
{
    for caller in 1..65 {
        commit_first(rt, alloc, shared, passes, caller)?;
    }
    Ok(())
}

/// The last value after a commit by each of 64 passes.
fn after_each<R: Wait>(rt: &R, alloc: Global) -> Result<Shown<Roll>, AllocError> {
    let (shared, mut passes) = opened(alloc, None, 64)?;
    let done = by_each(rt, alloc, &shared, &mut passes);
    let last = shared.close(rt, passes);
    done.and(Ok(last))
}

/// Whether each of 64 callers has one commit.
fn each_has_one(entries: &[Entry]) -> bool {
    (1..65).all(|caller| in_order(entries, caller) == Some(1))
}

#[test]
fn sixty_four_callers_commit_in_turn(rt: HostRuntime) -> Result<(), Fail> {
    let last = after_each(&rt, rt.alloc())?;
    assert!(rt; last.number == 64 && each_has_one(&last.value.entries));
    Ok(())
}

/// Takes what may be sent to a thread.
fn may_be_sent<T: Send>(_value: &T) {}

/// Takes what may be sent and shared.
fn may_be_shared<T: Send + Sync>(_value: &T) {}

/// Callers on threads need no more than that the value may be shared among threads.
fn threads_may_have_all<V: Version + Send + Sync>(
    shared: &Shared<V>,
    passes: &Passes<V>,
    pass: &Pass<V>,
    shown: &Shown<V>,
    ready: &Ready<V>,
) {
    may_be_shared(shared);
    may_be_sent(passes);
    may_be_sent(pass);
    may_be_shared(shown);
    may_be_sent(ready);
}

#[test]
fn all_goes_to_threads(rt: HostRuntime) -> Result<(), Fail> {
    let duo = Duo::opened(rt.alloc(), None)?;
    may_be_shared(&duo.shared);
    may_be_sent(&duo.one);
    duo.end(&rt);
    Ok(())
}
