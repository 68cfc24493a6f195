//! Four callers on threads of their own, each of whom aborts and commits in turn, checks a watch
//! after each commit, and then sleeps until all others are done. A state of before stays as it is.
ghost use Rattle.std.specs.Prelude.{◌≡◌, [], IfOk, Some};
ghost use Rattle.mem_txn.specs.CallerOf.{IsCaller};
ghost use Rattle.mem_txn.specs.Checked.{HasHeard, IsHeldBy};
ghost use Rattle.mem_txn.specs.Database.{Caller, IsOf, reading_of};

use super::duo::watch_now;
use super::long_run::second;
use super::steps::{is_read, is_row};
use super::{
    Question, SCHEMA, Told, Txn, Work, are_both, holds, is_made, query_of, row_of, schema_of,
    transact,
};
use mdb_datum::Row;
use mdb_schema::{Answer, Ask, Rows};
use mem_txn::pass_laws::held_watches_outlast_commits;
use mem_txn::{Db, Held, Look, Pass, Passes, ReadTxn};
use std::alloc::{AllocError, Global};
use std::sync::Wait;
use std::test::Fail;
use std::thread::{Threads, join_mut};

/// How many commits each of them makes.
const COMMITS: u64 = 200;

/// The question of all users.
const ALL: Question = (Ask::Get, "users", "id", "[]");

/// The text of the row of a caller's commit: its age is the number of commits before it, and its
/// name the caller with the number of the caller's own before it.
fn text_of(alloc: Global, caller: u32, own: u64, age: u64) -> Result<String, AllocError> {
    format!(in alloc; "{{\"age\":{age},\"name\":\"{caller}-{own}\"}}")
}

/// The insert of a caller's next row, and whether that is committed.
#[derive(Drop)]
struct Own {
    caller: u32,
    own: u64,
    commits: bool,
}

impl Work for Own {
    /// Puts the row in.
    fn run(&mut self, alloc: Global, txn: &mut Txn) -> Told {
        let text = text_of(alloc, self.caller, self.own, txn.number())?;
        match txn.insert("users", &row_of(alloc, &text)?) {
            Ok(_) => Ok(self.commits),
            Err(_) => Err(AllocError),
        }
    }
}

/// The state after all commits, the users there, and their watch.
fn watch_all<R: Wait>(
    rt: &R,
    alloc: Global,
    db: &Db,
    pass: &mut Pass,
) -> Result<(ReadTxn, Answer, Held), AllocError>
    requires own { IsOf db.now pass.old }
    ensures own { IsCaller db.now pass.old.number pass.new }
    ensures read { IfOk result (λ made. made.0 ≡ reading_of pass.new) }
    ensures heard { IfOk result (λ made. HasHeard pass.new) }
    ensures held { IfOk result (λ made. IsHeldBy pass.new made.2) }
{
    match query_of(alloc, &ALL) {
        Ok(query) => watch_now(rt, db, pass, &query),
        Err(AllocError) => Err(AllocError),
    }
}

/// Whether a check tells that a watch has fired.
fn has_fired(look: Result<Look, AllocError>) -> Told {
    match look {
        Ok(Look::Fired { .. }) => Ok(true),
        Ok(Look::Quiet { .. }) => Ok(false),
        Err(AllocError) => Err(AllocError),
    }
}

/// A transaction, and whether a check behind a commit tells that it has fired a watch.
fn fires_own<R: Wait>(
    rt: &R,
    alloc: Global,
    db: &Db,
    pass: Pass,
    held: &Held,
    work: &mut Own,
) -> (Pass, Told)
    requires own { IsOf db.now pass }
    requires held { IsHeldBy pass held.now }
    ensures { IsCaller db.now pass.number result.0 }
{
    let (mut pass, done) = transact(rt, alloc, db, pass, work);
    match is_made(done) {
        Ok(true) => {
            held_watches_outlast_commits(&pass);
            let look = db.check(rt, &mut pass, held);
            (pass, has_fired(look))
        }
        Ok(false) => (pass, Ok(!work.commits)),
        Err(_) => (pass, Err(AllocError)),
    }
}

/// The same of a watch of all users that is asked before.
fn commit_one<R: Wait>(rt: &R, alloc: Global, db: &Db, pass: Pass, work: &mut Own) -> (Pass, Told)
    requires own { IsOf db.now pass }
    ensures { IsCaller db.now pass.number result.0 }
{
    let mut pass = pass;
    match watch_all(rt, alloc, db, &mut pass) {
        Ok((_, _, held)) => fires_own(rt, alloc, db, pass, &held, work),
        Err(_) => (pass, Err(AllocError)),
    }
}

/// Whether all commits of a caller fire so, each behind a transaction that aborts, while a state of
/// before stays without users.
fn commit_all<R: Wait>(
    rt: &R,
    alloc: Global,
    db: &Db,
    kept: &ReadTxn,
    pass: Pass,
    work: &mut Own,
) -> (Pass, Told)
    requires own { IsOf db.now pass }
    ensures { IsCaller db.now pass.number result.0 }
{
    let mut pass = pass;
    for turn in 0..2 * COMMITS {
        work.own = turn / 2;
        work.commits = turn % 2 == 1;
        let (next, told) = commit_one(rt, alloc, db, pass, work);
        pass = next;
        match are_both(told, is_read(alloc, kept, &ALL, "")) {
            Ok(true) => {}
            told => return (pass, told),
        }
    }
    (pass, Ok(true))
}

/// What a caller does next that waits for commits.
enum Next {
    /// There are so many.
    Done,
    /// A commit has come since it has looked.
    Look,
    /// It sleeps.
    Sleep,
}

/// Looks whether there are so many commits, and else says that it is about to sleep.
fn look_for<R: Wait>(
    rt: &R,
    alloc: Global,
    db: &Db,
    pass: &mut Pass,
    count: u64,
) -> Result<Next, AllocError>
    requires own { IsOf db.now pass.old }
    ensures { IsCaller db.now pass.old.number pass.new }
{
    let (read, _, held) = watch_all(rt, alloc, db, pass)?;
    if read.number() == count {
        return Ok(Next::Done);
    }
    held.watch().attend();
    match read.check(pass, &held) {
        Some(Look::Quiet { .. }) => Ok(Next::Sleep),
        _ => Ok(Next::Look),
    }
}

/// Sleeps until there are so many commits. Where another caller has ended the waits, that one found
/// no memory, and so this one is told the same.
fn wait_for<R: Wait>(rt: &R, alloc: Global, db: &Db, pass: &mut Pass, count: u64) -> Told
    requires own { IsOf db.now pass.old }
    ensures { IsCaller db.now pass.old.number pass.new }
{
    for _ in rt.forever() {
        let Some(next) = db.next_commit() else {
            return Err(AllocError);
        };
        match look_for(rt, alloc, db, pass, count)? {
            Next::Done => return Ok(true),
            Next::Look => drop(next),
            Next::Sleep => next.wait(rt),
        }
    }
    unreachable!()
}

/// The commits of a caller, and its wait for those of all four. Where something is wrong nobody
/// waits any more.
fn commit_and_wait<R: Wait>(
    rt: &R,
    alloc: Global,
    db: &Db,
    kept: &ReadTxn,
    pass: Pass,
    caller: u32,
) -> (Pass, Told)
    requires own { IsOf db.now pass }
    ensures { IsCaller db.now pass.number result.0 }
{
    let mut work = Own {
        caller,
        own: 0,
        commits: false,
    };
    let (mut pass, made) = commit_all(rt, alloc, db, kept, pass, &mut work);
    if made != Ok(true) {
        return (pass, made);
    }
    let told = wait_for(rt, alloc, db, &mut pass, 4 * COMMITS);
    (pass, told)
}

/// The same of a pass that a thread borrows.
fn run_borrowed<R: Wait>(
    rt: &R,
    alloc: Global,
    db: &Db,
    kept: &ReadTxn,
    held: &mut Option<Pass>,
    caller: u32,
) -> Told
    requires own { (p : Caller) × (held.old ≡ Some p) × IsCaller db.now caller p }
    ensures { (p : Caller) × (held.new ≡ Some p) × IsCaller db.now caller p }
{
    let Some(pass) = held.take() else {
        unreachable!()
    };
    let (pass, told) = commit_and_wait(rt, alloc, db, kept, pass, caller);
    let gone = held.replace(pass);
    let None = gone else { unreachable!() };
    if told != Ok(true) {
        db.end_waits();
    }
    told
}

/// The work of two callers at the same time.
fn two_run<R: Threads + Wait + Sync>(
    rt: &R,
    alloc: Global,
    db: &Db,
    kept: &ReadTxn,
    first: &mut Option<Pass>,
    second: &mut Option<Pass>,
    one: u32,
    two: u32,
) -> Told
    requires first { (p : Caller) × (first.old ≡ Some p) × IsCaller db.now one p }
    requires second { (p : Caller) × (second.old ≡ Some p) × IsCaller db.now two p }
    ensures first { (p : Caller) × (first.new ≡ Some p) × IsCaller db.now one p }
    ensures second { (p : Caller) × (second.new ≡ Some p) × IsCaller db.now two p }
{
    let (told, too) = join_mut(
        rt,
        &mut || -> Told
            requires { (p : Caller) × (first.now ≡ Some p) × IsCaller db.now one p }
            ensures { (p : Caller) × (first.exit.now ≡ Some p) × IsCaller db.entry.now one p }
        { run_borrowed(rt, alloc, db, kept, first, one) },
        &mut || -> Told
            requires { (p : Caller) × (second.now ≡ Some p) × IsCaller db.now two p }
            ensures { (p : Caller) × (second.exit.now ≡ Some p) × IsCaller db.entry.now two p }
        { run_borrowed(rt, alloc, db, kept, second, two) },
    );
    are_both(told, too)
}

/// The work of all four beside a state of before, if there is one.
fn four_run<R: Threads + Wait + Sync>(
    rt: &R,
    alloc: Global,
    db: &Db,
    kept: Result<ReadTxn, AllocError>,
    one: &mut Option<Pass>,
    two: &mut Option<Pass>,
    three: &mut Option<Pass>,
    four: &mut Option<Pass>,
) -> Told
    requires one { (p : Caller) × (one.old ≡ Some p) × IsCaller db.now 1 p }
    requires two { (p : Caller) × (two.old ≡ Some p) × IsCaller db.now 2 p }
    requires three { (p : Caller) × (three.old ≡ Some p) × IsCaller db.now 3 p }
    requires four { (p : Caller) × (four.old ≡ Some p) × IsCaller db.now 4 p }
    ensures one { (p : Caller) × (one.new ≡ Some p) × IsCaller db.now 1 p }
    ensures two { (p : Caller) × (two.new ≡ Some p) × IsCaller db.now 2 p }
    ensures three { (p : Caller) × (three.new ≡ Some p) × IsCaller db.now 3 p }
    ensures four { (p : Caller) × (four.new ≡ Some p) × IsCaller db.now 4 p }
{
    let Ok(kept) = kept else {
        return Err(AllocError);
    };
    let (first, second) = join_mut(
        rt,
        &mut || -> Told
            requires one { (p : Caller) × (one.now ≡ Some p) × IsCaller db.now 1 p }
            requires two { (p : Caller) × (two.now ≡ Some p) × IsCaller db.now 2 p }
            ensures one { (p : Caller) × (one.exit.now ≡ Some p) × IsCaller db.entry.now 1 p }
            ensures two { (p : Caller) × (two.exit.now ≡ Some p) × IsCaller db.entry.now 2 p }
        { two_run(rt, alloc, db, &kept, one, two, 1, 2) },
        &mut || -> Told
            requires three { (p : Caller) × (three.now ≡ Some p) × IsCaller db.now 3 p }
            requires four { (p : Caller) × (four.now ≡ Some p) × IsCaller db.now 4 p }
            ensures three { (p : Caller) × (three.exit.now ≡ Some p) × IsCaller db.entry.now 3 p }
            ensures four { (p : Caller) × (four.exit.now ≡ Some p) × IsCaller db.entry.now 4 p }
        { two_run(rt, alloc, db, &kept, three, four, 3, 4) },
    );
    are_both(first, second)
}

/// The last state, when all passes are back: what each of them has seen is a beginning of its list.
fn closed_four<R: Wait>(
    rt: &R,
    db: Db,
    mut passes: Passes,
    one: Pass,
    two: Pass,
    three: Pass,
    four: Pass,
) -> ReadTxn
    requires one { IsCaller db 1 one }
    requires two { IsCaller db 2 two }
    requires three { IsCaller db 3 three }
    requires four { IsCaller db 4 four }
    requires all { db.callers ≡ 4 }
    requires rest { passes ≡ record { passes = []; made = 4 } }
{
    passes.give(one);
    passes.give(two);
    passes.give(three);
    passes.give(four);
    db.close(rt, passes)
}

/// The same of passes that were lent.
fn closed_lent<R: Wait>(
    rt: &R,
    db: Db,
    passes: Passes,
    one: Option<Pass>,
    two: Option<Pass>,
    three: Option<Pass>,
    four: Option<Pass>,
) -> ReadTxn
    requires one { (p : Caller) × (one ≡ Some p) × IsCaller db 1 p }
    requires two { (p : Caller) × (two ≡ Some p) × IsCaller db 2 p }
    requires three { (p : Caller) × (three ≡ Some p) × IsCaller db 3 p }
    requires four { (p : Caller) × (four ≡ Some p) × IsCaller db 4 p }
    requires all { db.callers ≡ 4 }
    requires rest { passes ≡ record { passes = []; made = 4 } }
{
    match (one, two, three, four) {
        (Some(one), Some(two), Some(three), Some(four)) => {
            closed_four(rt, db, passes, one, two, three, four)
        }
        _ => unreachable!(),
    }
}

/// Whether a row is that of a caller's commit.
fn is_own(alloc: Global, row: &Row, caller: u32, own: u64, age: u64) -> Told {
    match text_of(alloc, caller, own, age) {
        Ok(text) => is_row(row, &text),
        Err(AllocError) => Err(AllocError),
    }
}

/// Counts a row of this age for the caller whose next it is, if any.
fn is_next(alloc: Global, row: &Row, counts: &mut [u64; 4], age: u64) -> Told {
    for caller in 0..4 {
        let own = counts[caller];
        match is_own(alloc, row, caller as u32 + 1, own, age) {
            Ok(false) => {}
            told => {
                counts[caller] = own.saturating_add(1);
                return told;
            }
        }
    }
    Ok(false)
}

/// Whether there is a user for each commit of each caller, one of each age, where each caller's are
/// in the order of its own.
fn are_in_order(alloc: Global, rows: &Rows) -> Told {
    let mut counts = [0; 4];
    for (age, row) in rows.iter().enumerate() {
        if !is_next(alloc, row, &mut counts, age as u64)? {
            return Ok(false);
        }
    }
    Ok(counts == [COMMITS; 4])
}

/// Whether the last state has them.
fn has_all(alloc: Global, last: &ReadTxn) -> Told {
    let query = query_of(alloc, &(Ask::Get, "users", "age", "[]"))?;
    match last.ask(&query) {
        Ok(Answer::Many(rows)) if last.number() == 4 * COMMITS => are_in_order(alloc, &rows),
        Ok(_) => Ok(false),
        Err(_) => Err(AllocError),
    }
}

/// A snapshot of a snapshot.
fn kept_of<R: Wait>(rt: &R, db: &Db, pass: &mut Pass) -> Result<ReadTxn, AllocError>
    requires own { IsCaller db.now 1 pass.old }
    ensures own { IsCaller db.now 1 pass.new }
{
    let read = db.read(rt, pass)?;
    second(&read)
}

/// A database of four callers, the list of its passes without them, and they.
fn opened(alloc: Global) -> Result<(Db, Passes, Pass, Pass, Pass, Pass), AllocError>
    ensures one { IfOk result (λ made. IsCaller made.0 1 made.2) }
    ensures two { IfOk result (λ made. IsCaller made.0 2 made.3) }
    ensures three { IfOk result (λ made. IsCaller made.0 3 made.4) }
    ensures four { IfOk result (λ made. IsCaller made.0 4 made.5) }
    ensures all { IfOk result (λ made. made.0.callers ≡ 4) }
    ensures rest { IfOk result (λ made. made.1 ≡ record { passes = []; made = 4 }) }
{
    let (db, mut passes) = Db::create(alloc, schema_of(alloc, SCHEMA)?, 4)?;
    match (passes.take(), passes.take(), passes.take(), passes.take()) {
        (Some(one), Some(two), Some(three), Some(four)) => Ok((db, passes, one, two, three, four)),
        _ => unreachable!(),
    }
}

/// Whether four callers in a new database do all that, and have one list then.
fn are_joined<R: Threads + Wait + Sync>(rt: &R, alloc: Global) -> Told {
    let (db, passes, mut one, two, three, four) = opened(alloc)?;
    let kept = kept_of(rt, &db, &mut one);
    let mut one = Some(one);
    let mut two = Some(two);
    let mut three = Some(three);
    let mut four = Some(four);
    let told = four_run(
        rt, alloc, &db, kept, &mut one, &mut two, &mut three, &mut four,
    );
    let last = closed_lent(rt, db, passes, one, two, three, four);
    match told {
        Ok(true) => has_all(alloc, &last),
        told => told,
    }
}

#[test]
fn four_callers_abort_commit_check_and_wait(rt: HostRuntime) -> Result<(), Fail> {
    holds(are_joined(&rt, rt.alloc()))
}
