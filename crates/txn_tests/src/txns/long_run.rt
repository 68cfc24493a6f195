//! Thousands of transactions on a database and on plain lists, which answer the same, with forty
//! held watches. After each transaction a watch has fired exactly where its question has
//! another cell, and else the answer is as it was. A commit tells the difference of a tracked table.
ghost use Rattle.std.specs.Prelude.{◌≡◌};
ghost use Rattle.mem_txn.specs.Transactions.{txn_of};

use super::drawn::{Drawn, Plain, QUESTIONS, listed, wipe_plain};
use super::steps::{Asked, is_deleted, is_kept, is_own, is_put, is_read, is_wiped};
use super::tracked::{TRACKED_USERS, are_different};
use super::watches::watched_of;
use super::{Question, Rounds, SCHEMA, Told, Txn, Work, are_both, holds, plays, query_of, told_of};
use mdb_schema::{Ask, Query};
use mem_txn::{Held, ReadTxn, Receipt};
use std::alloc::{AllocError, Global};
use std::marker::Model;
use std::sync::Wait;
use std::test::Fail;
use watch_word::Front;

/// Whether a transaction answers a question as the plain lists.
fn ask_both(alloc: Global, plain: &Plain, txn: &mut Txn, asked: &Asked) -> Told
    ensures { (txn_of txn.new).caller ≡ (txn_of txn.old).caller }
{
    is_own(alloc, txn, &asked.0, &listed(alloc, plain, asked)?)
}

/// Whether the snapshot of a transaction does.
fn snapshot_both(alloc: Global, plain: &Plain, txn: &mut Txn, asked: &Asked) -> Told
    ensures { (txn_of txn.new).caller ≡ (txn_of txn.old).caller }
{
    match txn.snapshot() {
        Ok(kept) => is_kept(alloc, &kept, &asked.0, &listed(alloc, plain, asked)?),
        Err(_) => Err(AllocError),
    }
}

/// Whether a read transaction answers each question as the plain lists.
pub fn are_read(alloc: Global, read: &ReadTxn, plain: &Plain) -> Told {
    for asked in &QUESTIONS {
        if !is_read(alloc, read, &asked.0, &listed(alloc, plain, asked)?)? {
            return Ok(false);
        }
    }
    Ok(true)
}

/// Whether a drawn operation is answered alike.
fn operate(alloc: Global, drawn: &mut Drawn, txn: &mut Txn) -> Told
    ensures { (txn_of txn.new).caller ≡ (txn_of txn.old).caller }
{
    let asked = drawn.random.question();
    match drawn.random.below(12) {
        0 => is_wiped(alloc, txn, &asked.0, wipe_plain(&mut drawn.plain, asked)),
        1 => ask_both(alloc, &drawn.plain, txn, asked),
        2 => snapshot_both(alloc, &drawn.plain, txn, asked),
        3..=5 => is_deleted(alloc, txn, &drawn.line(false)),
        _ => is_put(alloc, txn, &drawn.line(true)),
    }
}

/// Whether some operations are answered alike.
fn operate_often(alloc: Global, drawn: &mut Drawn, txn: &mut Txn) -> Told
    ensures { (txn_of txn.new).caller ≡ (txn_of txn.old).caller }
{
    for _ in 0..drawn.random.below(6) {
        if !operate(alloc, drawn, txn)? {
            return Ok(false);
        }
    }
    Ok(true)
}

/// The questions that are watched, each twice.
static ASKED: [Question; 20] = [
    (Ask::First, "users", "id", r#"["a"]"#),
    (Ask::First, "users", "id", r#"["ab"]"#),
    (Ask::Last, "users", "id", r#"["abc"]"#),
    (Ask::First, "users", "id", r#"["b"]"#),
    (Ask::First, "users", "id", r#"["ba"]"#),
    (Ask::First, "users", "id", r#"["c"]"#),
    (Ask::First, "users", "id", r#"["abcd"]"#),
    (Ask::First, "users", "id", r#"[]"#),
    (Ask::Last, "users", "id", r#"[]"#),
    (Ask::Get, "users", "id", r#"["ab"]"#),
    (Ask::Get, "users", "id_prefix", r#"["a"]"#),
    (Ask::Get, "users", "id_prefix", r#"["ab"]"#),
    (Ask::GetReverse, "users", "id_prefix", r#"["b"]"#),
    (Ask::Get, "users", "id", r#"[]"#),
    (Ask::Get, "users", "age", r#"[1]"#),
    (Ask::Get, "users", "age", r#"[2]"#),
    (Ask::Last, "users", "age", r#"[3]"#),
    (Ask::Get, "notes", "id", r#"[]"#),
    (Ask::First, "notes", "id", r#"["ab"]"#),
    (Ask::Get, "notes", "id_prefix", r#"["a"]"#),
];

/// A held watch with a log of its book, and the answer that it was given; seen as the watch.
#[derive(Drop)]
pub struct HeldAnswer {
    held: Held,
    log: Front,
    told: Vec<u8>,
}

impl Model for HeldAnswer {
    ghost use Rattle.mem_txn.specs.Held.{HeldWatch};
    ghost use Rattle.mem_txn.specs.HeldCode.{held_code};
    ghost use Rattle.std.specs.Prelude.{◌≡◌};

    ghost Value = { HeldWatch };

    ghost coded = { held_code };

    ghost view = { λ k. k.held };

    ghost invariant = { λ k. let h = k.held in let spot = h.spot in let cell = spot.watch in
        let log = k.log in cell.book ≡ log.book };
}

/// The watch of a question in a state, whose log is of the same book.
fn watch_of(
    alloc: Global,
    read: &ReadTxn,
    log: &Front,
    query: &Query,
) -> Result<HeldAnswer, AllocError>
    requires { log.now.book ≡ read.now.book }
{
    let (answer, held) = watched_of(read, query)?;
    let log = log.share();
    match told_of(alloc, &answer) {
        Ok(told) => Ok(HeldAnswer { held, log, told }),
        Err(AllocError) => Err(AllocError),
    }
}

/// Holds the watch of a question of the list.
fn hold_asked(
    alloc: Global,
    watches: &mut Vec<HeldAnswer>,
    read: &ReadTxn,
    log: &Front,
    question: &Question,
) -> Result<(), AllocError>
    requires { log.now.book ≡ read.now.book }
{
    let query = query_of(alloc, question)?;
    let held = watch_of(alloc, read, log, &query)?;
    Ok(watches.push(held)?)
}

/// Whether a watch has fired exactly where its question has another cell now, and else its answer
/// is as it was.
fn is_right(kept: &HeldAnswer, next: &HeldAnswer) -> bool {
    let fired = kept.held.watch().moved(&kept.log).fired;
    fired == (next.held.id() != kept.held.id())
        && (fired || next.told.as_slice() == kept.told.as_slice())
}

/// Holds the next watch of a question, where it has another cell or where that is said.
fn hold_next(kept: &mut HeldAnswer, next: HeldAnswer, anew: bool) {
    if anew || next.held.id() != kept.held.id() {
        *kept = next;
    }
}

/// Whether a watch is right. One that has fired is held anew, and so is another where that is said.
fn is_right_now(
    alloc: Global,
    kept: &mut HeldAnswer,
    read: &ReadTxn,
    log: &Front,
    anew: bool,
) -> Told
    requires { log.now.book ≡ read.now.book }
{
    let next = watch_of(alloc, read, log, kept.held.query())?;
    let right = is_right(kept, &next);
    hold_next(kept, next, anew);
    Ok(right)
}

/// Whether all watches are right. Those that have fired are held anew, and so is one more.
fn are_right(
    alloc: Global,
    watches: &mut Vec<HeldAnswer>,
    read: &ReadTxn,
    log: &Front,
    turn: usize,
) -> Told
    requires { log.now.book ≡ read.now.book }
{
    for (at, kept) in watches.iter_mut().enumerate() {
        if !is_right_now(alloc, kept, read, log, at == turn)? {
            return Ok(false);
        }
    }
    Ok(true)
}

/// The watches of a state, each question twice.
fn all_kept(alloc: Global, read: &ReadTxn, log: &Front) -> Result<Vec<HeldAnswer>, AllocError>
    requires { log.now.book ≡ read.now.book }
{
    let mut watches = Vec::new(alloc);
    for at in 0..40 {
        hold_asked(alloc, &mut watches, read, log, &ASKED[at % 20])?;
    }
    Ok(watches)
}

/// A snapshot of a snapshot.
pub fn second(read: &ReadTxn) -> Result<ReadTxn, AllocError> {
    let kept = read.snapshot()?;
    kept.snapshot()
}

/// A long run: the rows, and those before the last transaction, whether a commit tells what became
/// of the users, how many transactions and commits there were, the watches that are held, and a
/// state that is kept with its rows.
#[derive(Drop)]
struct Long {
    drawn: Drawn,
    before: Plain,
    tracked: bool,
    turns: usize,
    commits: u64,
    watches: Vec<HeldAnswer>,
    kept: Option<ReadTxn>,
    kept_plain: Plain,
}

impl Long {
    /// Keeps the watches of the state after the first transaction, and a snapshot after a hundred.
    fn keep(&mut self, alloc: Global, read: &ReadTxn, log: &Front) -> Result<(), AllocError>
        requires { log.now.book ≡ read.now.book }
    {
        match self.turns {
            0 => self.watches = all_kept(alloc, read, log)?,
            100 => {
                let plain = self.drawn.plain;
                self.kept = Some(second(read)?);
                self.kept_plain = plain;
            }
            _ => {}
        }
        Ok(())
    }

    /// Whether the state that is kept stays as it is, looked at after each hundred transactions.
    fn is_still(&self, alloc: Global) -> Told {
        match &self.kept {
            Some(read) if self.turns % 100 == 0 => are_read(alloc, read, &self.kept_plain),
            _ => Ok(true),
        }
    }

    /// Whether what is read is as the plain lists, and the state that is kept as before.
    fn is_alike(&self, alloc: Global, read: &ReadTxn) -> Told {
        let alike = are_both(
            are_read(alloc, read, &self.drawn.plain),
            self.is_still(alloc),
        );
        are_both(alike, Ok(read.number() == self.commits))
    }
}

impl Work for Long {
    /// Makes drawn operations. The plain lists are as before where they aren't committed.
    fn run(&mut self, alloc: Global, txn: &mut Txn) -> Told {
        let before = self.drawn.plain;
        self.before = before;
        let commits = self.drawn.random.below(4) != 0;
        if operate_often(alloc, &mut self.drawn, txn) != Ok(true) {
            return Err(AllocError);
        }
        if !commits {
            self.drawn.plain = before;
        }
        Ok(commits)
    }
}

impl Rounds for Long {
    /// Whether a commit tells the difference of a tracked table, and nothing of another.
    fn is_ended(&mut self, _alloc: Global, receipt: Option<Receipt<String>>) -> Told {
        let Some(receipt) = receipt else {
            return Ok(true);
        };
        self.commits = self.commits.saturating_add(1);
        if self.tracked {
            are_different(&receipt.changes, &self.before, &self.drawn.plain)
        } else {
            Ok(receipt.changes.len() == 0)
        }
    }

    /// Whether what is read is as the plain lists, and the watches are right. Of a tracked table only
    /// the commits are looked at.
    fn is_left(&mut self, alloc: Global, read: &ReadTxn, log: &Front) -> Told {
        if self.tracked {
            return Ok(read.number() == self.commits);
        }
        self.keep(alloc, read, log)?;
        self.turns = self.turns.saturating_add(1);
        let right = are_right(alloc, &mut self.watches, read, log, self.turns % 40);
        are_both(right, self.is_alike(alloc, read))
    }
}

/// Whether so many transactions are right in a database of this schema, and three in four of them
/// or so are commits.
fn is_long<R: Wait>(rt: &R, alloc: Global, schema: &str, tracked: bool, count: usize) -> Told {
    let mut long = Long {
        drawn: Drawn::from(u64::from(tracked)),
        before: [None; 12],
        tracked,
        turns: 0,
        commits: 0,
        watches: Vec::new(alloc),
        kept: None,
        kept_plain: [None; 12],
    };
    let told = plays(rt, alloc, schema, &mut long, count);
    Ok(told? && long.commits as usize >= count / 7 * 5)
}

#[test]
fn a_long_run_is_as_on_plain_lists_and_fires_the_cells_that_are_gone(
    rt: HostRuntime,
) -> Result<(), Fail> {
    holds(is_long(&rt, rt.alloc(), SCHEMA, false, 2_100))
}

#[test]
fn drawn_commits_tell_the_difference_of_plain_lists(rt: HostRuntime) -> Result<(), Fail> {
    holds(is_long(&rt, rt.alloc(), TRACKED_USERS, true, 2_800))
}
