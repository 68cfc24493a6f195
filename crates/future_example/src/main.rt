//! A wait without a thread that waits: a future over a set of watches, and a writer on its thread.
//!
//! Two callers share one thread. The first watches a service, and its future is polled. The second
//! writes that the service is down, and behind that commit the future is polled again. The schema
//! and the rows are constants of this file and known to be right, so where reading one fails, the
//! error is `AllocError`.
#![tactic(auto)]

ghost use Rattle.std.specs.Prelude.{◌≡◌, ◌<◌, [], IfErr, IfOk, None, length};
ghost use Rattle.mem_txn.specs.CallerOf.{IsCaller};
ghost use Rattle.mem_txn.specs.Checked.{IsHeldBy};
ghost use Rattle.mem_txn.specs.Database.{Caller, reading_of};
ghost use Rattle.mem_txn.specs.Transactions.{txn_of};
ghost use Rattle.watch_future.specs.Futures.{CanBePolled, MayGive, Waits};
ghost use Rattle.watch_future.specs.Polls.{CanPoll};
ghost use Rattle.watch_set.specs.Members.{AreHeldBy, watches_of};

use futures::Future;
use futures::task::{Doorbell, Poll, Solo};
use mdb_datum::{Datum, Items, Row, Text, read_doc};
use mdb_schema::{Ask, Query, Schema, read_schema};
use mem_txn::pass_laws::asked_watches_are_held;
use mem_txn::{BeginRefused, CommitRefused, Committed, Db, Held, Pass, Passes, ReadTxn, WriteTxn};
use std::alloc::{AllocError, AllocGlobal, Global};
use std::io;
use std::random::RandomSource;
use std::sync::Wait;
use watch_future::WatchFuture;
use watch_set::{WatchSet, Woken};

const SCHEMA: &str = r#"{"memdb":1,"tables":{"services":{"indexes":{
    "id":{"unique":true,"indexer":{"kind":"text","field":"name"}}}}}}"#;

const WEB: &str = r#"{"name":"web","state":"up"}"#;

const MAIL: &str = r#"{"name":"mail","state":"up"}"#;

const MAIL_IS_DOWN: &str = r#"{"name":"mail","state":"down"}"#;

/// What was seen: whether the first poll was pending, and what the last one told.
#[derive(Drop)]
struct Seen {
    is_pending: bool,
    woken: Woken,
}

/// Says what was seen.
fn main(rt: HostRuntime) -> io::Result<()> {
    let seen = run(&rt, rt.alloc())?;
    println!(rt; "pending {}, then {:?}", seen.is_pending, seen.woken)
}

/// Creates a database, uses it, and closes it. What went wrong in between is looked at when both
/// passes are back.
fn run<R: Wait + RandomSource + AllocGlobal>(rt: &R, alloc: Global) -> io::Result<Seen> {
    let task = Solo::new(rt, Doorbell::spinning())?;
    let (db, passes, mut one, two) = create(alloc)?;
    let (two, used) = use_both(rt, alloc, &db, &mut one, two, &task);
    drop(close(rt, db, passes, one, two));
    Ok(used?)
}

/// A database, the list of its passes, which is empty then, and the passes of two callers.
fn create(alloc: Global) -> Result<(Db, Passes, Pass, Pass), AllocError>
    ensures one { IfOk result (λ made. IsCaller made.0 1 made.2) }
    ensures two { IfOk result (λ made. IsCaller made.0 2 made.3) }
    ensures both { IfOk result (λ made. made.0.callers ≡ 2) }
    ensures rest { IfOk result (λ made. made.1 ≡ record { passes = []; made = 2 }) }
{
    let (db, mut passes) = Db::create(alloc, schema_of(alloc)?, 2)?;
    match (passes.take(), passes.take()) {
        (Some(one), Some(two)) => Ok((db, passes, one, two)),
        _ => unreachable!(),
    }
}

/// Gives both passes back, and so ends the database: what it has then stays to be read.
fn close<R: Wait>(rt: &R, db: Db, mut passes: Passes, one: Pass, two: Pass) -> ReadTxn
    requires one { IsCaller db 1 one }
    requires two { IsCaller db 2 two }
    requires both { db.callers ≡ 2 }
    requires rest { passes ≡ record { passes = []; made = 2 } }
{
    passes.give(one);
    passes.give(two);
    db.close(rt, passes)
}

/// Writes two services, watches one of them, and polls.
fn use_both<R: Wait>(
    rt: &R,
    alloc: Global,
    db: &Db,
    reader: &mut Pass,
    writer: Pass,
    task: &Solo,
) -> (Pass, Result<Seen, AllocError>)
    requires reader { IsCaller db.now 1 reader.old }
    requires writer { IsCaller db.now 2 writer }
    ensures reader { IsCaller db.now 1 reader.new }
    ensures writer { IsCaller db.now 2 result.0 }
{
    let (writer, web) = insert(rt, alloc, db, writer, WEB);
    let (writer, mail) = insert(rt, alloc, db, writer, MAIL);
    if web.and(mail).is_err() {
        return (writer, Err(AllocError));
    }
    match set_of_mail(rt, alloc, db, reader) {
        Ok(set) => poll_and_write(rt, alloc, db, reader, writer, &set, task),
        Err(AllocError) => (writer, Err(AllocError)),
    }
}

/// Polls a future of the set, writes that the service is down, and polls again. A commit wakes no
/// future, so it is polled behind the commit.
#[tactic(auto, using(watch_future::proofs::SameCaller::same_caller))]
fn poll_and_write<R: Wait>(
    rt: &R,
    alloc: Global,
    db: &Db,
    reader: &mut Pass,
    writer: Pass,
    set: &WatchSet,
    task: &Solo,
) -> (Pass, Result<Seen, AllocError>)
    requires reader { IsCaller db.now 1 reader.old }
    requires writer { IsCaller db.now 2 writer }
    requires can { CanPoll db.now reader.old set.now None }
    ensures reader { IsCaller db.now 1 reader.new }
    ensures writer { IsCaller db.now 2 result.0 }
{
    let future = WatchFuture::new(rt, alloc, db, reader, set, None);
    match poll_once(task, future) {
        Ok(future) => {
            let (writer, down) = insert(rt, alloc, db, writer, MAIL_IS_DOWN);
            let (back, told) = poll_last(task, future);
            let _ = &*back;
            (writer, down.and(outcome(true, told)))
        }
        Err((back, told)) => {
            let _ = &*back;
            (writer, outcome(false, told))
        }
    }
}

/// What was seen, where there was memory.
fn outcome(is_pending: bool, told: Result<Woken, AllocError>) -> Result<Seen, AllocError> {
    let woken = told?;
    Ok(Seen { is_pending, woken })
}

/// What a future gives: the pass that was lent to it, and what it found.
type Given<'a> = (&'a mut Pass, Result<Woken, AllocError>);

/// Polls a future once, and gives it back where it is pending.
fn poll_once<'a, R: Wait>(
    task: &Solo,
    mut future: WatchFuture<'a, R>,
) -> Result<WatchFuture<'a, R>, Given<'a>>
    requires { CanBePolled future }
    ensures ready { IfErr result (MayGive future.entry) }
    ensures waits { IfOk result (Waits future.entry) }
    ensures again { IfOk result CanBePolled }
    ensures same { IfOk result (λ w. (r : _) → MayGive w r → MayGive future.entry r) }
{
    let mut cx = task.begin();
    let polled = future.poll(&mut cx);
    cx.end(&polled);
    match polled {
        Poll::Pending => Ok(future),
        Poll::Ready(given) => {
            let None = future.end() else {
                unreachable!();
            };
            Err(given)
        }
    }
}

/// Polls a future once and ends it. A future that is still pending has the pass, and its end gives
/// it back. That counts as out of memory.
#[tactic(auto, using(watch_future::proofs::Ended::ended_gives))]
fn poll_last<'a, R: Wait>(task: &Solo, future: WatchFuture<'a, R>) -> Given<'a>
    requires { CanBePolled future }
    ensures { MayGive future.entry result }
{
    match poll_once(task, future) {
        Ok(future) => {
            let Some(back) = future.end() else {
                unreachable!();
            };
            (back, Err(AllocError))
        }
        Err(given) => given,
    }
}

/// A set with the watch of the service.
fn set_of_mail<R: Wait>(
    rt: &R,
    alloc: Global,
    db: &Db,
    pass: &mut Pass,
) -> Result<WatchSet, AllocError>
    requires own { IsCaller db.now 1 pass.old }
    ensures own { IsCaller db.now 1 pass.new }
    ensures can { IfOk result (λ s. CanPoll db.now pass.new s None) }
{
    let mail = watch_mail(rt, alloc, db, pass)?;
    set_of(alloc, &mail)
}

/// The watch, in the state after all commits.
fn watch_mail<R: Wait>(rt: &R, alloc: Global, db: &Db, pass: &mut Pass) -> Result<Held, AllocError>
    requires own { IsCaller db.now 1 pass.old }
    ensures own { IsCaller db.now 1 pass.new }
    ensures held { IfOk result (λ h. IsHeldBy pass.new h) }
{
    match db.read(rt, pass) {
        Ok(read) => held_in(alloc, pass, &read),
        Err(_) => Err(AllocError),
    }
}

/// The watch in the state that the caller has read. A law says that a caller holds what it asks
/// there.
fn held_in(alloc: Global, pass: &Pass, read: &ReadTxn) -> Result<Held, AllocError>
    requires { read.now ≡ reading_of pass.now }
    ensures { IfOk result (λ h. IsHeldBy pass.now h) }
{
    asked_watches_are_held(pass);
    let query = by_mail(alloc)?;
    match read.ask_watch(&query) {
        Ok((_, held)) => Ok(held),
        Err(_) => Err(AllocError),
    }
}

/// A set of one watch, under a name.
fn set_of(alloc: Global, held: &Held) -> Result<WatchSet, AllocError>
    ensures some { IfOk result (λ s. 0 < length s) }
    ensures held { IfOk result (λ s. (p : Caller) → IsHeldBy p held.now → AreHeldBy p (watches_of s)) }
{
    let mut set = WatchSet::new(alloc);
    set.add(&Text::of(alloc, "mail")?, held)?;
    Ok(set)
}

/// Puts a row in, as a commit of the second caller. A pass that is owned can't be dropped, so it is
/// given back beside the outcome.
fn insert<R: Wait>(
    rt: &R,
    alloc: Global,
    db: &Db,
    pass: Pass,
    text: &str,
) -> (Pass, Result<(), AllocError>)
    requires own { IsCaller db.now 2 pass }
    ensures { IsCaller db.now 2 result.0 }
{
    let mut txn = match db.write(rt, pass) {
        Ok(txn) => txn,
        Err(BeginRefused { pass, cause: _ }) => return (pass, Err(AllocError)),
    };
    match insert_row(alloc, &mut txn, text) {
        Ok(()) => commit(rt, db, txn),
        Err(AllocError) => (txn.abort(db), Err(AllocError)),
    }
}

/// The row, in a transaction. It borrows the transaction, and may use `?`.
fn insert_row(alloc: Global, txn: &mut WriteTxn<u8>, text: &str) -> Result<(), AllocError>
    ensures { (txn_of txn.new).caller ≡ (txn_of txn.old).caller }
{
    let service = row_of(alloc, text)?;
    match txn.insert("services", &service) {
        Ok(_) => Ok(()),
        Err(_) => Err(AllocError),
    }
}

/// Commits a transaction.
fn commit<R: Wait>(rt: &R, db: &Db, txn: WriteTxn<u8>) -> (Pass, Result<(), AllocError>)
    requires own { IsCaller db.now 2 (txn_of txn).caller }
    ensures { IsCaller db.now 2 result.0 }
{
    match txn.commit(rt, db) {
        Ok(Committed { pass, receipt: _ }) => (pass, Ok(())),
        Err(CommitRefused { pass, cause: _ }) => (pass, Err(AllocError)),
    }
}

/// The question for the service.
fn by_mail(alloc: Global) -> Result<Query, AllocError> {
    let args = args_of(alloc, r#"["mail"]"#)?;
    let table = Text::of(alloc, "services")?;
    let index = Text::of(alloc, "id")?;
    Query::from_parts(alloc, Ask::First, table, index, args)
}

/// The schema.
fn schema_of(alloc: Global) -> Result<Schema, AllocError> {
    match read_schema(alloc, SCHEMA.as_bytes()) {
        Ok(schema) => Ok(schema),
        Err(_) => Err(AllocError),
    }
}

/// The row that a text is.
fn row_of(alloc: Global, text: &str) -> Result<Row, AllocError> {
    match read_doc(alloc, text.as_bytes()) {
        Ok(Datum::Members(members)) => Row::of(alloc, members),
        _ => Err(AllocError),
    }
}

/// The arguments that a text lists.
fn args_of(alloc: Global, text: &str) -> Result<Items, AllocError> {
    match read_doc(alloc, text.as_bytes()) {
        Ok(Datum::Items(items)) => Ok(items),
        _ => Err(AllocError),
    }
}
