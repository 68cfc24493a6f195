//! A database as a library: it is created, written, read, watched, waited for and closed.
//!
//! Two callers write at the same time, each on a thread of its own. Then one of them reads and
//! watches, and the other writes. The schema and the rows are constants of this file and known to be
//! right, so where reading one fails, the error is `AllocError`.
#![tactic(auto)]

ghost use Rattle.std.specs.Prelude.{◌≡◌, [], IfOk, Some};
ghost use Rattle.mem_txn.specs.Checked.{IsHeldBy};
ghost use Rattle.mem_txn.specs.Database.{Caller, IsOf, reading_of};
ghost use Rattle.mem_txn.specs.CallerOf.{IsCaller};
ghost use Rattle.mem_txn.specs.Transactions.{txn_of};
ghost use Rattle.watch_set.specs.Members.{AreHeldBy, watches_of};

use mdb_datum::{Datum, Items, Row, Text, read_doc};
use mdb_schema::{Answer, Ask, Query, Schema, read_schema};
use mem_txn::pass_laws::asked_watches_are_held;
use mem_txn::{BeginRefused, CommitRefused, Committed, Db, Held, Pass, Passes, ReadTxn, WriteTxn};
use std::alloc::{AllocError, Global};
use std::io;
use std::sync::Wait;
use std::thread::{Threads, join_mut};
use watch_set::{WatchSet, Woken};

const SCHEMA: &str = r#"{"memdb":1,"tables":{"books":{"indexes":{
    "author":{"indexer":{"kind":"text","field":"author"}},
    "id":{"unique":true,"indexer":{"kind":"text","field":"isbn"}}}}}}"#;

const AUSTEN: &str = r#"{"isbn":"0141439513","author":"Austen"}"#;

const BRONTE: &str = r#"{"isbn":"0141439556","author":"Bronte"}"#;

const ELIOT: &str = r#"{"isbn":"0141439540","author":"Eliot"}"#;

/// What was seen: how many books by Eliot there were at first and at the end, and what ended the
/// wait.
#[derive(Drop)]
struct Seen {
    before: usize,
    woken: Woken,
    at_end: usize,
}

/// What the reader has: how many books by Eliot there are, and a set with a watch of that answer.
#[derive(Drop)]
struct Watched {
    before: usize,
    set: WatchSet,
}

/// Says what was seen.
fn main(rt: HostRuntime) -> io::Result<()> {
    match run(&rt, rt.alloc()) {
        Ok(seen) => println!(rt; "{} {:?} {}", seen.before, seen.woken, seen.at_end),
        Err(AllocError) => println!(rt; "there was not enough memory"),
    }
}

/// Creates a database, uses it, and closes it. What went wrong in between is looked at when both
/// passes are back.
fn run<R: Threads + Wait + Sync>(rt: &R, alloc: Global) -> Result<Seen, AllocError> {
    let (db, passes, one, two) = create(alloc)?;
    let (one, two, used) = use_both(rt, alloc, &db, one, two);
    let last = close(rt, db, passes, one, two);
    let (before, woken) = used?;
    let at_end = count(alloc, &last)?;
    Ok(Seen {
        before,
        woken,
        at_end,
    })
}

/// A database, the list of its passes, which is empty then, and the passes of two callers.
fn create(alloc: Global) -> Result<(Db, Passes, Pass, Pass), AllocError>
    ensures one { IfOk result (λ made. IsCaller made.0 1 made.2) }
    ensures two { IfOk result (λ made. IsCaller made.0 2 made.3) }
    ensures both { IfOk result (λ made. made.0.callers ≡ 2) }
    ensures rest { IfOk result (λ made. made.1 ≡ record { passes = []; made = 2 }) }
{
    let (db, mut passes) = Db::create(alloc, schema_of(alloc)?, 2)?;
    match (passes.take(), passes.take()) {
        (Some(one), Some(two)) => Ok((db, passes, one, two)),
        _ => unreachable!(),
    }
}

/// Gives both passes back, and so ends the database: what it has then stays to be read.
fn close<R: Wait>(rt: &R, db: Db, mut passes: Passes, one: Pass, two: Pass) -> ReadTxn
    requires one { IsCaller db 1 one }
    requires two { IsCaller db 2 two }
    requires both { db.callers ≡ 2 }
    requires rest { passes ≡ record { passes = []; made = 2 } }
{
    passes.give(one);
    passes.give(two);
    db.close(rt, passes)
}

/// Writes on two threads, and then watches and waits while another row is written. A pass that is
/// owned can't be dropped, so both are given back beside the outcome, and there is no `?` while one
/// is held.
fn use_both<R: Threads + Wait + Sync>(
    rt: &R,
    alloc: Global,
    db: &Db,
    one: Pass,
    two: Pass,
) -> (Pass, Pass, Result<(usize, Woken), AllocError>)
    requires one { IsCaller db.now 1 one }
    requires two { IsCaller db.now 2 two }
    ensures one { IsCaller db.now 1 result.0 }
    ensures two { IsCaller db.now 2 result.1 }
{
    let mut one = Some(one);
    let mut two = Some(two);
    let begun = insert_both(rt, alloc, db, &mut one, &mut two);
    match (one, two) {
        (Some(mut one), Some(two)) => {
            let (two, used) = match begun {
                Ok(()) => watch_and_wait(rt, alloc, db, &mut one, two),
                Err(AllocError) => (two, Err(AllocError)),
            };
            (one, two, used)
        }
        _ => unreachable!(),
    }
}

/// A row of each caller, put in on a thread of the caller's own. A thread borrows a pass in an
/// `Option`: it takes the pass out, and puts back the one that it is given in the end.
fn insert_both<R: Threads + Wait + Sync>(
    rt: &R,
    alloc: Global,
    db: &Db,
    one: &mut Option<Pass>,
    two: &mut Option<Pass>,
) -> Result<(), AllocError>
    requires one { (p : Caller) × (one.old ≡ Some p) × IsCaller db.now 1 p }
    requires two { (p : Caller) × (two.old ≡ Some p) × IsCaller db.now 2 p }
    ensures one { (p : Caller) × (one.new ≡ Some p) × IsCaller db.now 1 p }
    ensures two { (p : Caller) × (two.new ≡ Some p) × IsCaller db.now 2 p }
{
    let (first, second) = join_mut(
        rt,
        &mut || -> Result<(), AllocError>
            requires { (p : Caller) × (one.now ≡ Some p) × IsCaller db.now 1 p }
            ensures { (p : Caller) × (one.exit.now ≡ Some p) × IsCaller db.entry.now 1 p }
        { insert_lent(rt, alloc, db, one, AUSTEN) },
        &mut || -> Result<(), AllocError>
            requires { (p : Caller) × (two.now ≡ Some p) × IsCaller db.now 2 p }
            ensures { (p : Caller) × (two.exit.now ≡ Some p) × IsCaller db.entry.now 2 p }
        { insert_lent(rt, alloc, db, two, BRONTE) },
    );
    first.and(second)
}

/// The row, as a commit of the caller whose pass is lent.
fn insert_lent<R: Wait>(
    rt: &R,
    alloc: Global,
    db: &Db,
    lent: &mut Option<Pass>,
    text: &str,
) -> Result<(), AllocError>
    requires { (p : Caller) × (lent.old ≡ Some p) × IsOf db.now p }
    ensures { (p : Caller) → lent.old ≡ Some p
        → (q : Caller) × (lent.new ≡ Some q) × IsCaller db.now p.number q }
{
    let Some(pass) = lent.take() else {
        unreachable!();
    };
    let (pass, told) = insert(rt, alloc, db, pass, text);
    let gone = lent.replace(pass);
    let None = gone else {
        unreachable!();
    };
    told
}

/// The row, as a commit of a caller.
fn insert<R: Wait>(
    rt: &R,
    alloc: Global,
    db: &Db,
    pass: Pass,
    text: &str,
) -> (Pass, Result<(), AllocError>)
    requires own { IsOf db.now pass }
    ensures { IsCaller db.now pass.number result.0 }
{
    let mut txn = match db.write(rt, pass) {
        Ok(txn) => txn,
        Err(BeginRefused { pass, cause: _ }) => return (pass, Err(AllocError)),
    };
    match insert_row(alloc, &mut txn, text) {
        Ok(()) => commit(rt, db, txn),
        Err(AllocError) => (txn.abort(db), Err(AllocError)),
    }
}

/// The row, in a transaction. It borrows the transaction, and may use `?`.
fn insert_row(alloc: Global, txn: &mut WriteTxn<u8>, text: &str) -> Result<(), AllocError>
    ensures { (txn_of txn.new).caller ≡ (txn_of txn.old).caller }
{
    let book = row_of(alloc, text)?;
    match txn.insert("books", &book) {
        Ok(_) => Ok(()),
        Err(_) => Err(AllocError),
    }
}

/// Commits a transaction. Its receipt has the number of the commit.
fn commit<R: Wait>(rt: &R, db: &Db, txn: WriteTxn<u8>) -> (Pass, Result<(), AllocError>)
    requires own { let caller = (txn_of txn).caller in IsOf db.now caller }
    ensures { let caller = (txn_of txn).caller in IsCaller db.now caller.number result.0 }
{
    match txn.commit(rt, db) {
        Ok(Committed { pass, receipt: _ }) => (pass, Ok(())),
        Err(CommitRefused { pass, cause: _ }) => (pass, Err(AllocError)),
    }
}

/// Watches for a row, and waits while it is written.
fn watch_and_wait<R: Wait>(
    rt: &R,
    alloc: Global,
    db: &Db,
    reader: &mut Pass,
    writer: Pass,
) -> (Pass, Result<(usize, Woken), AllocError>)
    requires reader { IsCaller db.now 1 reader.old }
    requires writer { IsCaller db.now 2 writer }
    ensures reader { IsCaller db.now 1 reader.new }
    ensures writer { IsCaller db.now 2 result.0 }
{
    match watch(rt, alloc, db, reader) {
        Ok(watched) => write_and_wait(rt, alloc, db, reader, writer, &watched),
        Err(AllocError) => (writer, Err(AllocError)),
    }
}

/// How many books by Eliot there are now, with a watch of that answer.
fn watch<R: Wait>(rt: &R, alloc: Global, db: &Db, pass: &mut Pass) -> Result<Watched, AllocError>
    requires own { IsCaller db.now 1 pass.old }
    ensures own { IsCaller db.now 1 pass.new }
    ensures held { IfOk result (λ w. AreHeldBy pass.new (watches_of w.set)) }
{
    match db.read(rt, pass) {
        Ok(read) => watch_in(alloc, pass, &read),
        Err(_) => Err(AllocError),
    }
}

/// The same in the state that the caller has read.
fn watch_in(alloc: Global, pass: &Pass, read: &ReadTxn) -> Result<Watched, AllocError>
    requires { read.now ≡ reading_of pass.now }
    ensures { IfOk result (λ w. AreHeldBy pass.now (watches_of w.set)) }
{
    let before = count(alloc, read)?;
    let held = held_in(alloc, pass, read)?;
    let set = set_of(alloc, &held)?;
    Ok(Watched { before, set })
}

/// The watch alone. A law says that a caller holds what it asks in the state that it has read.
fn held_in(alloc: Global, pass: &Pass, read: &ReadTxn) -> Result<Held, AllocError>
    requires { read.now ≡ reading_of pass.now }
    ensures { IfOk result (λ h. IsHeldBy pass.now h) }
{
    asked_watches_are_held(pass);
    let query = by_eliot(alloc)?;
    match read.ask_watch(&query) {
        Ok((_, held)) => Ok(held),
        Err(_) => Err(AllocError),
    }
}

/// A set of one watch, under a name.
fn set_of(alloc: Global, held: &Held) -> Result<WatchSet, AllocError>
    ensures { IfOk result (λ s. (p : Caller) → IsHeldBy p held.now → AreHeldBy p (watches_of s)) }
{
    let mut set = WatchSet::new(alloc);
    set.add(&Text::of(alloc, "eliot")?, held)?;
    Ok(set)
}

/// Writes the row that the watch is for, and waits for the set.
fn write_and_wait<R: Wait>(
    rt: &R,
    alloc: Global,
    db: &Db,
    reader: &mut Pass,
    writer: Pass,
    watched: &Watched,
) -> (Pass, Result<(usize, Woken), AllocError>)
    requires reader { IsCaller db.now 1 reader.old }
    requires writer { IsCaller db.now 2 writer }
    requires held { let set = watched.now.set in AreHeldBy reader.old (watches_of set) }
    ensures reader { IsCaller db.now 1 reader.new }
    ensures writer { IsCaller db.now 2 result.0 }
{
    let (writer, eliot) = insert(rt, alloc, db, writer, ELIOT);
    if eliot.is_err() {
        return (writer, Err(AllocError));
    }
    match wait(rt, db, reader, &watched.set) {
        Ok(woken) => (writer, Ok((watched.before, woken))),
        Err(AllocError) => (writer, Err(AllocError)),
    }
}

/// Waits until a member has fired. A set without members would wait for ever.
fn wait<R: Wait>(rt: &R, db: &Db, pass: &mut Pass, set: &WatchSet) -> Result<Woken, AllocError>
    requires own { IsCaller db.now 1 pass.old }
    requires held { AreHeldBy pass.old (watches_of set.now) }
    ensures { IsCaller db.now 1 pass.new }
{
    if set.len() == 0 {
        return Err(AllocError);
    }
    set.wait(rt, db, pass, None)
}

/// How many books by Eliot there are in a state.
fn count(alloc: Global, read: &ReadTxn) -> Result<usize, AllocError> {
    let query = by_eliot(alloc)?;
    match read.ask(&query) {
        Ok(Answer::Many(rows)) => Ok(rows.len()),
        _ => Err(AllocError),
    }
}

/// The question for the books by Eliot.
fn by_eliot(alloc: Global) -> Result<Query, AllocError> {
    let args = args_of(alloc, r#"["Eliot"]"#)?;
    let table = Text::of(alloc, "books")?;
    let index = Text::of(alloc, "author")?;
    Query::from_parts(alloc, Ask::Get, table, index, args)
}

/// The schema.
fn schema_of(alloc: Global) -> Result<Schema, AllocError> {
    match read_schema(alloc, SCHEMA.as_bytes()) {
        Ok(schema) => Ok(schema),
        Err(_) => Err(AllocError),
    }
}

/// The row that a text is.
fn row_of(alloc: Global, text: &str) -> Result<Row, AllocError> {
    match read_doc(alloc, text.as_bytes()) {
        Ok(Datum::Members(members)) => Row::of(alloc, members),
        _ => Err(AllocError),
    }
}

/// The arguments that a text lists.
fn args_of(alloc: Global, text: &str) -> Result<Items, AllocError> {
    match read_doc(alloc, text.as_bytes()) {
        Ok(Datum::Items(items)) => Ok(items),
        _ => Err(AllocError),
    }
}
