//! A database of three callers, of which the second writes, and what the others wait for.
ghost use Rattle.std.specs.Prelude.{◌≡◌, ◌<◌, [], IfOk, IfSome, length};
ghost use Rattle.mem_txn.specs.CallerOf.{IsCaller};
ghost use Rattle.mem_txn.specs.Checked.{IsHeldBy};
ghost use Rattle.mem_txn.specs.Database.{Caller, IsOf, reading_of};
ghost use Rattle.mem_txn.specs.Transactions.{txn_of};
ghost use Rattle.watch_future.specs.Polls.{CanPoll};
ghost use Rattle.watch_set.specs.Checks.{KeepsHeld};
ghost use Rattle.watch_set.specs.Members.{AreHeldBy, watches_of};

use mdb_datum::{Datum, Items, Row, Text, read_doc};
use mdb_schema::{Ask, Query, Schema, read_schema};
use mem_txn::pass_laws::{asked_watches_are_held, held_watches_stay};
use mem_txn::{BeginRefused, CommitRefused, Committed, Db, Held, Pass, Passes, ReadTxn, WriteTxn};
use std::alloc::{AllocError, Global};
use std::sync::Wait;
use std::test::Fail;
use watch_set::WatchSet;

const SCHEMA: &str = r#"{"memdb":1,"tables":{
    "notes":{"indexes":{"id":{"unique":true,"indexer":{"kind":"text","field":"name"}}}},
    "users":{"indexes":{"age":{"indexer":{"kind":"uint","field":"age","width":2}},
    "id":{"unique":true,"indexer":{"kind":"text","field":"name"}}}}}}"#;

/// What is asked of the index `id` of a table, and with which arguments.
pub(crate) type Asked<'a> = (Ask, &'static str, &'a str);

const ANN: Asked<'static> = (Ask::First, "users", r#"["ann"]"#);

const NOTES: Asked<'static> = (Ask::Get, "notes", "[]");

/// Whether a step did what it should. A text that can't be read counts as want of memory, which ends
/// a test.
pub(crate) type Told = Result<bool, AllocError>;

/// A row of a table.
pub(crate) type Line<'a> = (&'static str, &'a str);

pub(crate) const INSERT_ANN: Line<'static> = ("users", r#"{"name":"ann","age":1}"#);

pub(crate) const OLDER_ANN: Line<'static> = ("users", r#"{"name":"ann","age":2}"#);

pub(crate) const INSERT_NOTE: Line<'static> = ("notes", r#"{"name":"n"}"#);

/// Fails where it isn't so, or where there was no memory to find out.
pub(crate) fn holds(told: Told) -> Result<(), Fail> {
    match told? {
        true => Ok(()),
        false => Err(Fail::new("it isn't so")),
    }
}

/// The schema that a text is.
fn schema_of(alloc: Global) -> Result<Schema, AllocError> {
    match read_schema(alloc, SCHEMA.as_bytes()) {
        Ok(schema) => Ok(schema),
        Err(_) => Err(AllocError),
    }
}

/// The row that a text is.
fn row_of(alloc: Global, text: &str) -> Result<Row, AllocError> {
    match read_doc(alloc, text.as_bytes()) {
        Ok(Datum::Members(members)) => Row::of(alloc, members),
        _ => Err(AllocError),
    }
}

/// The question with these arguments.
fn query_with(alloc: Global, asked: &Asked, args: Items) -> Result<Query, AllocError> {
    let table = Text::of(alloc, asked.1)?;
    let index = Text::of(alloc, "id")?;
    Query::from_parts(alloc, asked.0, table, index, args)
}

/// A question of the table.
fn query_of(alloc: Global, asked: &Asked) -> Result<Query, AllocError> {
    match read_doc(alloc, asked.2.as_bytes()) {
        Ok(Datum::Items(args)) => query_with(alloc, asked, args),
        _ => Err(AllocError),
    }
}

/// A database of three callers, the list of its passes without them, and they.
pub(crate) fn trio(alloc: Global) -> Result<(Db, Passes, Pass, Pass, Pass), AllocError>
    ensures one { IfOk result (λ made. IsCaller made.0 1 made.2) }
    ensures two { IfOk result (λ made. IsCaller made.0 2 made.3) }
    ensures three { IfOk result (λ made. IsCaller made.0 3 made.4) }
    ensures all { IfOk result (λ made. made.0.callers ≡ 3) }
    ensures rest { IfOk result (λ made. made.1 ≡ record { passes = []; made = 3 }) }
{
    let (db, mut passes) = Db::create(alloc, schema_of(alloc)?, 3)?;
    match (passes.take(), passes.take(), passes.take()) {
        (Some(one), Some(two), Some(three)) => Ok((db, passes, one, two, three)),
        _ => unreachable!(),
    }
}

/// The last state, when all three passes are back.
pub(crate) fn closed<R: Wait>(
    rt: &R,
    db: Db,
    mut passes: Passes,
    one: Pass,
    two: Pass,
    three: Pass,
) -> ReadTxn
    requires one { IsCaller db 1 one }
    requires two { IsCaller db 2 two }
    requires three { IsCaller db 3 three }
    requires all { db.callers ≡ 3 }
    requires rest { passes ≡ record { passes = []; made = 3 } }
{
    passes.give(one);
    passes.give(two);
    passes.give(three);
    db.close(rt, passes)
}

/// Puts the row of a line in.
fn insert_row(alloc: Global, txn: &mut WriteTxn<u8>, line: &Line) -> Result<(), AllocError>
    ensures { (txn_of txn.new).caller ≡ (txn_of txn.old).caller }
{
    let row = row_of(alloc, line.1)?;
    match txn.insert(line.0, &row) {
        Ok(_) => Ok(()),
        Err(_) => Err(AllocError),
    }
}

/// Commits a transaction of the second caller.
fn committed<R: Wait>(rt: &R, db: &Db, txn: WriteTxn<u8>) -> (Pass, Result<(), AllocError>)
    requires own { IsCaller db.now 2 (txn_of txn).caller }
    ensures { IsCaller db.now 2 result.0 }
{
    match txn.commit(rt, db) {
        Ok(Committed { pass, receipt: _ }) => (pass, Ok(())),
        Err(CommitRefused { pass, cause: _ }) => (pass, Err(AllocError)),
    }
}

/// Makes the insert of a row a commit of the second caller.
pub(crate) fn insert<R: Wait>(
    rt: &R,
    alloc: Global,
    db: &Db,
    pass: Pass,
    line: &Line,
) -> (Pass, Result<(), AllocError>)
    requires own { IsCaller db.now 2 pass }
    ensures { IsCaller db.now 2 result.0 }
{
    let mut txn = match db.write(rt, pass) {
        Ok(txn) => txn,
        Err(BeginRefused { pass, cause: _ }) => return (pass, Err(AllocError)),
    };
    match insert_row(alloc, &mut txn, line) {
        Ok(()) => committed(rt, db, txn),
        Err(AllocError) => (txn.abort(db), Err(AllocError)),
    }
}

/// The watch of a question in the state that a caller has read.
fn watch_of(alloc: Global, pass: &Pass, read: &ReadTxn, asked: &Asked) -> Result<Held, AllocError>
    requires { read.now ≡ reading_of pass.now }
    ensures { IfOk result (λ h. IsHeldBy pass.now h) }
{
    asked_watches_are_held(pass);
    let query = query_of(alloc, asked)?;
    match read.ask_watch(&query) {
        Ok((_, held)) => Ok(held),
        Err(_) => Err(AllocError),
    }
}

/// The same in the state after all commits.
pub(crate) fn watch_now<R: Wait>(
    rt: &R,
    alloc: Global,
    db: &Db,
    pass: &mut Pass,
    asked: &Asked,
) -> Result<Held, AllocError>
    requires own { IsOf db.now pass.old }
    ensures own { IsCaller db.now pass.old.number pass.new }
    ensures held { IfOk result (λ h. IsHeldBy pass.new h) }
    ensures keeps { KeepsHeld pass.old pass.new }
{
    let read = db.read(rt, pass);
    held_watches_stay(pass);
    match read {
        Ok(read) => watch_of(alloc, pass, &read, asked),
        Err(_) => Err(AllocError),
    }
}

/// A set of one watch.
pub(crate) fn set_of(alloc: Global, held: &Held) -> Result<WatchSet, AllocError>
    ensures some { IfOk result (λ s. 0 < length s) }
    ensures held { IfOk result (λ s. (p : Caller) → IsHeldBy p held.now → AreHeldBy p (watches_of s)) }
{
    let mut set = WatchSet::new(alloc);
    set.add(&Text::of(alloc, "a")?, held)?;
    Ok(set)
}

/// A set of two watches.
fn set_of_both(alloc: Global, first: &Held, second: &Held) -> Result<WatchSet, AllocError>
    ensures some { IfOk result (λ s. 0 < length s) }
    ensures held { IfOk result (λ s. (p : Caller) → IsHeldBy p first.now → IsHeldBy p second.now
        → AreHeldBy p (watches_of s)) }
{
    let mut set = set_of(alloc, first)?;
    set.add(&Text::of(alloc, "b")?, second)?;
    Ok(set)
}

/// What a caller waits for: a set, and what cancels, if anything.
#[derive(Drop)]
pub(crate) struct Awaited {
    pub(crate) set: WatchSet,
    pub(crate) notes: Option<Held>,
}

/// The watch of the notes, if they are to cancel.
fn cancel_now<R: Wait>(
    rt: &R,
    alloc: Global,
    db: &Db,
    pass: &mut Pass,
    cancels: bool,
) -> Result<Option<Held>, AllocError>
    requires own { IsOf db.now pass.old }
    ensures own { IsCaller db.now pass.old.number pass.new }
    ensures held { IfOk result (λ o. IfSome o (IsHeldBy pass.new)) }
    ensures keeps { KeepsHeld pass.old pass.new }
{
    if !cancels {
        return Ok(None);
    }
    match watch_now(rt, alloc, db, pass, &NOTES) {
        Ok(notes) => Ok(Some(notes)),
        Err(AllocError) => Err(AllocError),
    }
}

/// The set of `ann`, and what cancels, in the state after all commits.
pub(crate) fn awaited_now<R: Wait>(
    rt: &R,
    alloc: Global,
    db: &Db,
    pass: &mut Pass,
    cancels: bool,
) -> Result<Awaited, AllocError>
    requires own { IsOf db.now pass.old }
    ensures own { IsCaller db.now pass.old.number pass.new }
    ensures can { IfOk result (λ w. CanPoll db.now pass.new w.set w.notes) }
{
    let ann = watch_now(rt, alloc, db, pass, &ANN)?;
    let notes = cancel_now(rt, alloc, db, pass, cancels)?;
    match set_of(alloc, &ann) {
        Ok(set) => Ok(Awaited { set, notes }),
        Err(AllocError) => Err(AllocError),
    }
}

/// The set of the notes and of `ann`, in the state after all commits.
pub(crate) fn both_now<R: Wait>(
    rt: &R,
    alloc: Global,
    db: &Db,
    pass: &mut Pass,
) -> Result<Awaited, AllocError>
    requires own { IsOf db.now pass.old }
    ensures own { IsCaller db.now pass.old.number pass.new }
    ensures can { IfOk result (λ w. CanPoll db.now pass.new w.set w.notes) }
{
    let notes = watch_now(rt, alloc, db, pass, &NOTES)?;
    let ann = watch_now(rt, alloc, db, pass, &ANN)?;
    match set_of_both(alloc, &notes, &ann) {
        Ok(set) => Ok(Awaited { set, notes: None }),
        Err(AllocError) => Err(AllocError),
    }
}
