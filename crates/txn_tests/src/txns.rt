//! What no clause says: that each call succeeds while there is memory.
ghost use Rattle.std.specs.Prelude.{◌≡◌, [], IfOk, IfSome};
ghost use Rattle.mem_txn.specs.Checked.{IsBeginning};
ghost use Rattle.mem_txn.specs.Database.{IsOf};
ghost use Rattle.mem_txn.specs.CallerOf.{IsCaller};
ghost use Rattle.mem_txn.specs.Transactions.{txn_of};

mod callers;
mod drawn;
mod duo;
mod four_callers;
mod long_run;
mod sets;
mod steps;
mod stories;
mod tracked;
mod watches;
mod without_memory;
mod worked;

use mdb_datum::{Datum, Items, Row, Text, read_doc};
use mdb_schema::{Answer, Ask, Query, Rows, Schema, read_schema};
use mem_txn::{
    BeginRefused, CommitRefused, Committed, Db, Pass, Passes, ReadTxn, Receipt, WriteTxn,
};
use std::alloc::{AllocError, Global};
use std::sync::Wait;
use std::test::Fail;
use watch_word::Front;

static SCHEMA: &str = r#"{"memdb":1,"tables":{
    "notes":{"indexes":{"id":{"unique":true,"indexer":{"kind":"text","field":"name"}}}},
    "users":{"indexes":{"age":{"indexer":{"kind":"uint","field":"age","width":2}},
    "id":{"unique":true,"indexer":{"kind":"text","field":"name"}},
    "mail":{"unique":true,"allow_missing":true,"indexer":{"kind":"text","field":"mail"}},
    "tags":{"allow_missing":true,"indexer":{"kind":"text_list","field":"tags"}}}}}}"#;

/// Whether what was done is right.
type Told = Result<bool, AllocError>;

/// A transaction whose items aren't copied.
type Txn = WriteTxn<String>;

/// What the end of a transaction gives: the receipt of its commit, or nothing after an abort.
type Done = Result<Option<Receipt<String>>, AllocError>;

/// A question: what is asked, of which table and index, with which arguments.
type Question = (Ask, &'static str, &'static str, &'static str);

/// What is done in a transaction.
trait Work {
    /// Does it, and tells whether the transaction is to be committed. A wrong answer counts as want
    /// of memory, which ends a test.
    fn run(&mut self, alloc: Global, txn: &mut Txn) -> Told
        ensures { (txn_of txn.new).caller ≡ (txn_of txn.old).caller };
}

/// Transactions of the first caller, one after the other, each followed by a read.
trait Rounds: Work {
    /// Whether the end of a transaction gives what it should: the receipt of a commit, or nothing
    /// after an abort.
    fn is_ended(&mut self, alloc: Global, receipt: Option<Receipt<String>>) -> Told;

    /// Whether what is read then is right. A log of the same book is given.
    fn is_left(&mut self, alloc: Global, read: &ReadTxn, log: &Front) -> Told
        requires { log.now.book ≡ read.now.book };
}

/// Fails where it isn't so, or where there was no memory to find out.
fn holds(told: Told) -> Result<(), Fail> {
    match told? {
        true => Ok(()),
        false => Err(Fail::new("it isn't so")),
    }
}

/// Whether both of two are so.
fn are_both(first: Told, second: Told) -> Told {
    match first {
        Ok(true) => second,
        first => first,
    }
}

/// The schema that a text is.
fn schema_of(alloc: Global, text: &str) -> Result<Schema, AllocError> {
    match read_schema(alloc, text.as_bytes()) {
        Ok(schema) => Ok(schema),
        Err(_) => Err(AllocError),
    }
}

/// A database of this schema and two callers, the list of its passes without them, and they.
pub fn pair(alloc: Global, schema: &str) -> Result<(Db, Passes, Pass, Pass), AllocError>
    ensures one { IfOk result (λ made. IsCaller made.0 1 made.2) }
    ensures two { IfOk result (λ made. IsCaller made.0 2 made.3) }
    ensures both { IfOk result (λ made. made.0.callers ≡ 2) }
    ensures rest { IfOk result (λ made. made.1 ≡ record { passes = []; made = 2 }) }
{
    let (db, mut passes) = Db::create(alloc, schema_of(alloc, schema)?, 2)?;
    match (passes.take(), passes.take()) {
        (Some(one), Some(two)) => Ok((db, passes, one, two)),
        _ => unreachable!(),
    }
}

/// The last state, when both passes are back.
pub fn closed<R: Wait>(rt: &R, db: Db, mut passes: Passes, one: Pass, two: Pass) -> ReadTxn
    requires one { IsCaller db 1 one }
    requires two { IsCaller db 2 two }
    requires both { db.callers ≡ 2 }
    requires rest { passes ≡ record { passes = []; made = 2 } }
{
    passes.give(one);
    passes.give(two);
    db.close(rt, passes)
}

/// The receipt of a transaction's commit.
fn committed<R: Wait>(rt: &R, db: &Db, txn: Txn) -> (Pass, Done)
    requires own { IsOf db.now (txn_of txn).caller }
    ensures own { IsCaller db.now (txn_of txn).caller.number result.0 }
    ensures more { IsBeginning (txn_of txn).caller result.0 }
    ensures book { let pass = result.0 in
        IfOk result.1 (λ done. IfSome done (λ r. let log = r.log in log.book ≡ pass.book)) }
{
    match txn.commit(rt, db) {
        Ok(Committed { pass, receipt }) => (pass, Ok(Some(receipt))),
        Err(CommitRefused { pass, cause: _ }) => (pass, Err(AllocError)),
    }
}

/// Does some work in a transaction, and ends it by its commit or its abort.
fn work_in<W: Work, R: Wait>(rt: &R, alloc: Global, db: &Db, txn: Txn, work: &mut W) -> (Pass, Done)
    requires own { IsOf db.now (txn_of txn).caller }
    ensures own { IsCaller db.now (txn_of txn).caller.number result.0 }
    ensures more { IsBeginning (txn_of txn).caller result.0 }
    ensures book { let pass = result.0 in
        IfOk result.1 (λ done. IfSome done (λ r. let log = r.log in log.book ≡ pass.book)) }
{
    let mut txn = txn;
    match work.run(alloc, &mut txn) {
        Ok(true) => committed(rt, db, txn),
        Ok(false) => (txn.abort(db), Ok(None)),
        Err(AllocError) => (txn.abort(db), Err(AllocError)),
    }
}

/// Does some work in a new transaction of a caller.
fn transact<W: Work, R: Wait>(
    rt: &R,
    alloc: Global,
    db: &Db,
    pass: Pass,
    work: &mut W,
) -> (Pass, Done)
    requires own { IsOf db.now pass }
    ensures own { IsCaller db.now pass.number result.0 }
    ensures more { IsBeginning pass result.0 }
    ensures book { let after = result.0 in
        IfOk result.1 (λ done. IfSome done (λ r. let log = r.log in log.book ≡ after.book)) }
{
    match db.write(rt, pass) {
        Ok(txn) => work_in(rt, alloc, db, txn, work),
        Err(BeginRefused { pass, cause: _ }) => (pass, Err(AllocError)),
    }
}

/// Whether what a caller reads is right, where the end of its transaction was.
fn is_left_so<W: Rounds, R: Wait>(
    rt: &R,
    alloc: Global,
    db: &Db,
    pass: &mut Pass,
    work: &mut W,
    log: &Front,
    right: Told,
) -> Told
    requires own { IsCaller db.now 1 pass.old }
    requires log { log.now.book ≡ pass.old.book }
    ensures { IsCaller db.now 1 pass.new }
{
    if right != Ok(true) {
        return right;
    }
    let read = db.read(rt, pass)?;
    work.is_left(alloc, &read, log)
}

/// Whether a transaction's end is right, and what a caller reads then, with the log of its commit or
/// else of the database.
fn is_round<W: Rounds, R: Wait>(
    rt: &R,
    alloc: Global,
    db: &Db,
    pass: &mut Pass,
    work: &mut W,
    done: Done,
) -> Told
    requires own { IsCaller db.now 1 pass.old }
    requires log { IfOk done (λ d. IfSome d (λ r. let log = r.log in log.book ≡ pass.old.book)) }
    ensures { IsCaller db.now 1 pass.new }
{
    match done {
        Ok(Some(receipt)) => {
            let log = receipt.log.share();
            let right = work.is_ended(alloc, Some(receipt));
            is_left_so(rt, alloc, db, pass, work, &log, right)
        }
        Ok(None) => {
            let right = work.is_ended(alloc, None);
            is_left_so(rt, alloc, db, pass, work, &db.front(), right)
        }
        Err(AllocError) => Err(AllocError),
    }
}

/// Whether so many transactions of a caller are right, and what is read behind each.
fn are_rounds<W: Rounds, R: Wait>(
    rt: &R,
    alloc: Global,
    db: &Db,
    pass: Pass,
    work: &mut W,
    count: usize,
) -> (Pass, Told)
    requires own { IsCaller db.now 1 pass }
    ensures { IsCaller db.now 1 result.0 }
{
    let mut pass = pass;
    for _ in 0..count {
        let (next, done) = transact(rt, alloc, db, pass, work);
        pass = next;
        match is_round(rt, alloc, db, &mut pass, work, done) {
            Ok(true) => {}
            told => return (pass, told),
        }
    }
    (pass, Ok(true))
}

/// The same in a new database of this schema.
fn plays<W: Rounds, R: Wait>(
    rt: &R,
    alloc: Global,
    schema: &str,
    work: &mut W,
    count: usize,
) -> Told {
    let (db, passes, one, two) = pair(alloc, schema)?;
    let (one, told) = are_rounds(rt, alloc, &db, one, work, count);
    drop(closed(rt, db, passes, one, two));
    told
}

/// Whether a transaction was committed.
fn is_made(done: Done) -> Told {
    match done {
        Ok(receipt) => Ok(receipt.is_some()),
        Err(AllocError) => Err(AllocError),
    }
}

/// The row that a text is. Another text counts as want of memory, which ends a test.
pub fn row_of(alloc: Global, text: &str) -> Result<Row, AllocError> {
    match read_doc(alloc, text.as_bytes()) {
        Ok(Datum::Members(members)) => Row::of(alloc, members),
        _ => Err(AllocError),
    }
}

/// The arguments that a text lists.
fn args_of(alloc: Global, text: &str) -> Result<Items, AllocError> {
    match read_doc(alloc, text.as_bytes()) {
        Ok(Datum::Items(items)) => Ok(items),
        _ => Err(AllocError),
    }
}

/// The question of these words, of an index of a table.
fn query_at(
    alloc: Global,
    ask: Ask,
    table: &Text,
    index: &Text,
    args: &str,
) -> Result<Query, AllocError> {
    Query::of(alloc, ask, table, index, args_of(alloc, args)?)
}

/// The question of these words.
pub fn query_of(alloc: Global, question: &Question) -> Result<Query, AllocError> {
    let table = Text::of(alloc, question.1)?;
    let index = Text::of(alloc, question.2)?;
    query_at(alloc, question.0, &table, &index, question.3)
}

/// Adds a line with a row's text.
fn push_line(row: &Row, text: &mut Vec<u8>) -> Result<(), AllocError> {
    row.append_doc(text)?;
    text.push(b'\n')?;
    Ok(())
}

/// The texts of rows, one a line.
fn lines_of(alloc: Global, rows: &Rows) -> Result<Vec<u8>, AllocError> {
    let mut text = Vec::new(alloc);
    for row in rows.iter() {
        push_line(row, &mut text)?;
    }
    Ok(text)
}

/// The text of an answer: the lines of its rows, or its row, or `none`.
fn told_of(alloc: Global, answer: &Answer) -> Result<Vec<u8>, AllocError> {
    match answer {
        Answer::Many(rows) => lines_of(alloc, rows),
        Answer::One(Some(row)) => Ok(row.doc()?),
        Answer::One(None) => Ok(Vec::from_array(alloc, *b"none")?),
    }
}

/// Whether an answer has this text.
fn is_told(alloc: Global, answer: &Answer, expected: &str) -> Told {
    Ok(told_of(alloc, answer)?.as_slice() == expected.as_bytes())
}
