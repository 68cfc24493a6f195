//! The steps of transactions, each with its answer.
ghost use Rattle.std.specs.Prelude.{◌≡◌};
ghost use Rattle.mem_txn.specs.CallerOf.{IsCaller};
ghost use Rattle.mem_txn.specs.Checked.{IsBeginning};
ghost use Rattle.mem_txn.specs.Database.{IsOf};
ghost use Rattle.mem_txn.specs.Transactions.{txn_of};

use super::{Question, Told, Txn, Work, is_made, is_told, query_of, row_of, transact};
use mdb_datum::Row;
use mdb_schema::{Answer, Ask, AskError, Query, Rows, WriteError};
use mem_txn::{Db, Pass, ReadTxn, Snapshot, TxnAskError, TxnWipeError, TxnWriteError};
use radix_iter::Walk;
use std::alloc::{AllocError, Global};
use std::sync::Wait;

/// A question and its answer.
pub type Asked = (Question, &'static str);

/// A write: its table, its row and its answer. That of a delete is the row taken out.
pub type Line<'a> = (&'static str, &'a str, &'static str);

/// A step of a transaction.
pub enum Step {
    Insert(Line<'static>),
    Delete(Line<'static>),
    /// The rows that a question lists are taken out, and so many are there.
    Wipe(Question, u64),
    Tell(Asked),
    /// A snapshot is kept, and asked when the transaction has ended.
    Keep(Asked),
    Defer(&'static str),
}

/// A snapshot that is kept, and what it is asked.
pub type Kept = Option<(Snapshot, &'static Asked)>;

/// The word of a refused write, with the name of its index.
fn write_word(error: TxnWriteError) -> &'static str {
    match error {
        TxnWriteError::UnknownTable => "unknown-table",
        TxnWriteError::Refused(WriteError::NoId) => "no-id",
        TxnWriteError::Refused(WriteError::NotFound) => "not-found",
        TxnWriteError::Refused(WriteError::Missing { index: 0 }) => "missing age",
        TxnWriteError::Refused(WriteError::OutOfRange { index: 0 }) => "out-of-range age",
        TxnWriteError::Refused(WriteError::WrongKind { index: 1 }) => "wrong-kind id",
        TxnWriteError::Refused(WriteError::KeyTaken { index: 2 }) => "key-taken mail",
        TxnWriteError::Refused(WriteError::WrongKind { index: 3 }) => "wrong-kind tags",
        _ => "memory",
    }
}

/// The word of a refused question.
fn ask_word(error: AskError) -> &'static str {
    match error {
        AskError::UnknownTable => "unknown-table",
        AskError::UnknownIndex => "unknown-index",
        AskError::NoPrefixForm => "no-prefix-form",
        AskError::ArgKind => "arg-kind",
        AskError::ArgCount => "arg-count",
        AskError::OutOfRange => "out-of-range",
        AskError::NoPrefixName => "no-prefix-name",
        AskError::NotUnique => "not-unique",
        _ => "memory",
    }
}

/// Whether a refusal is told by this word. Want of memory is no answer, and ends the test.
fn is_word(expected: &str, word: &str) -> Told {
    if word == "memory" {
        return Err(AllocError);
    }
    Ok(expected == word)
}

/// Whether a row is put so.
pub fn is_put(alloc: Global, txn: &mut Txn, line: &Line) -> Told
    ensures { (txn_of txn.new).caller ≡ (txn_of txn.old).caller }
{
    match txn.insert(line.0, &row_of(alloc, line.1)?) {
        Ok(true) => Ok(line.2 == "replaced"),
        Ok(false) => Ok(line.2 == "inserted"),
        Err(error) => is_word(line.2, write_word(error)),
    }
}

/// Whether a row has this text.
pub fn is_row(row: &Row, expected: &str) -> Told {
    Ok(row.doc()?.as_slice() == expected.as_bytes())
}

/// Whether a row is taken out so.
pub fn is_deleted(alloc: Global, txn: &mut Txn, line: &Line) -> Told
    ensures { (txn_of txn.new).caller ≡ (txn_of txn.old).caller }
{
    match txn.delete(line.0, &row_of(alloc, line.1)?) {
        Ok(old) => is_row(&old, line.2),
        Err(error) => is_word(line.2, write_word(error)),
    }
}

/// Takes out the rows that a question lists.
fn wiped(txn: &mut Txn, query: &Query, by_prefix: bool) -> Result<u64, TxnWipeError>
    ensures { (txn_of txn.new).caller ≡ (txn_of txn.old).caller }
{
    if by_prefix {
        txn.delete_prefix(query)
    } else {
        txn.delete_all(query)
    }
}

/// Whether so many rows are taken out that a question lists.
pub fn is_wiped(alloc: Global, txn: &mut Txn, question: &Question, count: u64) -> Told
    ensures { (txn_of txn.new).caller ≡ (txn_of txn.old).caller }
{
    let query = query_of(alloc, question)?;
    match wiped(txn, &query, question.2.ends_with("_prefix")) {
        Ok(gone) => Ok(gone == count),
        Err(_) => Err(AllocError),
    }
}

/// Whether an answer is this one, or a refusal of this word.
fn is_answered(alloc: Global, answer: Result<Answer, AskError>, expected: &str) -> Told {
    match answer {
        Ok(answer) => is_told(alloc, &answer, expected),
        Err(error) => is_word(expected, ask_word(error)),
    }
}

/// Whether a transaction answers a question so.
pub fn is_own(alloc: Global, txn: &mut Txn, question: &Question, expected: &str) -> Told
    ensures { (txn_of txn.new).caller ≡ (txn_of txn.old).caller }
{
    match txn.ask(&query_of(alloc, question)?) {
        Ok(answer) => is_told(alloc, &answer, expected),
        Err(TxnAskError::Refused(error)) => is_word(expected, ask_word(error)),
        Err(TxnAskError::Spoiled) => Err(AllocError),
    }
}

/// Whether a snapshot answers a question so.
pub fn is_kept(alloc: Global, kept: &Snapshot, question: &Question, expected: &str) -> Told {
    is_answered(alloc, kept.ask(&query_of(alloc, question)?), expected)
}

/// The rows of a walk, in a list.
fn collected(alloc: Global, walk: &mut Walk<'_>) -> Result<Rows, AllocError> {
    let mut rows = Rows::new(alloc);
    while let Some(row) = walk.next()? {
        rows.push(row)?;
    }
    Ok(rows)
}

/// The answer that the rows of a walk make: a row or none where the question's word asks for one.
fn walked_answer(alloc: Global, ask: Ask, walk: &mut Walk<'_>) -> Result<Answer, AllocError> {
    match ask {
        Ask::First | Ask::Last | Ask::Longest => Ok(Answer::One(walk.next()?)),
        _ => Ok(Answer::Many(collected(alloc, walk)?)),
    }
}

/// What a read transaction answers a question one row at a time.
fn walked(alloc: Global, read: &ReadTxn, query: &Query) -> Result<Answer, AskError> {
    let mut walk = read.walk(query)?;
    Ok(walked_answer(alloc, query.ask(), &mut walk)?)
}

/// Whether a read transaction answers a question so.
pub fn is_read(alloc: Global, read: &ReadTxn, question: &Question, expected: &str) -> Told {
    is_answered(alloc, read.ask(&query_of(alloc, question)?), expected)
}

/// Whether a read transaction answers a question so one row at a time.
pub fn is_walked(alloc: Global, read: &ReadTxn, question: &Question, expected: &str) -> Told {
    let query = query_of(alloc, question)?;
    is_answered(alloc, walked(alloc, read, &query), expected)
}

/// Whether an item is deferred.
fn is_deferred(alloc: Global, txn: &mut Txn, item: &str) -> Told
    ensures { (txn_of txn.new).caller ≡ (txn_of txn.old).caller }
{
    match txn.defer(String::from_str(alloc, item)?) {
        Ok(()) => Ok(true),
        Err(_) => Err(AllocError),
    }
}

/// Keeps a snapshot.
fn is_shown(txn: &mut Txn, asked: &'static Asked, kept: &mut Kept) -> Told
    ensures { (txn_of txn.new).caller ≡ (txn_of txn.old).caller }
{
    match txn.snapshot() {
        Ok(snapshot) => {
            *kept = Some((snapshot, asked));
            Ok(true)
        }
        Err(_) => Err(AllocError),
    }
}

/// Whether a step is answered so.
fn is_done(alloc: Global, txn: &mut Txn, step: &'static Step, kept: &mut Kept) -> Told
    ensures { (txn_of txn.new).caller ≡ (txn_of txn.old).caller }
{
    match step {
        Step::Insert(line) => is_put(alloc, txn, line),
        Step::Delete(line) => is_deleted(alloc, txn, line),
        Step::Wipe(question, count) => is_wiped(alloc, txn, question, *count),
        Step::Tell(asked) => is_own(alloc, txn, &asked.0, asked.1),
        Step::Keep(asked) => is_shown(txn, asked, kept),
        Step::Defer(item) => is_deferred(alloc, txn, item),
    }
}

/// Whether each step is answered so.
pub fn are_done(alloc: Global, txn: &mut Txn, steps: &'static [Step], kept: &mut Kept) -> Told
    ensures { (txn_of txn.new).caller ≡ (txn_of txn.old).caller }
{
    for step in steps {
        if !is_done(alloc, txn, step, kept)? {
            return Ok(false);
        }
    }
    Ok(true)
}

/// Steps that are committed where each is answered so, and else aborted.
#[derive(Drop)]
pub struct Steps(pub &'static [Step]);

impl Work for Steps {
    /// Takes the steps.
    fn run(&mut self, alloc: Global, txn: &mut Txn) -> Told {
        are_done(alloc, txn, self.0, &mut None)
    }
}

/// Whether steps are answered so, and committed.
pub fn committed_steps<R: Wait>(
    rt: &R,
    alloc: Global,
    db: &Db,
    pass: Pass,
    steps: &'static [Step],
) -> (Pass, Told)
    requires own { IsOf db.now pass }
    ensures own { IsCaller db.now pass.number result.0 }
    ensures more { IsBeginning pass result.0 }
{
    let (pass, done) = transact(rt, alloc, db, pass, &mut Steps(steps));
    (pass, is_made(done))
}
