//! Each allocation may fail: a refused call gives the pass back, and the database answers another
//! caller as before.
ghost use Rattle.std.specs.Prelude.{◌≡◌};
ghost use Rattle.mem_txn.specs.CallerOf.{IsCaller};
ghost use Rattle.mem_txn.specs.Transactions.{txn_of};

use super::drawn::{Drawn, Plain, table_of, text_of};
use super::long_run::are_read;
use super::tracked::{TRACKED_USERS, are_different};
use super::{Told, Txn, are_both, closed, holds, pair, row_of};
use mem_txn::{
    BeginError, BeginRefused, CommitError, CommitRefused, Committed, Db, Pass, SnapError,
};
use std::alloc::{AllocError, Global};
use std::sync::Wait;
use std::test::Fail;

/// Whether the insert of a row finds memory.
fn is_put(alloc: Global, txn: &mut Txn, table: &str, text: &str) -> Told
    ensures { (txn_of txn.new).caller ≡ (txn_of txn.old).caller }
{
    let row = row_of(alloc, text)?;
    Ok(txn.insert(table, &row).is_ok())
}

/// Inserts some rows, and tells whether one found no memory. Then the transaction is spoiled.
fn insert_some(alloc: Global, drawn: &mut Drawn, txn: &mut Txn) -> Told
    ensures { (txn_of txn.new).caller ≡ (txn_of txn.old).caller }
{
    for place in 4..8 {
        let row = drawn.random.row(place);
        if !is_put(alloc, txn, table_of(place), text_of(row))? {
            return Ok(true);
        }
        drawn.plain[place] = Some(row);
    }
    Ok(false)
}

/// Ends a transaction by its commit, and tells whether that is answered right, as its snapshot was.
/// One that is made tells what became of the users; one that is spoiled is told so; a refused one
/// leaves the rows before it.
fn end<R: Wait>(
    rt: &R,
    alloc: Global,
    db: &Db,
    txn: Txn,
    spoiled: bool,
    shown: bool,
    before: Plain,
    plain: &mut Plain,
) -> (Pass, Told)
    requires own { IsCaller db.now 1 (txn_of txn).caller }
    ensures { IsCaller db.now 1 result.0 }
{
    match txn.commit(rt, db) {
        Ok(Committed { pass, receipt }) => {
            let told = are_different(&receipt.changes, &before, plain);
            (pass, are_both(told, Ok(shown && !spoiled)))
        }
        Err(CommitRefused { pass, cause }) => {
            *plain = before;
            let right = spoiled == (cause == CommitError::Spoiled);
            (pass, Ok(right && shown))
        }
    }
}

/// Whether a transaction is spoiled, and whether its snapshot tells so.
fn spoiled_by(alloc: Global, drawn: &mut Drawn, txn: &mut Txn) -> Result<(bool, bool), AllocError>
    ensures { (txn_of txn.new).caller ≡ (txn_of txn.old).caller }
{
    let spoiled = insert_some(alloc, drawn, txn)?;
    let shown = matches!(txn.snapshot(), Err(SnapError::Spoiled));
    Ok((spoiled, shown == spoiled))
}

/// Tries a transaction, and tells whether it is answered right. Then these are the rows.
fn try_begun<R: Wait>(rt: &R, alloc: Global, db: &Db, txn: Txn, drawn: &mut Drawn) -> (Pass, Told)
    requires own { IsCaller db.now 1 (txn_of txn).caller }
    ensures { IsCaller db.now 1 result.0 }
{
    let mut txn = txn;
    let before = drawn.plain;
    match spoiled_by(alloc, drawn, &mut txn) {
        Ok((spoiled, shown)) => {
            end(rt, alloc, db, txn, spoiled, shown, before, &mut drawn.plain)
        }
        Err(_) => (txn.abort(db), Err(AllocError)),
    }
}

/// The same of one that may not begin.
fn try_one<R: Wait>(rt: &R, alloc: Global, db: &Db, pass: Pass, drawn: &mut Drawn) -> (Pass, Told)
    requires own { IsCaller db.now 1 pass }
    ensures { IsCaller db.now 1 result.0 }
{
    match db.write(rt, pass) {
        Ok(txn) => try_begun(rt, alloc, db, txn, drawn),
        Err(BeginRefused { pass, cause }) => (pass, Ok(cause == BeginError::Memory)),
    }
}

/// Whether the rows that a caller reads now are alike.
fn reads_alike<R: Wait>(rt: &R, alloc: Global, db: &Db, pass: &mut Pass, plain: &Plain) -> Told
    requires own { IsCaller db.now 2 pass.old }
    ensures { IsCaller db.now 2 pass.new }
{
    let read = db.read(rt, pass)?;
    are_read(alloc, &read, plain)
}

/// The same, and whether the rows that another caller reads after it are right.
fn try_read<R: Wait>(
    rt: &R,
    alloc: Global,
    db: &Db,
    pass: Pass,
    other: &mut Pass,
    drawn: &mut Drawn,
) -> (Pass, Told)
    requires own { IsCaller db.now 1 pass }
    requires other { IsCaller db.now 2 other.old }
    ensures own { IsCaller db.now 1 result.0 }
    ensures other { IsCaller db.now 2 other.new }
{
    let (pass, told) = try_one(rt, alloc, db, pass, drawn);
    let told = match told {
        Ok(true) => reads_alike(rt, alloc, db, other, &drawn.plain),
        told => told,
    };
    (pass, told)
}

/// Whether each of some transactions is answered right.
fn are_tried<R: Wait>(rt: &R, alloc: Global, db: &Db, pass: Pass, other: &mut Pass) -> (Pass, Told)
    requires own { IsCaller db.now 1 pass }
    requires other { IsCaller db.now 2 other.old }
    ensures own { IsCaller db.now 1 result.0 }
    ensures other { IsCaller db.now 2 other.new }
{
    let mut drawn = Drawn::from(3);
    let mut pass = pass;
    for _ in 0..12 {
        let (next, told) = try_read(rt, alloc, db, pass, other, &mut drawn);
        pass = next;
        match told {
            Ok(true) => {}
            told => return (pass, told),
        }
    }
    (pass, Ok(true))
}

/// Whether they are in a new database.
fn are_tried_anew<R: Wait>(rt: &R, alloc: Global) -> Told {
    let (db, passes, one, mut two) = pair(alloc, TRACKED_USERS)?;
    let (one, told) = are_tried(rt, alloc, &db, one, &mut two);
    drop(closed(rt, db, passes, one, two));
    told
}

// It passes whichever allocation fails, or ends in an error.
#[test]
fn a_refusal_leaves_the_database(rt: HostRuntime) -> Result<(), Fail> {
    holds(are_tried_anew(&rt, rt.alloc()))
}
