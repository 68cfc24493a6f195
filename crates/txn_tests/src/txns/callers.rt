//! Callers that share a database, one after the other: one tries to write while the other does. And
//! what threads may have.
ghost use Rattle.std.specs.Prelude.{◌≡◌};
ghost use Rattle.mem_txn.specs.Database.{IsOf};
ghost use Rattle.mem_txn.specs.CallerOf.{IsCaller};
ghost use Rattle.mem_txn.specs.Transactions.{txn_of};

use super::{SCHEMA, Told, Txn, are_both, closed, holds, pair};
use mem_txn::{BeginRefused, Db, Pass, Passes, ReadTxn, Snapshot, Tried};
use std::alloc::{AllocError, Global};
use std::sync::Wait;
use std::test::Fail;
use std::thread::Threads;

/// Whether a try of a caller finds another's transaction open, or none.
fn is_taken<R: Wait>(rt: &R, db: &Db, pass: Pass, open: bool) -> (Pass, Told)
    requires own { IsOf db.now pass }
    ensures { IsCaller db.now pass.number result.0 }
{
    match db.try_write::<String, R>(rt, pass) {
        Ok(Tried::Begun(txn)) => (txn.abort(db), Ok(!open)),
        Ok(Tried::Taken(pass)) => (pass, Ok(open)),
        Err(BeginRefused { pass, cause: _ }) => (pass, Err(AllocError)),
    }
}

/// While one caller's transaction is open, a try of the other finds it taken; then it begins one.
fn try_beside<R: Wait>(rt: &R, db: &Db, txn: Txn, two: Pass) -> (Pass, Pass, Told)
    requires one { IsOf db.now (txn_of txn).caller }
    requires two { IsOf db.now two }
    ensures one { IsCaller db.now (txn_of txn).caller.number result.0 }
    ensures two { IsCaller db.now two.number result.1 }
{
    let (two, first) = is_taken(rt, db, two, true);
    let one = txn.abort(db);
    let (two, next) = is_taken(rt, db, two, false);
    (one, two, are_both(first, next))
}

/// The same of two who have none yet.
fn try_twice<R: Wait>(rt: &R, db: &Db, one: Pass, two: Pass) -> (Pass, Pass, Told)
    requires one { IsOf db.now one }
    requires two { IsOf db.now two }
    ensures one { IsCaller db.now one.number result.0 }
    ensures two { IsCaller db.now two.number result.1 }
{
    match db.try_write::<String, R>(rt, one) {
        Ok(Tried::Begun(txn)) => try_beside(rt, db, txn, two),
        Ok(Tried::Taken(one)) => (one, two, Ok(false)),
        Err(
            BeginRefused {
                pass: one,
                cause: _,
            },
        ) => (one, two, Err(AllocError)),
    }
}

/// The same in a new database.
fn is_tried<R: Wait>(rt: &R, alloc: Global) -> Told {
    let (db, passes, one, two) = pair(alloc, SCHEMA)?;
    let (one, two, right) = try_twice(rt, &db, one, two);
    drop(closed(rt, db, passes, one, two));
    right
}

#[test]
fn a_try_finds_a_transaction_taken_and_then_begins(rt: HostRuntime) -> Result<(), Fail> {
    holds(is_tried(&rt, rt.alloc()))
}

/// Takes what may be sent to a thread.
fn may_be_sent<T: Send>(_value: &T) {}

/// Takes what may be sent and shared.
fn may_be_shared<T: Send + Sync>(_value: &T) {}

/// Callers on threads share a database and what it answers from, each with a pass of its own. The
/// function is over a type that it doesn't look at.
fn threads_may_have_all<R: Threads>(
    _rt: &R,
    db: &Db,
    passes: &Passes,
    pass: &Pass,
    read: &ReadTxn,
    kept: &Snapshot,
) {
    may_be_shared(db);
    may_be_sent(passes);
    may_be_sent(pass);
    may_be_shared(read);
    may_be_shared(kept);
}
