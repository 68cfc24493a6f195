//! Databases.
ghost use Rattle.std.specs.Prelude.{◌≡◌, ◌≤◌, ◌<◌, ◌∷◌, [], IfOk, length};
ghost use Rattle.std.specs.Arc.{arc_value};
ghost use Rattle.mem_txn.specs.CellHistory.{CellHistory, Forest};
ghost use Rattle.mem_txn.specs.Checked.{HasHeard};
ghost use Rattle.mem_txn.specs.Database.{AreAll, AreOf, HasRead, HasSeen, IsOf, IsWhole};
ghost use Rattle.mem_txn.specs.Database.{new_callers, reading_after, reading_of};
ghost use Rattle.mem_txn.specs.inner.Steps.{HasLastFirings};
ghost use Rattle.mem_txn.specs.inner.Versions.{StandsFor};

use crate::pass::{Pass, hear};
use crate::passes::Passes;
use crate::read_txn::ReadTxn;
use crate::version::Version;
use crate::view::View;
use db_front::{NextCommit, Shared, Shown, make_shared};
use mdb_schema::Schema;
use radix_node::Ids;
use std::alloc::{AllocError, Global};
use std::marker::Model;
use std::sync::{Arc, Wait};
use watch_word::{Book, Front, open_book};

/// A database that callers share, seen as a `Database`.
#[derive(Drop)]
pub struct Db {
    pub(crate) alloc: Global,
    schema: Arc<Schema, Global>,
    pub(crate) shared: Shared<Version>,
    /// The log at the opening, which tells the book of the cells.
    front: Front,
}

impl Model for Db {
    ghost use Rattle.mem_txn.specs.Database.{Database};
    ghost use Rattle.mem_txn.specs.Codes.{database_code};

    ghost Value = { Database };

    ghost coded = { database_code };

    ghost use Rattle.mem_txn.specs.inner.Views.{db_view};

    ghost view = { db_view };
}

impl Db {
    /// A database without rows, and a pass for each of its callers. It takes memory for the tables
    /// and the passes.
    pub fn create(alloc: Global, schema: Schema, callers: u32) -> Result<(Db, Passes), AllocError>
        requires { (1 ≤ callers) × (callers ≤ 64) }
        ensures schema { IfOk result (λ made. made.0.schema ≡ schema) }
        ensures callers { IfOk result (λ made. made.0.callers ≡ callers) }
        ensures passes { IfOk result
            (λ made. (trees : Forest) × (made.1 ≡ new_callers made.0 trees callers)) }
    {
        let (book, log) = open_book(alloc)?;
        let value = opening(alloc, schema, book, &log)?;
        shared_by(alloc, value, log, callers)
    }

    /// The schema.
    pub fn schema(&self) -> &Schema
        ensures { result.now ≡ self.now.schema }
    {
        &self.schema
    }

    /// A front of the database's log of firings, by which its watches can be asked. It has no
    /// bytes.
    pub fn front(&self) -> Front
        ensures { result.book ≡ self.now.book }
    {
        self.front.share()
    }

    /// The state after all commits that there are, which the pass then has seen, with the log, in
    /// constant time. It is a second owner of the same state, and takes no memory. `AllocError`
    /// comes where the kit's `Arc` refuses one more owner.
    pub fn read<R: Wait>(&self, rt: &R, pass: &mut Pass) -> Result<ReadTxn, AllocError>
        requires own { IsOf self.now pass.old }
        ensures read { IfOk result (λ t. t ≡ reading_of pass.new) }
        ensures number { IfOk result (λ t. HasRead pass.old pass.new t.view.number) }
        ensures heard { IfOk result (λ t. HasHeard pass.new) }
        ensures seen { HasSeen pass.old pass.new }
        ensures tries { pass.new.tries ≡ pass.old.tries }
    {
        let Shown { value, log, .. } = self.shared.look(rt, &mut pass.token)?;
        hear(&mut pass.token, &log);
        Ok(ReadTxn::of(value))
    }

    /// Announces that the caller may sleep until the next commit is finished; `None` once waits have
    /// been ended. A caller that then checks, finds nothing and sleeps by [`NextCommit::wait`] misses
    /// no commit. It takes no memory.
    pub fn next_commit(&self) -> Option<NextCommit<'_>> {
        self.shared.next_commit()
    }

    /// Ends the waits of all callers, now and from now on, as where nobody is left to make the commit
    /// that they wait for. It takes no memory.
    pub fn end_waits(&self) {
        self.shared.end_waits();
    }

    /// The state after all commits, when all passes are back. What each of them has seen is a
    /// beginning of one history. It takes no memory.
    pub fn close<R: Wait>(self, rt: &R, passes: Passes) -> ReadTxn
        requires some { 0 < length passes.passes }
        requires own { AreOf self passes.passes }
        requires all { AreAll self.callers passes.passes }
        ensures { (J : CellHistory) × IsWhole self passes.passes J
            × (result ≡ reading_after self J) }
    {
        let Db {
            alloc: _,
            schema,
            shared,
            front: _,
        } = self;
        let Passes { list } = passes;
        let Shown { value, .. } = shared.close(rt, list);
        drop(schema);
        ReadTxn::of(value)
    }
}

/// The value before the first commit, whose cells are of the log's book.
fn opening(
    alloc: Global,
    schema: Schema,
    book: Arc<Book>,
    log: &Front,
) -> Result<Arc<Version, Global>, AllocError>
    requires book { log.now.book ≡ arc_value book }
    ensures schema { IfOk result (λ value. let v = arc_value value in v.view.schema ≡ schema) }
    ensures stands { IfOk result
        (λ value. let v = arc_value value in StandsFor ((0, v) ∷ []) v) }
    ensures log { IfOk result (λ value. HasLastFirings ((0, arc_value value) ∷ []) log.now) }
{
    let mut ids = Ids::starting(book, 0);
    let view = View::empty(alloc, schema, log, &mut ids)?;
    let version = Version::opening(alloc, view, ids)?;
    Ok(Arc::new(alloc, version)?)
}

/// A database that shows the value before the first commit, and a pass for each of its callers.
fn shared_by(
    alloc: Global,
    value: Arc<Version, Global>,
    log: Front,
    callers: u32,
) -> Result<(Db, Passes), AllocError>
    requires callers { (1 ≤ callers) × (callers ≤ 64) }
    requires stands { let v = arc_value value in StandsFor ((0, v) ∷ []) v }
    requires log { HasLastFirings ((0, arc_value value) ∷ []) log }
    requires empty { log.fired ≡ [] }
    ensures schema { let v = arc_value value in
        IfOk result (λ made. made.0.schema ≡ v.view.schema) }
    ensures callers { IfOk result (λ made. made.0.callers ≡ callers) }
    ensures passes { IfOk result
        (λ made. (trees : Forest) × (made.1 ≡ new_callers made.0 trees callers)) }
{
    let schema = value.view().share_schema()?;
    let front = log.share();
    let (shared, list) = make_shared(alloc, value, log, callers)?;
    let db = Db {
        alloc,
        schema,
        shared,
        front,
    };
    Ok((db, Passes { list }))
}
