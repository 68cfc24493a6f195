//! Read transactions.
ghost use Rattle.std.specs.Prelude.{◌≡◌, All, IfOk};
ghost use Rattle.std.specs.Arc.{arc_value};
ghost use Rattle.mdb_schema.specs.Answer.{ask};
ghost use Rattle.mdb_schema.specs.ErrorsTold.{AnswersAsk};
ghost use Rattle.mem_txn.specs.Held.{AnswersHeld, IsHeldOf, tells_own};
ghost use Rattle.mem_txn.specs.inner.Looks.{CellsAreOfBook};
ghost use Rattle.mem_txn.specs.inner.VersionTables.{AreAllWithin};
ghost use Rattle.table_index.specs.Walks.{WalksAsk};
ghost use Rattle.table_index.specs.Watched.{is_watchable};

use crate::held::Held;
use crate::version::Version;
use crate::view::View;
use mdb_schema::{Answer, AskError, Query};
use radix_iter::Walk;
use std::alloc::{AllocError, Global};
use std::marker::Model;
use std::sync::Arc;
use table_index::{Spot, Watched};

/// A state that stays as it is, whatever is committed, seen as a `Reading`: the state, and its
/// trees with their cells.
#[derive(Drop)]
pub struct ReadTxn {
    version: Arc<Version, Global>,
}

impl Model for ReadTxn {
    ghost use Rattle.mem_txn.specs.Database.{Reading};
    ghost use Rattle.mem_txn.specs.Codes.{reading_code};

    ghost Value = { Reading };

    ghost coded = { reading_code };

    ghost use Rattle.mem_txn.specs.inner.Views.{IsReading, read_view};

    ghost view = { read_view };

    ghost invariant = { IsReading };
}

impl ReadTxn {
    /// A transaction that reads this value.
    pub(crate) fn of(version: Arc<Version, Global>) -> ReadTxn
        requires within { let v = arc_value version in AreAllWithin v.ids v.trees }
        ensures { let v = arc_value version in
            result ≡ record { view = v.view; trees = v.trees; book = v.ids.book } }
    {
        ReadTxn { version }
    }

    /// The number of the commit on which it stands.
    pub fn number(&self) -> u64
        ensures { result ≡ self.now.view.number }
    {
        self.version.view().number()
    }

    /// The state, in its trees.
    pub(crate) fn view(&self) -> &View
        ensures view { result.now ≡ record { view = self.now.view; trees = self.now.trees } }
        ensures books { CellsAreOfBook self.now }
    {
        self.version.view()
    }

    /// A second owner of the same state. It takes no memory. `AllocError` comes where the kit's
    /// `Arc` refuses one more owner.
    pub fn snapshot(&self) -> Result<ReadTxn, AllocError>
        ensures { IfOk result (λ t. t ≡ self.now) }
    {
        Ok(ReadTxn {
            version: Arc::try_clone(&self.version)?,
        })
    }

    /// What a question is answered, or the first rule that it breaks. It takes memory for the key
    /// of the question's arguments and for a list of rows. Want of it is never told in place of a
    /// rule.
    pub fn ask(&self, query: &Query) -> Result<Answer, AskError>
        ensures { AnswersAsk (ask self.now.view.schema self.now.view.state query.now) result }
    {
        self.version.view().ask(query)
    }

    /// A walk over the rows that [`ReadTxn::ask`] gives, in the same order, one at a time. It
    /// borrows this transaction, and is refused as [`ReadTxn::ask`] is. It takes memory for the key
    /// of the question's arguments and for its place, and none for a list of rows.
    pub fn walk<'a>(&'a self, query: &Query) -> Result<Walk<'a>, AskError>
        ensures { WalksAsk (ask self.now.view.schema self.now.view.state query.now) result }
    {
        self.version.view().walk(query)
    }

    /// What [`ReadTxn::ask`] answers, with the watch of the answer. Questions for bounds, or for
    /// the longest key, are refused before any other rule but that the table isn't there. It takes
    /// memory as [`ReadTxn::ask`] does, and for the watch. It may be refused as for want of memory
    /// where the cell or the question has 2^63 - 1 owners.
    pub fn ask_watch(&self, query: &Query) -> Result<(Answer, Held), AskError>
        ensures answers { let told = ask self.now.view.schema self.now.view.state query.now in
            AnswersHeld (tells_own told (is_watchable query.now.ask)) told result }
        ensures held { IfOk result (λ r. IsHeldOf self.now query.now r.1) }
    {
        let view = self.version.view();
        let Watched { answer, spot } = view.ask_watch(query)?;
        let held = held_of(view, query, spot)?;
        Ok((answer, held))
    }
}

/// A watch of a question that was looked up so in this state.
fn held_of(view: &View, query: &Query, spot: Spot) -> Result<Held, AllocError>
    ensures { let v = view.now in IfOk result
        (λ h. h ≡ record { query = query.now; spot = spot; number = v.view.number }) }
{
    Held::of(view.allocator(), query.share()?, spot, view.number())
}
