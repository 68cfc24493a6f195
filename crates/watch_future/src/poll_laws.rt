//! What is known of every poll, as laws of the definitions. The functions do nothing: their
//! contracts are the laws.
ghost use Rattle.std.specs.Prelude.{option_copied};
ghost use Rattle.watch_future.specs.Cells.{AreOfBook, cells_awaited};
ghost use Rattle.watch_future.specs.Polls.{CanPoll};

use mem_txn::{Db, Held, Pass};
use watch_set::WatchSet;

/// The cells that a poll notes are of the database's book, so that a list of them can be asked by a
/// front of the database.
pub fn awaited_cells_are_of_the_book(db: &Db, pass: &Pass, set: &WatchSet, until: Option<&Held>)
    requires { CanPoll db.now pass.now set.now (option_copied until) }
    ensures { let cells = cells_awaited set.now (option_copied until.entry) in
        AreOfBook db.now.book cells }
{}
