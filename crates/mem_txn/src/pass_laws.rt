//! What is known of every pass, as laws of the definitions. The functions do nothing: their
//! contracts are the laws.
ghost use Rattle.mem_txn.specs.CellHistory.{AreComplete, IdsTell, KeepUntouched, MovesAreTouches};
ghost use Rattle.mem_txn.specs.CellHistory.{StayAway, WatchesHold};
ghost use Rattle.mem_txn.specs.Checked.{AskedIsHeld, HeldLonger, HeldStays, IdsTellCells};
ghost use Rattle.mem_txn.specs.Database.{cells_seen};
ghost use Rattle.mem_txn.specs.Told.{TellsWhoeverHolds};
ghost use Rattle.mem_txn.specs.Transactions.{txn_of};

use crate::pass::Pass;
use crate::write_txn::WriteTxn;

/// Of the commits that a pass has seen: a question's cell that none of them fires since guards its
/// answer.
pub fn watches_hold(pass: &Pass)
    ensures { WatchesHold (cells_seen pass.now) }
{
    let _ = pass.token.number();
}

/// Each commit that a pass has seen keeps the cells that its writes don't touch.
pub fn untouched_is_kept(pass: &Pass)
    ensures { KeepUntouched (cells_seen pass.now) }
{
    let _ = pass.token.number();
}

/// Where a question's cell has moved, a commit since has touched what the question looks at.
pub fn moves_are_touches(pass: &Pass)
    ensures { MovesAreTouches (cells_seen pass.now) }
{
    let _ = pass.token.number();
}

/// A cell that left a tree never comes back.
pub fn cells_stay_away(pass: &Pass)
    ensures { StayAway (cells_seen pass.now) }
{
    let _ = pass.token.number();
}

/// In all trees that a pass has seen, at the opening and after each commit, equal ids are equal
/// cells.
pub fn equal_ids_are_equal_cells(pass: &Pass)
    ensures { IdsTell (cells_seen pass.now) }
{
    let _ = pass.token.number();
}

/// A pass has seen the trees at the opening and after each commit that it has seen.
pub fn trees_are_complete(pass: &Pass)
    ensures { AreComplete (cells_seen pass.now) }
{
    let _ = pass.token.number();
}

/// A watch that a pass held when it had seen less is held by it now.
pub fn held_watches_stay(pass: &Pass)
    ensures { HeldStays pass.now }
{
    let _ = pass.token.number();
}

/// A watch that some pass of the database held, when it had seen a beginning of what this pass has
/// seen, is held by this one. So it outlasts the pass's own commits.
pub fn held_watches_outlast_commits(pass: &Pass)
    ensures { HeldLonger pass.now }
{
    let _ = pass.token.number();
}

/// A watch that was asked of the state after the commits that a pass has seen is held by it.
pub fn asked_watches_are_held(pass: &Pass)
    ensures { AskedIsHeld pass.now }
{
    let _ = pass.token.number();
}

/// Of two watches that a pass holds, equal ids are equal cells.
pub fn ids_tell_cells(pass: &Pass)
    ensures { IdsTellCells pass.now }
{
    let _ = pass.token.number();
}

/// The same of the pass that a write transaction owns.
pub fn ids_tell_cells_within<D: Drop>(txn: &WriteTxn<D>)
    ensures { IdsTellCells (txn_of txn.now).caller }
{
    txn.db_txn.ids_tell_cells();
}

/// The log that a commit gives tells whoever holds a watch whose answer has changed: of the whole
/// history of a database it has the watch's cell, whichever pass holds the watch.
pub fn whoever_holds_is_told()
    ensures { TellsWhoeverHolds }
{}
