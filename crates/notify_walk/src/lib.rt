//! Firing: the cells of a notice fire by the number of a commit.
//!
//! A transaction over a tree ends with a notice of the cells that are gone from it. Whoever shows
//! its tree fires them all, and then each watch of one has moved. A notice of many cells has the
//! two trees in place of a list; then a walk finds the cells.
#![tactic(auto)]

ghost use Rattle.std.specs.Prelude.{◌≡◌, ◌≤◌, map, true};
ghost use Rattle.std.specs.Arc.{arc_value};
ghost use Rattle.notify_walk.specs.Fired.{HaveFired};
ghost use Rattle.radix_node.specs.Cells.{AreCellsOf};
ghost use Rattle.watch_word.specs.Logs.{AreDistinct, IsLater, has_fired};

mod walk;

use radix_txn::Notice;
use std::sync::Arc;
use walk::fire_gone;
use watch_word::{Front, WatchCell, fire};

/// Fires each cell of a notice by the commit with this number, unless it has fired before. The
/// front given back has them all. `attended` is set where somebody may sleep until one of the cells
/// has fired, and is left else. It takes no memory, and waits for nobody. Where the cells are listed
/// it makes one step a cell. Else it walks what differs between the old and the new tree, with two
/// look-ups a node.
pub fn fire_all(notice: &Notice, front: &Front, by: u64, attended: &mut bool) -> Front
    requires book { AreCellsOf front.now.book notice.now }
    requires number { 1 ≤ by }
    ensures later { IsLater front.now result }
    ensures fired { HaveFired result notice.now }
    ensures once { AreDistinct result.fired }
{
    match notice.trees() {
        None => fire_listed(notice.cells(), front, by, attended),
        Some((old, new)) => fire_gone(old, new, front, by, attended),
    }
}

/// Fires each cell of a list.
#[tactic(auto, using(crate::proofs::Firings::later_again, crate::proofs::Firings::next, crate::proofs::Firings::of_at))]
fn fire_listed(cells: &[Arc<WatchCell>], front: &Front, by: u64, attended: &mut bool) -> Front
    requires book { AreCellsOf front.now.book (map arc_value cells.now) }
    requires number { 1 ≤ by }
    ensures later { IsLater front.now result }
    ensures fired { HaveFired result (map arc_value cells.now) }
    ensures once { AreDistinct result.fired }
{
    let mut log = front.share();
    for cell in cells {
        log = fire_one(cell, &log, by, attended);
    }
    log
}

/// Fires a cell. Whoever will sleep on it says so before its last look: it then finds that the cell
/// has fired, or is found here.
fn fire_one(cell: &WatchCell, front: &Front, by: u64, attended: &mut bool) -> Front
    requires book { cell.now.book ≡ front.now.book }
    requires number { 1 ≤ by }
    ensures later { IsLater front.now result }
    ensures fired { has_fired cell.now result ≡ true }
    ensures once { AreDistinct result.fired }
{
    let log = fire(front, cell, by);
    if cell.is_attended() {
        *attended = true;
    }
    log
}
