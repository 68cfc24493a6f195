//! Firings of notices.
ghost use Rattle.std.specs.Prelude.{◌≡◌, ◌≤◌, map};
ghost use Rattle.std.specs.Arc.{arc_value};
ghost use Rattle.radix_node.specs.Cells.{AreCellsOf};

use notify_walk::fire_all;
use radix_txn::Notice;
use std::alloc::AllocError;
use std::sync::Arc;
use watch_word::{Front, Watch, WatchCell};

mod limit;

/// Whether a cell has fired.
fn has_moved(cell: &Arc<WatchCell>, front: &Front) -> Result<bool, AllocError>
    requires { let c = arc_value cell.now in c.book ≡ front.now.book }
{
    Ok(Watch::of(Arc::try_clone(cell)?).moved(front).fired)
}

/// How many cells have fired.
fn count_fired(cells: &[Arc<WatchCell>], front: &Front) -> Result<usize, AllocError>
    requires { AreCellsOf front.now.book (map arc_value cells.now) }
{
    let mut count = 0;
    for cell in cells {
        if has_moved(cell, front)? {
            count += 1;
        }
    }
    Ok(count)
}

/// How many cells of a notice have fired, of those that are listed.
fn fired(notice: &Notice, front: &Front) -> Result<usize, AllocError>
    requires { AreCellsOf front.now.book notice.now }
{
    count_fired(notice.cells(), front)
}

/// How many cells of a notice have fired after its firing by this number.
fn fired_by(notice: &Notice, front: &Front, by: u64) -> Result<usize, AllocError>
    requires of { AreCellsOf front.now.book notice.now }
    requires number { 1 ≤ by }
{
    let log = fire_all(notice, front, by, &mut false);
    fired(notice, &log)
}

/// Whether no listed cell of a notice has fired before a firing, and all have after it and after a
/// second one.
pub fn all_fire(notice: &Notice, front: &Front) -> Result<bool, AllocError>
    requires { AreCellsOf front.now.book notice.now }
{
    let all = notice.cells().len();
    let before = fired(notice, front)?;
    Ok(before == 0 && fired_by(notice, front, 1)? == all && fired_by(notice, front, 2)? == all)
}
