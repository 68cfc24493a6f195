//! The firing of a commit's cells.
ghost use Rattle.std.specs.Prelude.{◌≡◌, ◌≤◌, ◌+◌, length};
ghost use Rattle.mem_txn.specs.inner.Firing.{cells_in, cells_told};
ghost use Rattle.notify_walk.specs.Fired.{HaveFired};
ghost use Rattle.radix_node.specs.Cells.{AreCellsOf};
ghost use Rattle.watch_word.specs.Logs.{IsLater};

use crate::pass::Token;
use notify_walk::fire_all;
use table_index::Notices;
use watch_word::Front;

/// Fires the cells in the notices of tables by the commit with this number. The front given back
/// has them all. `attended` is set where somebody may sleep until one of them has fired. It takes
/// no memory and waits for nobody.
///
/// The pass has published just this commit before: whoever finds that its watch has moved finds the
/// commit too.
pub(crate) fn fire_tables(
    pass: &Token,
    tables: &[Notices],
    front: &Front,
    by: u64,
    attended: &mut bool,
) -> Front
    requires published { let p = pass.now in p.stage ≡ 2 }
    requires commit { let p = pass.now in by + 1 ≡ length p.seen }
    requires book { AreCellsOf front.now.book (cells_told tables.now) }
    requires number { 1 ≤ by }
    ensures later { IsLater front.now result }
    ensures fired { HaveFired result (cells_told tables.now) }
{
    let mut log = front.share();
    for notices in tables {
        log = fire_table(pass, notices, &log, by, attended);
    }
    log
}

/// The same of one table.
fn fire_table(
    _pass: &Token,
    notices: &Notices,
    front: &Front,
    by: u64,
    attended: &mut bool,
) -> Front
    requires published { let pass = _pass.now in pass.stage ≡ 2 }
    requires commit { let pass = _pass.now in by + 1 ≡ length pass.seen }
    requires book { AreCellsOf front.now.book (cells_in notices.now) }
    requires number { 1 ≤ by }
    ensures later { IsLater front.now result }
    ensures fired { HaveFired result (cells_in notices.now) }
{
    let mut log = front.share();
    for at in 0..notices.len() {
        let notice = notices.get(at).unwrap();
        log = fire_all(notice, &log, by, attended);
    }
    log
}
