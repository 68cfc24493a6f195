//! Cells that fire.
ghost use Rattle.std.specs.Prelude.{◌≡◌, IfOk};
ghost use Rattle.std.specs.Arc.{arc_value};

use std::alloc::{AllocError, Global};
use std::sync::Arc;
use std::test::*;
use std::thread::{Threads, join};
use watch_word::{Book, Front, Watch, WatchCell, fire, open_book, open_cell};

/// A book with one cell, and a front from before.
fn one_cell(alloc: Global) -> Result<(Arc<Book>, Front, Arc<WatchCell>), AllocError>
    ensures book { IfOk result (λ t. t.1.book ≡ arc_value t.0) }
    ensures cell { IfOk result (λ t. (arc_value t.2).book ≡ t.1.book) }
{
    let (book, front) = open_book(alloc)?;
    let cell = open_cell(alloc, &book, &front, 7)?;
    Ok((book, front, cell))
}

/// A cell with a watch of it, and a front from before.
fn watched(alloc: Global) -> Result<(Front, Arc<WatchCell>, Watch), AllocError>
    ensures cell { IfOk result (λ t. (arc_value t.1).book ≡ t.0.book) }
    ensures watch { IfOk result (λ t. t.2.book ≡ t.0.book) }
{
    let (_book, front, cell) = one_cell(alloc)?;
    let watch = Watch::of(Arc::try_clone(&cell)?);
    Ok((front, cell, watch))
}

/// Whether a cell is found fired before it fires, after, and after a second firing.
fn found_in_turn(front: &Front, cell: &WatchCell, watch: &Watch) -> [bool; 3]
    requires cell { cell.now.book ≡ front.now.book }
    requires watch { watch.now.book ≡ front.now.book }
{
    let new = watch.moved(front).fired;
    let later = fire(front, cell, 3);
    let fired = watch.moved(front).fired;
    let _again = fire(&later, cell, 4);
    [new, fired, watch.moved(&front.joined(&later)).fired]
}

/// The same of a new cell.
fn found(alloc: Global) -> Result<[bool; 3], AllocError> {
    let (front, cell, watch) = watched(alloc)?;
    Ok(found_in_turn(&front, &cell, &watch))
}

#[test]
fn a_new_cell_is_not_moved_and_a_fired_one_is(rt: HostRuntime) -> Result<(), Fail> {
    let found = found(rt.alloc())?;
    assert!(rt; found == [false, true, true]);
    Ok(())
}

/// Whether another cell is found fired after this one fires, and the ids of both.
fn found_in_other(
    front: &Front,
    cell: &WatchCell,
    other: &Watch,
) -> Result<(bool, u64, u64), AllocError>
    requires cell { cell.now.book ≡ front.now.book }
    requires other { other.now.book ≡ front.now.book }
{
    let later = fire(front, cell, 1);
    let shared = other.share()?;
    Ok((shared.moved(&later.share()).fired, cell.id(), shared.id()))
}

/// The same of two new cells.
fn other(alloc: Global) -> Result<(bool, u64, u64), AllocError> {
    let (book, front, cell) = one_cell(alloc)?;
    let other = Watch::of(open_cell(alloc, &book, &front, 8)?);
    found_in_other(&front, &cell, &other)
}

#[test]
fn a_firing_leaves_other_cells(rt: HostRuntime) -> Result<(), Fail> {
    let other = other(rt.alloc())?;
    assert!(rt; other == (false, 7, 8));
    Ok(())
}

/// Whether a cell is attended before somebody says so, and after.
fn attended(alloc: Global) -> Result<[bool; 2], AllocError> {
    let (_front, cell, watch) = watched(alloc)?;
    let before = cell.is_attended();
    watch.attend();
    Ok([before, cell.is_attended()])
}

#[test]
fn a_cell_is_attended_once_somebody_says_so(rt: HostRuntime) -> Result<(), Fail> {
    let attended = attended(rt.alloc())?;
    assert!(rt; attended == [false, true]);
    Ok(())
}

/// Whether a cell is found fired from the front of each of two threads that fire it.
fn found_by_two<R: Threads + Sync>(
    rt: &R,
    front: &Front,
    cell: &WatchCell,
    watch: &Watch,
) -> (bool, bool)
    requires cell { cell.now.book ≡ front.now.book }
    requires watch { watch.now.book ≡ front.now.book }
{
    let (one, two) = join(
        rt,
        || -> Front
            requires { cell.now.book ≡ front.now.book }
            ensures { result.book ≡ front.entry.now.book }
        { fire(front, cell, 1) },
        || -> Front
            requires { cell.now.book ≡ front.now.book }
            ensures { result.book ≡ front.entry.now.book }
        { fire(front, cell, 2) },
    );
    (watch.moved(&one).fired, watch.moved(&two).fired)
}

/// The same of a new cell.
fn by_two<R: Threads + Sync>(rt: &R, alloc: Global) -> Result<(bool, bool), AllocError> {
    let (front, cell, watch) = watched(alloc)?;
    Ok(found_by_two(rt, &front, &cell, &watch))
}

#[test]
fn two_threads_fire_one_cell(rt: HostRuntime) -> Result<(), Fail> {
    let found = by_two(&rt, rt.alloc())?;
    assert!(rt; found == (true, true));
    Ok(())
}

/// What goes to a thread, and what threads share.
fn for_threads<T: Send + Sync>(value: T) -> T {
    value
}

#[test]
fn all_may_go_to_threads(rt: HostRuntime) -> Result<(), Fail> {
    let (book, front, cell) = one_cell(rt.alloc())?;
    let _book = for_threads(book);
    let _front = for_threads(front);
    let _watch = for_threads(Watch::of(for_threads(cell)));
    Ok(())
}
