//! The log that a pass keeps.
ghost use Rattle.std.specs.Prelude.{◌≡◌, IfOk};

use super::{Duo, Entry, Roll, commit, numbers};
use db_front::{Pass, Shared};
use std::alloc::{AllocError, Global};
use std::sync::Wait;
use std::test::*;
use watch_word::{Front, Watch, fire, open_book, open_cell};

/// A log in which a cell has fired, and a watch of the cell.
fn fired_cell(alloc: Global) -> Result<(Front, Watch), AllocError>
    ensures { IfOk result (λ t. t.1.book ≡ t.0.book) }
{
    let (book, front) = open_book(alloc)?;
    let cell = open_cell(alloc, &book, &front, 7)?;
    let log = fire(&front, &cell, 1);
    Ok((log, Watch::of(cell)))
}

/// Keeps the log, and then commits and looks. Whether the cell has fired by the log that is then
/// kept, which is of the cell's book since these calls leave it.
fn is_fired_in_kept<R: Wait>(
    rt: &R,
    alloc: Global,
    shared: &Shared<Roll>,
    pass: &mut Pass<Roll>,
    log: Front,
    watch: &Watch,
) -> Result<bool, AllocError>
    requires pass { (pass.old.table ≡ shared.now.table) × (pass.old.stage ≡ 0) }
    requires watch { watch.now.book ≡ log.book }
    ensures pass { (pass.new.table ≡ pass.old.table) × (pass.new.stage ≡ 0)
        × (pass.new.number ≡ pass.old.number) }
    ensures log { pass.new.log ≡ log }
{
    pass.keep(log);
    commit(rt, alloc, shared, pass, Entry { caller: 1, own: 1 })?;
    numbers(rt, shared, pass)?;
    Ok(watch.moved(pass.log()).fired)
}

/// The same with the first pass of a front.
fn is_fired<R: Wait>(rt: &R, alloc: Global, duo: &mut Duo) -> Result<bool, AllocError> {
    let (log, watch) = fired_cell(alloc)?;
    is_fired_in_kept(rt, alloc, &duo.shared, &mut duo.one, log, &watch)
}

/// What `is_fired` finds in a front of its own.
fn found<R: Wait>(rt: &R, alloc: Global) -> Result<bool, AllocError> {
    let mut duo = Duo::opened(alloc, None)?;
    let found = is_fired(rt, alloc, &mut duo);
    duo.end(rt);
    found
}

#[test]
fn a_pass_keeps_the_log_that_it_is_given(rt: HostRuntime) -> Result<(), Fail> {
    assert!(rt; found(&rt, rt.alloc())?);
    Ok(())
}
