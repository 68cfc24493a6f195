//! The summary of what made clients leave.
ghost use Rattle.std.specs.Prelude.{◌≡◌, ◌++◌, IfOk, OnOk};
ghost use Rattle.memdb.specs.Made.{count_line, four_lines, summary};
ghost use Rattle.memdb.specs.inner.LastState.{IsLastMade};

use crate::made::inputs::made_inputs;
use crate::made::last::last_state;
use crate::made::tally::Tally;
use crate::output::write_number;
use crate::words::Numbers;
use mdb_ports::Gate;
use mem_txn::ReadTxn;
use std::alloc::{AllocError, Global};
use std::mem;
use std::sync::Wait;
use std::thread::Threads;

/// The summary of clients that are made from these numbers, after they have run on a new database,
/// each on a thread of its own: `clients C`, `commits N`, `rows R` and `ages S`, a line each.
pub fn made_summary<R: Threads + Wait + Sync, G: Gate + Sync>(
    rt: &R,
    alloc: Global,
    gate: &G,
    numbers: &Numbers,
) -> Result<Vec<u8>, AllocError>
    ensures { IfOk result (λ text. text.items ≡ summary numbers.now) }
{
    let last = made_state(rt, alloc, gate, numbers)?;
    let tally = Tally::of(alloc, &last)?;
    // As in `answers`, its memory goes with the program's.
    mem::forget(last);
    four_lines(alloc, numbers.clients(), &tally)
}

/// The state that clients leave that are made from these numbers.
fn made_state<R: Threads + Wait + Sync, G: Gate + Sync>(
    rt: &R,
    alloc: Global,
    gate: &G,
    numbers: &Numbers,
) -> Result<ReadTxn, AllocError>
    ensures { IfOk result (λ last. IsLastMade numbers.now last.view) }
{
    numbers.are_in_range();
    let (schema, scripts) = made_inputs(alloc, numbers)?;
    last_state(rt, alloc, gate, schema, scripts)
}

/// The four lines of a summary.
fn four_lines(alloc: Global, clients: u32, tally: &Tally) -> Result<Vec<u8>, AllocError>
    ensures { let t = tally.now in
        IfOk result (λ text. text.items ≡ four_lines clients t.commits t.rows t.ages) }
{
    let mut text = Vec::new(alloc);
    write_lines(clients, tally, &mut text)?;
    Ok(text)
}

/// Adds the same four lines.
fn write_lines(clients: u32, tally: &Tally, text: &mut Vec<u8>) -> Result<(), AllocError>
    ensures { let t = tally.now in
        OnOk result (text.new.items
        ≡ text.old.items ++ four_lines clients t.commits t.rows t.ages) }
{
    write_count(b"clients ", u64::from(clients), text)?;
    write_count(b"commits ", tally.commits, text)?;
    write_count(b"rows ", tally.rows, text)?;
    write_count(b"ages ", tally.ages, text)
}

/// Adds a word, a number, and the end of the line.
fn write_count(word: &[u8], number: u64, text: &mut Vec<u8>) -> Result<(), AllocError>
    ensures { OnOk result (text.new.items ≡ text.old.items ++ count_line word.now number) }
{
    text.extend_from_slice(word)?;
    write_number(number, text)?;
    text.push(b'\n')?;
    Ok(())
}
