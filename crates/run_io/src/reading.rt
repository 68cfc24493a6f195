//! The scripts of clients, from the bytes of their files. They are read side by side.
ghost use Rattle.std.specs.Prelude.{◌≡◌, ◌+◌, ◌≤◌, ◌<◌, ◌^◌, ◌++◌, ℕ, List, OnOk, IfSome, length};
ghost use Rattle.std.specs.Thread.{IsSync};
ghost use Rattle.client_script.specs.Script.{script_in};
ghost use Rattle.mdb_datum.specs.Bytes.{Bytes};
ghost use Rattle.run_io.specs.Inputs.{script_answer, scripts_in};
ghost use Rattle.run_io.specs.inner.ContentsOf.{bytes_in};
ghost use Rattle.run_io.specs.inner.ReadingResult.{IsReadingResult};

use crate::load_error::LoadError;
use client_script::{Script, ScriptError, Scripts, read_script};
use deep_thread::join_deep;
use std::alloc::{AllocError, Global};
use std::sync::Wait;
use std::thread::Threads;

/// The bytes of the stack of each thread that reads, whatever the host's own limit says. The reading
/// of a document goes down level by level, of which it may have 100.
const STACK: usize = 8 * 1024 * 1024;

/// The scripts that the bytes of clients read as, in order. They are read side by side, as far as
/// the host gives threads.
///
/// # Errors
/// The first rule that is broken, in the order of the clients; `Memory` may come at any of them.
pub fn read_scripts<R: Threads + Wait + Sync>(
    rt: &R,
    alloc: Global,
    clients: &[Vec<u8>],
) -> Result<Scripts, LoadError>
    requires few { length clients.now < 2 ^ 32 }
    ensures { IsReadingResult (scripts_in 1 (bytes_in clients.now)) result }
{
    read_range(rt, alloc, 1, clients)
}

/// The scripts of clients that are numbered from `first`: one half of several is read on a thread of
/// its own, and where none can be had all are read on this one.
#[cycle(read_range)]
fn read_range<R: Threads + Wait + Sync>(
    rt: &R,
    alloc: Global,
    first: u32,
    clients: &[Vec<u8>],
) -> Result<Scripts, LoadError>
    requires sync { IsSync R.row }
    requires few { first + length clients.now ≤ 2 ^ 32 }
    ensures { IsReadingResult (scripts_in first (bytes_in clients.now)) result }
{
    if clients.len() < 2 {
        return read_in_turn(alloc, first, clients);
    }
    let (front, back) = clients.split_at(clients.len() / 2);
    match read_both(rt, alloc, first, front, back) {
        Some((scripts, more)) => joined(scripts, more),
        None => read_in_turn(alloc, first, clients),
    }
}

/// The scripts of two lists of clients, which are numbered from `first`, read side by side. There are
/// none where no thread can be had.
#[cycle(read_range)]
fn read_both<R: Threads + Wait + Sync>(
    rt: &R,
    alloc: Global,
    first: u32,
    front: &[Vec<u8>],
    back: &[Vec<u8>],
) -> Option<(Result<Scripts, LoadError>, Result<Scripts, LoadError>)>
    requires sync { IsSync R.row }
    requires some { (1 ≤ length front.now) × (1 ≤ length back.now) }
    requires few { first + length front.now + length back.now ≤ 2 ^ 32 }
    ensures front { IfSome result
        (λ read. IsReadingResult (scripts_in first (bytes_in front.now)) read.0) }
    ensures back { IfSome result
        (λ read. IsReadingResult (scripts_in (first + length front.now) (bytes_in back.now)) read.1) }
{
    let middle = first + front.len() as u32;
    let (scripts, more) = join_deep(
        rt,
        STACK,
        &mut || -> Result<Scripts, LoadError>
            requires { IsSync R.row × (first + length front.now ≤ 2 ^ 32) }
            ensures { IsReadingResult (scripts_in first (bytes_in front.entry.now)) result }
        { read_range(rt, alloc, first, front) },
        &mut || -> Result<Scripts, LoadError>
            requires { IsSync R.row × (middle + length back.now ≤ 2 ^ 32) }
            ensures { IsReadingResult (scripts_in middle (bytes_in back.entry.now)) result }
        { read_range(rt, alloc, middle, back) },
    );
    match (scripts, more) {
        (Some(scripts), Some(more)) => Some((scripts, more)),
        _ => None,
    }
}

/// The scripts of two lists of clients as one list. A fault of the front comes before one of the
/// back.
fn joined(
    front: Result<Scripts, LoadError>,
    back: Result<Scripts, LoadError>,
) -> Result<Scripts, LoadError>
    ensures { (first : ℕ) (fore rest : List Bytes)
        → IsReadingResult (scripts_in first fore) front
        → IsReadingResult (scripts_in (first + length fore) rest) back
        → IsReadingResult (scripts_in first (fore ++ rest)) result }
{
    let mut scripts = front?;
    let more = back?;
    add_all(&mut scripts, more)?;
    Ok(scripts)
}

/// Adds scripts at the end of a list.
fn add_all(scripts: &mut Scripts, more: Scripts) -> Result<(), AllocError>
    ensures { OnOk result (scripts.new ≡ scripts.old ++ more) }
{
    let mut more = more;
    while let Some(script) = more.take() {
        scripts.push(script)?;
    }
    Ok(())
}

/// The scripts of clients that are numbered from `first`, one after the other.
fn read_in_turn(alloc: Global, first: u32, clients: &[Vec<u8>]) -> Result<Scripts, LoadError>
    requires few { first + length clients.now ≤ 2 ^ 32 }
    ensures { IsReadingResult (scripts_in first (bytes_in clients.now)) result }
{
    let mut scripts = Scripts::new(alloc);
    for (at, bytes) in clients.iter().enumerate() {
        let client = first + at as u32;
        scripts.push(read_client(alloc, client, bytes)?)?;
    }
    Ok(scripts)
}

/// The script that the bytes of the client of this number read as.
fn read_client(alloc: Global, client: u32, bytes: &[u8]) -> Result<Script, LoadError>
    ensures { IsReadingResult (script_answer client (script_in bytes.now)) result }
{
    match read_script(alloc, bytes) {
        Ok(script) => Ok(script),
        Err(ScriptError::Memory) => Err(LoadError::Memory),
        Err(error) => Err(LoadError::Script { client, error }),
    }
}
