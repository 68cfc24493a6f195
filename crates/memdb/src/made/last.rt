//! The state that clients leave when all are done.
ghost use Rattle.std.specs.Prelude.{◌≤◌, IfOk, length};
ghost use Rattle.memdb.specs.inner.LastState.{IsLast};

use crate::sessions::run_clients;
use client_script::Scripts;
use client_session::Clients;
use mdb_ports::Gate;
use mdb_schema::Schema;
use mem_txn::ReadTxn;
use std::alloc::{AllocError, Global};
use std::sync::Wait;
use std::thread::Threads;

/// The state after the sessions of these scripts, each on a thread of its own, on a new database.
pub(crate) fn last_state<R: Threads + Wait + Sync, G: Gate + Sync>(
    rt: &R,
    alloc: Global,
    gate: &G,
    schema: Schema,
    scripts: Scripts,
) -> Result<ReadTxn, AllocError>
    requires some { 1 ≤ length scripts }
    requires few { length scripts ≤ 64 }
    ensures { IfOk result (λ last. IsLast schema scripts last.view) }
{
    let mut clients = Clients::open(alloc, schema, scripts, 0)?;
    let done = run_clients(rt, gate, &mut clients);
    let last = clients.close(rt);
    match done {
        Ok(()) => Ok(last),
        Err(error) => Err(error),
    }
}
