//! What clients are answered: the text of their sessions on one database.
ghost use Rattle.std.specs.Prelude.{◌≡◌, ◌≤◌, IfOk, length};
ghost use Rattle.client_script.specs.Legal.{Legal};
ghost use Rattle.client_session.specs.Clients.{AreLater, AreReady, headed};
ghost use Rattle.memdb.specs.inner.Sessions.{HaveAnswered};

use crate::sessions::run_clients;
use client_script::Scripts;
use client_session::Clients;
use mdb_datum::Text;
use mdb_ports::Gate;
use mdb_schema::Schema;
use std::alloc::{AllocError, Global};
use std::mem;
use std::sync::Wait;
use std::thread::Threads;

/// The whole output for clients whose files have these names: for each in order its heading, and
/// the answers to its script. Each session runs on a thread of its own, on a new database.
pub fn answers<R: Threads + Wait + Sync, G: Gate + Sync>(
    rt: &R,
    alloc: Global,
    gate: &G,
    names: &[Text],
    schema: Schema,
    scripts: Scripts,
) -> Result<Vec<u8>, AllocError>
    requires named { length names.now ≡ length scripts }
    requires some { 1 ≤ length names.now }
    requires few { length names.now ≤ 64 }
    ensures { IfOk result (λ out. Legal schema names.now scripts out.items) }
{
    let mut clients = Clients::open(alloc, schema, scripts, 0)?;
    let out = answers_of(rt, alloc, gate, names, &mut clients);
    // The program ends soon, and its memory goes as a whole: to free each row and node takes time.
    mem::forget(clients.close(rt));
    out
}

/// Carries out the sessions of clients, and gives the text of them all.
fn answers_of<R: Threads + Wait + Sync, G: Gate + Sync>(
    rt: &R,
    alloc: Global,
    gate: &G,
    names: &[Text],
    clients: &mut Clients,
) -> Result<Vec<u8>, AllocError>
    requires ready { AreReady clients.old.db clients.old.sessions.items }
    requires named { length names.now ≡ length clients.old.sessions.items }
    ensures answered { IfOk result
        (λ out. HaveAnswered clients.old.sessions.items clients.new.sessions.items) }
    ensures text { IfOk result
        (λ out. out.items ≡ headed 1 names.now clients.new.sessions.items) }
    ensures later { AreLater clients.old.sessions.items clients.new.sessions.items }
    ensures db { clients.new.db ≡ clients.old.db }
    ensures passes { clients.new.passes ≡ clients.old.passes }
{
    run_clients(rt, gate, clients)?;
    clients.answers(alloc, names)
}
