//! What clients are answered: the text of their sessions on one database.
ghost use Rattle.std.specs.Prelude.{◌≡◌, ◌≤◌, IfOk, length};
ghost use Rattle.client_session.specs.Clients.{AreLater};
ghost use Rattle.session_loop.specs.inner.Endings.{HasLoopPass, IsDoneOrStuck, IsOutputOf};
ghost use Rattle.session_loop.specs.inner.Endings.{KeepsPass};
ghost use Rattle.session_loop.specs.inner.Tasks.{AreUnspent, scripts_of};

use crate::output::output_of;
use crate::sessions::run_clients;
use client_script::Scripts;
use client_session::Clients;
use mdb_datum::Text;
use mdb_schema::Schema;
use run_io::Output;
use std::alloc::{AllocError, Global};
use std::mem;
use std::sync::Wait;

/// The whole output for clients whose files have these names: for each in order its heading, and
/// the answers to its script; where no client can go on, the answers so far, and who is stuck. The
/// sessions run in turn, on a new database.
pub fn answers<R: Wait>(
    rt: &R,
    alloc: Global,
    names: &[Text],
    schema: Schema,
    scripts: Scripts,
) -> Result<Output, AllocError>
    requires named { length names.now ≡ length scripts }
    requires some { 1 ≤ length names.now }
    requires few { length names.now ≤ 63 }
    ensures { IfOk result
        (λ out. IsDoneOrStuck schema names.now scripts out.status out.text.items) }
{
    // One pass more than there are clients, for the loop itself.
    let mut clients = Clients::open(alloc, schema, scripts, 1)?;
    let out = answers_of(rt, alloc, names, &mut clients);
    // The program ends soon, and its memory goes as a whole: to free each row and node takes time.
    mem::forget(clients.close(rt));
    out
}

/// Carries out the sessions of clients, and gives the text of them all.
fn answers_of<R: Wait>(
    rt: &R,
    alloc: Global,
    names: &[Text],
    clients: &mut Clients,
) -> Result<Output, AllocError>
    requires unspent { AreUnspent clients.old.db clients.old.sessions.items }
    requires pass { HasLoopPass clients.old.db clients.old.passes }
    requires named { length names.now ≡ length clients.old.sessions.items }
    requires few { length names.now ≤ 63 }

    ensures output { IfOk result (λ out. IsOutputOf names.now clients.new.sessions.items
        clients.new.passes out.status out.text.items) }

    ensures later { AreLater clients.old.sessions.items clients.new.sessions.items }
    ensures scripts { scripts_of clients.new.sessions.items
        ≡ scripts_of clients.old.sessions.items }
    ensures db { clients.new.db ≡ clients.old.db }
    ensures passes { KeepsPass clients.old.passes clients.new.passes }
{
    let stop = run_clients(rt, alloc, clients)?;
    let text = clients.answers(alloc, names)?;
    output_of(text, stop)
}
