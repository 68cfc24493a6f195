//! The clients of one database, from its opening to its last state.
ghost use Rattle.std.specs.Prelude.{◌≡◌, ◌+◌, ◌++◌, ◌≤◌, [], IfOk, OnOk, drop, length};
ghost use Rattle.std.specs.Prelude.{vec_capacity};
ghost use Rattle.mem_txn.specs.CellHistory.{CellHistory, Forest};
ghost use Rattle.mem_txn.specs.Database.{AreOf, IsWhole, new_callers, reading_after};
ghost use Rattle.client_script.specs.Reply.{heading};
ghost use Rattle.client_session.specs.Clients.{AreOpened, CanClose, new_sessions, callers_back};
ghost use Rattle.client_session.specs.Clients.{headed};

use crate::reply::write_number;
use crate::session::Session;
use client_script::Scripts;
use mdb_datum::Text;
use mdb_schema::Schema;
use mem_txn::{Db, Passes, ReadTxn};
use std::alloc::{AllocError, Global};
use std::sync::Wait;

/// A session for each client, and the database that they have to themselves. It can't be dropped:
/// [`Clients::close`] ends it.
pub struct Clients {
    pub db: Db,
    /// The passes that no session has.
    pub passes: Passes,
    /// The sessions, that of the first client first.
    pub sessions: Vec<Session>,
}

impl Clients {
    /// The clients of these scripts on a new database, which has so many passes more than there are
    /// clients. It takes memory for the sessions and for the database.
    pub fn open(
        alloc: Global,
        schema: Schema,
        scripts: Scripts,
        further: u32,
    ) -> Result<Clients, AllocError>
        requires some { 1 ≤ length scripts }
        requires few { length scripts + further ≤ 64 }
        ensures schema { IfOk result (λ c. c.db.schema ≡ schema) }
        ensures opened { IfOk result
            (λ c. AreOpened c.db scripts further c.passes c.sessions.items) }
    {
        // The room is made before the database, since neither a session nor a pass can be dropped.
        let room = Vec::with_capacity(alloc, scripts.len())?;
        Clients::open_in(alloc, schema, scripts, further, room)
    }

    /// The same, with room for the sessions.
    fn open_in(
        alloc: Global,
        schema: Schema,
        scripts: Scripts,
        further: u32,
        room: Vec<Session>,
    ) -> Result<Clients, AllocError>
        requires some { 1 ≤ length scripts }
        requires few { length scripts + further ≤ 64 }
        requires empty { room.items ≡ [] }
        requires room { length scripts ≤ vec_capacity room }
        ensures schema { IfOk result (λ c. c.db.schema ≡ schema) }
        ensures opened { IfOk result
            (λ c. AreOpened c.db scripts further c.passes c.sessions.items) }
    {
        match Db::create(alloc, schema, scripts.len() as u32 + further) {
            Ok((db, passes)) => Ok(Clients::of(alloc, db, passes, scripts, further, room)),
            Err(error) => {
                room.destroy_empty();
                Err(error)
            }
        }
    }

    /// The same on a new database, of which these are all passes.
    fn of(
        alloc: Global,
        db: Db,
        passes: Passes,
        scripts: Scripts,
        further: u32,
        room: Vec<Session>,
    ) -> Clients
        requires callers { db.callers ≡ length scripts + further }
        requires passes { (opening : Forest)
            × (passes ≡ new_callers db opening (length scripts + further)) }
        requires empty { room.items ≡ [] }
        requires room { length scripts ≤ vec_capacity room }
        ensures db { result.db ≡ db }
        ensures opened { AreOpened result.db scripts further result.passes result.sessions.items }
    {
        let mut passes = passes;
        let sessions = begin_all(alloc, &mut passes, scripts, room);
        Clients {
            db,
            passes,
            sessions,
        }
    }

    /// The answers so far of all sessions, each under the heading of its client, whose file has the
    /// name.
    pub fn answers(&self, alloc: Global, names: &[Text]) -> Result<Vec<u8>, AllocError>
        requires named { length names.now ≡ length self.now.sessions.items }
        ensures { IfOk result
            (λ out. out.items ≡ headed 1 names.now self.now.sessions.items) }
    {
        let mut out = Vec::new(alloc);
        for at in 0..self.sessions.len() {
            write_answers(at as u64 + 1, &names[at], &self.sessions[at], &mut out)?;
        }
        Ok(out)
    }

    /// Ends every session, aborts what is open, and gives the state after all commits. It takes no
    /// memory. All passes must be back but those of the sessions.
    pub fn close<R: Wait>(self, rt: &R) -> ReadTxn
        requires { CanClose self.db self.passes self.sessions.items }
        ensures { (J : CellHistory)
            × IsWhole self.db (self.passes.passes ++ callers_back self.sessions.items) J
            × (result ≡ reading_after self.db J) }
    {
        let Clients {
            db,
            mut passes,
            sessions,
        } = self;
        end_all(&db, sessions, &mut passes);
        db.close(rt, passes)
    }
}

/// A session for each script, the first with the first pass, put into the room that there is.
fn begin_all(
    alloc: Global,
    passes: &mut Passes,
    scripts: Scripts,
    room: Vec<Session>,
) -> Vec<Session>
    requires passes { length scripts ≤ length passes.old.passes }
    requires empty { room.items ≡ [] }
    requires room { length scripts ≤ vec_capacity room }
    ensures sessions { result.items ≡ new_sessions passes.old.passes scripts }
    ensures passes { passes.new ≡ record passes.old {
      passes = drop (length scripts) passes.old.passes;
    } }
{
    let mut scripts = scripts;
    let mut sessions = room;
    while let Some(script) = scripts.take() {
        let Some(pass) = passes.take() else {
            unreachable!();
        };
        let client = pass.number();
        sessions.push_reserved(Session::new(alloc, client, script, pass));
    }
    sessions
}

/// Ends every session, and gives its pass back, the last first. It takes no memory.
fn end_all(db: &Db, sessions: Vec<Session>, passes: &mut Passes)
    requires own { AreOf db.now (callers_back sessions.items) }
    requires room { length passes.old.passes + length sessions.items ≤ passes.old.made }
    ensures { passes.new ≡ record passes.old {
      passes = passes.old.passes ++ callers_back sessions.items;
    } }
{
    let mut sessions = sessions;
    while let Some(session) = sessions.pop() {
        passes.give(session.end(db));
    }
    sessions.destroy_empty();
}

/// Adds a heading and the answers of the session under it.
fn write_answers(
    number: u64,
    name: &Text,
    session: &Session,
    out: &mut Vec<u8>,
) -> Result<(), AllocError>
    ensures { OnOk result
        (out.new.items ≡ out.old.items ++ (heading number name.now ++ session.now.text)) }
{
    write_heading(number, name, out)?;
    out.extend_from_slice(session.answers())
}

/// Adds the line `client NUMBER NAME`.
fn write_heading(number: u64, name: &Text, out: &mut Vec<u8>) -> Result<(), AllocError>
    ensures { OnOk result (out.new.items ≡ out.old.items ++ heading number name.now) }
{
    out.extend_from_slice(b"client ")?;
    write_number(number, out)?;
    out.push(b' ')?;
    out.extend_from_slice(name.as_str().as_bytes())?;
    out.push(b'\n')?;
    Ok(())
}
