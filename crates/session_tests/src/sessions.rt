//! Whole sessions: scripts with the text of their answers, worked from the format of both.
ghost use Rattle.std.specs.Prelude.{◌≡◌, IfOk};
ghost use Rattle.mem_txn.specs.CellHistory.{Forest};
ghost use Rattle.mem_txn.specs.Database.{new_callers};

use crate::worked::{USERS, Worked, joined};
use client_script::{Script, read_script};
use client_session::{Session, Stepped};
use mdb_ports::OpenGate;
use mdb_schema::{Schema, read_schema};
use mem_txn::{Db, Passes};
use std::alloc::{AllocError, Global};
use std::marker::Model;
use std::sync::Wait;
use std::test::Fail;

mod callers;
mod runs;
mod steps;

/// Whether what was told is right. A text that can't be read counts as want of memory, which ends a
/// test.
type Told = Result<bool, AllocError>;

/// The schema that a text reads as.
fn schema_of(alloc: Global, text: &str) -> Result<Schema, AllocError> {
    match read_schema(alloc, text.as_bytes()) {
        Ok(schema) => Ok(schema),
        Err(_) => Err(AllocError),
    }
}

/// The script that a text reads as.
fn script_of(alloc: Global, text: &str) -> Result<Script, AllocError> {
    match read_script(alloc, text.as_bytes()) {
        Ok(script) => Ok(script),
        Err(_) => Err(AllocError),
    }
}

/// A new database under the schema that a text reads as, and the pass of its one caller.
fn new_db(alloc: Global, schema: &str) -> Result<(Db, Passes), AllocError>
    ensures passes { IfOk result
        (λ made. (opening : Forest) × (made.1 ≡ new_callers made.0 opening 1)) }
    ensures alone { IfOk result (λ made. made.0.callers ≡ 1) }
{
    Db::create(alloc, schema_of(alloc, schema)?, 1)
}

/// A database of one caller, and the caller's session.
struct Solo {
    db: Db,
    passes: Passes,
    session: Session,
}

impl Model for Solo {
    ghost use Rattle.std.specs.Prelude.{◌≡◌, []};
    ghost use Rattle.mem_txn.specs.CallerOf.{IsCaller};

    ghost Value = { Unit {0} };

    ghost view = { λ s. tt };

    ghost invariant = { λ s. IsCaller s.db 1 s.session.caller × (s.db.callers ≡ 1)
        × (s.passes ≡ record { passes = []; made = 1 }) };
}

impl Solo {
    /// A session of the script that a text reads as, in a new database of users.
    fn opened(alloc: Global, script: &str) -> Result<Solo, AllocError> {
        Solo::under(alloc, USERS, script)
    }

    /// The same under the schema that a text reads as.
    fn under(alloc: Global, schema: &str, script: &str) -> Result<Solo, AllocError> {
        Solo::of(alloc, schema, script_of(alloc, script)?)
    }

    /// A session of a script in a new database.
    fn of(alloc: Global, schema: &str, script: Script) -> Result<Solo, AllocError> {
        let (db, mut passes) = new_db(alloc, schema)?;
        match passes.take() {
            Some(pass) => Ok(Solo {
                db,
                passes,
                session: Session::new(alloc, pass.number(), script, pass),
            }),
            None => unreachable!(),
        }
    }

    /// Whether the text of the answers is this.
    fn has_told(&self, answers: &str) -> bool {
        self.session.answers() == answers.as_bytes()
    }

    /// Runs the session, and tells whether the text of its answers is this then.
    fn tells<R: Wait>(&mut self, rt: &R, answers: &str) -> Told {
        self.session.run(rt, &self.db, &OpenGate)?;
        Ok(self.has_told(answers))
    }

    /// Takes one step.
    fn step<R: Wait>(&mut self, rt: &R) -> Result<Stepped, AllocError> {
        self.session.step(rt, &self.db)
    }

    /// How many watches the set has that the next line waits for, and whether another watch cancels
    /// the wait; nothing where it waits for none.
    fn awaited(&self) -> Option<(usize, bool)> {
        let waits = self.session.waits_for()?;
        Some((waits.set.len(), waits.until.is_some()))
    }

    /// Ends the session and closes its database, and gives the number of commits.
    fn close<R: Wait>(self, rt: &R) -> u64 {
        let Solo {
            db,
            mut passes,
            session,
        } = self;
        passes.give(session.end(&db));
        db.close(rt, passes).number()
    }
}

/// A session of the script of a worked session's one client, in a new database, and the length of
/// the script.
fn opened_of(alloc: Global, worked: Worked) -> Result<(Solo, usize), AllocError> {
    let session = worked.session();
    let script = match session.clients {
        [(_name, parts), ..] => joined(alloc, parts)?,
        [] => String::new(alloc),
    };
    let solo = Solo::under(alloc, session.schema, &script)?;
    Ok((solo, script.len()))
}

/// What the one client of a worked session is told: its output behind the heading.
fn answers_of(alloc: Global, worked: Worked) -> Result<String, AllocError> {
    let output = joined(alloc, worked.session().output)?;
    match output.split_once('\n') {
        Some((_heading, answers)) => String::from_str(alloc, answers),
        None => Ok(output),
    }
}

/// What goes to a thread.
fn may_be_sent<T: Send>(_value: &T) {}

#[test]
fn all_may_go_to_threads(rt: HostRuntime) -> Result<(), Fail> {
    let solo = Solo::opened(rt.alloc(), "")?;
    may_be_sent(&solo.session);
    solo.close(&rt);
    Ok(())
}
