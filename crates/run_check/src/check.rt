//! The check of an output.
ghost use Rattle.std.specs.Prelude.{[], IfOk, List};
ghost use Rattle.mdb_datum.specs.Bytes.{Bytes};
ghost use Rattle.mdb_schema.specs.LawfulSchema.{IsLawfulSchema};
ghost use Rattle.mdb_schema.specs.Schema.{DbSchema};
ghost use Rattle.run_check.specs.Checked.{IsChecked};
ghost use Rattle.run_check.specs.FirstBad.{found_by};
ghost use Rattle.run_check.specs.OutputView.{output_of};
ghost use Rattle.run_check.specs.Verdicts.{IsVerdict};
ghost use Rattle.run_check.specs.inner.CheckView.{IsOutputOf, IsReady, Judges, WasRead};

use crate::history::history_of;
use crate::output::{Output, read_output};
use crate::session::Sessions;
use crate::stop::Stop;
use crate::verdict::Verdict;
use client_script::Scripts;
use mdb_schema::Schema;
use run_io::Texts;
use std::alloc::{AllocError, Global};

/// Whether a text is one history of clients whose files have these names and whose scripts are these;
/// if not, the first bad line.
///
/// It takes memory for the history, and for what each client keeps.
pub fn check_output(
    alloc: Global,
    schema: &Schema,
    words: &Texts,
    scripts: &Scripts,
    out: &[u8],
) -> Result<Verdict, AllocError>
    requires { IsChecked words.now scripts.now out.now }
    ensures { IfOk result (λ verdict. IsVerdict schema.now words.now scripts.now out.now verdict) }
{
    // That the schema is lawful `len` tells, and the laws of verdicts want it.
    let _tables = schema.len();
    match check_all(alloc, schema, words, scripts, out) {
        Ok(()) => Ok(Verdict::Legal),
        Err(Stop::Bad { line }) => Ok(Verdict::Not { line }),
        Err(Stop::Memory) => Err(AllocError),
    }
}

/// The four tests, one after the other.
fn check_all(
    alloc: Global,
    schema: &Schema,
    words: &Texts,
    scripts: &Scripts,
    out: &[u8],
) -> Result<(), Stop>
    requires lawful { IsLawfulSchema schema.now }
    requires checked { IsChecked words.now scripts.now out.now }
    ensures { Judges schema.now words.now scripts.now out.now result }
{
    let output = read_output(alloc, words, scripts, out)?;
    check_sessions(alloc, schema, scripts, &output)
}

/// The fourth: each client's replies, in the history that the commits make.
fn check_sessions(
    alloc: Global,
    schema: &Schema,
    scripts: &Scripts,
    output: &Output<'_>,
) -> Result<(), Stop>
    requires lawful { IsLawfulSchema schema.now }
    requires read { WasRead scripts.now output.now }
    ensures { (names : List Bytes) (out : Bytes) → IsOutputOf names scripts.now out output.now
        → Judges schema.now names scripts.now out result }
{
    let store = history_of(alloc, schema, scripts, &output.commits, &output.order)?;
    let mut sessions = Sessions {
        alloc,
        schema,
        store,
        commits: &output.commits,
        order: &output.order,
        begun: 0,
        text: Vec::new(alloc),
    };
    check_clients(&mut sessions, scripts, output)
}

/// The same, where no client has been looked at yet.
fn check_clients<'a>(
    sessions: &mut Sessions<'a>,
    scripts: &'a Scripts,
    output: &Output<'_>,
) -> Result<(), Stop>
    requires ready { (schema : DbSchema) × (names : List Bytes) × (out : Bytes) × IsLawfulSchema schema
        × IsOutputOf names scripts.now out output.now
        × IsReady schema (found_by schema (output_of scripts.now output.now)).history [] sessions.old }
    ensures { (schema : DbSchema) (names : List Bytes) (out : Bytes) → IsLawfulSchema schema
        → IsOutputOf names scripts.now out output.now
        → IsReady schema (found_by schema (output_of scripts.now output.now)).history [] sessions.old
        → Judges schema names scripts.now out result }
{
    for (client, replies) in output.clients.iter().enumerate() {
        let Some(script) = scripts.get(client) else {
            return Ok(());
        };
        sessions.check_client(client, script, replies)?;
    }
    Ok(())
}
