//! The check of an output: whether its bytes are one history of clients.
ghost use Rattle.std.specs.Prelude.{◌≡◌, ◌++◌, ◌∷◌, [], IfOk, List, Some, None, codes, decimal};
ghost use Rattle.mdb_datum.specs.Bytes.{Bytes};
ghost use Rattle.memdb.specs.Outcome.{IsAnswer};
ghost use Rattle.memdb.specs.Words.{check_named, run_named};
ghost use Rattle.memdb.specs.inner.Checking.{AreInputs, AnswersOutput, TellsOf, TellsVerdict};
ghost use Rattle.memdb.specs.inner.CommandOf.{checked_of};
ghost use Rattle.run_check.specs.Checked.{IsChecked};
ghost use Rattle.run_io.specs.Observed.{observed, Stays};

use crate::output::{Output, write_number};
use crate::words::CheckedFiles;
use mdb_ports::Files;
use run_check::{Verdict, check_output};
use run_io::{Inputs, load, load_output, output_refusal, refusal_of};
use std::alloc::{AllocError, Global};
use std::sync::Wait;
use std::thread::Threads;

/// The output of the check of these files. The inputs are loaded first, then the output, and then it
/// is checked. It takes memory for the files' bytes, the scripts and what the check keeps.
pub fn checked<R: Threads + Wait + Sync, F: Files>(
    rt: &R,
    alloc: Global,
    named: &CheckedFiles,
    files: &mut F,
) -> Result<Output, AllocError>
    ensures stays { let seen = observed (F.told files.old) (F.reliable files.old)
        (F.faults files.old) (F.faults files.new) in
        Stays seen (F.told files.new) (F.reliable files.new) }
    ensures answer { let seen = observed (F.told files.old) (F.reliable files.old)
        (F.faults files.old) (F.faults files.new) in
        IfOk result (λ output. (words : List Bytes) → run_named words ≡ None
        → check_named words ≡ Some (checked_of named.now)
        → IsAnswer words seen output.status output.text.items) }
{
    match load(
        rt,
        alloc,
        files,
        &named.inputs.schema,
        &named.inputs.clients,
    ) {
        Ok(inputs) => output_checked(alloc, named, &inputs, files),
        Err(error) => refusal_of(alloc, &named.inputs, error),
    }
}

/// The same, where the inputs are loaded.
fn output_checked<F: Files>(
    alloc: Global,
    named: &CheckedFiles,
    inputs: &Inputs,
    files: &mut F,
) -> Result<Output, AllocError>
    requires inputs { AreInputs named.now.inputs.clients inputs.now.scripts }
    ensures stays { let seen = observed (F.told files.old) (F.reliable files.old)
        (F.faults files.old) (F.faults files.new) in
        Stays seen (F.told files.new) (F.reliable files.new) }
    ensures answer { let seen = observed (F.told files.old) (F.reliable files.old)
        (F.faults files.old) (F.faults files.new) in
        IfOk result (λ output. AnswersOutput inputs.now (checked_of named.now) seen
        output.status output.text.items) }
{
    match load_output(alloc, files, &named.output) {
        Ok(bytes) => verdict_on(alloc, named, inputs, &bytes),
        Err(error) => output_refusal(alloc, &named.output, error),
    }
}

/// The output for the verdict on the bytes of an output.
fn verdict_on(
    alloc: Global,
    named: &CheckedFiles,
    inputs: &Inputs,
    bytes: &[u8],
) -> Result<Output, AllocError>
    requires checked { IsChecked named.now.inputs.clients inputs.now.scripts bytes.now }
    ensures { IfOk result (λ output. TellsOf inputs.now named.now.inputs.clients bytes.now
        output.status output.text.items) }
{
    let names = &named.inputs.clients;
    let verdict = check_output(alloc, &inputs.schema, names, &inputs.scripts, bytes)?;
    told(alloc, verdict)
}

/// The output for a verdict.
fn told(alloc: Global, verdict: Verdict) -> Result<Output, AllocError>
    ensures { IfOk result (λ output. TellsVerdict verdict output.status output.text.items) }
{
    let (status, text) = match verdict {
        Verdict::Legal => (0, Vec::from_slice(alloc, b"legal\n")?),
        Verdict::Not { line } => (10, line_text(alloc, line)?),
    };
    Ok(Output { status, text })
}

/// `line ` and a number, as a line.
fn line_text(alloc: Global, line: u32) -> Result<Vec<u8>, AllocError>
    ensures { IfOk result (λ text. text.items ≡ codes "line " ++ (decimal line ++ 10 ∷ [])) }
{
    let mut text = Vec::from_slice(alloc, b"line ")?;
    write_number(u64::from(line), &mut text)?;
    text.push(b'\n')?;
    Ok(text)
}
