//! From the words and the files to what a run writes.
ghost use Rattle.std.specs.Prelude.{◌≡◌, ◌≤◌, None, Some, IfOk, List, length};
ghost use Rattle.client_script.specs.Legal.{Legal};
ghost use Rattle.mdb_datum.specs.Bytes.{Bytes};
ghost use Rattle.memdb.specs.Made.{summary};
ghost use Rattle.memdb.specs.Outcome.{IsAnswer};
ghost use Rattle.memdb.specs.Words.{files_named, run_named};
ghost use Rattle.memdb.specs.inner.CommandOf.{IsCommandOf};
ghost use Rattle.run_io.specs.NamedOf.{named_of};
ghost use Rattle.run_io.specs.Observed.{observed, Stays};

use crate::answers::answers;
use crate::checking::checked;
use crate::made::made_summary;
use crate::output::{Output, usage};
use crate::words::{Command, Numbers};
use mdb_datum::Text;
use mdb_ports::{Files, Gate};
use run_io::{Inputs, Named, load, refusal_of};
use std::alloc::{AllocError, Global};
use std::sync::Wait;
use std::thread::Threads;

/// The output for words and the files that they name. Words that are no command touch no file. It
/// takes memory for the files' bytes, the scripts and the text.
pub fn outcome<R: Threads + Wait + Sync, F: Files, G: Gate + Sync>(
    rt: &R,
    alloc: Global,
    words: &[Text],
    files: &mut F,
    gate: &G,
) -> Result<Output, AllocError>
    ensures stays { let seen = observed (F.told files.old) (F.reliable files.old)
        (F.faults files.old) (F.faults files.new) in
        Stays seen (F.told files.new) (F.reliable files.new) }
    ensures answer { let seen = observed (F.told files.old) (F.reliable files.old)
        (F.faults files.old) (F.faults files.new) in
        IfOk result (λ output. IsAnswer words.now seen output.status output.text.items) }
    ensures untouched { files_named words.now ≡ None → files.new ≡ files.old }
{
    let command = Command::of(alloc, words)?;
    answered(rt, alloc, command, files, gate)
}

/// The output for a command, or for words that are none.
fn answered<R: Threads + Wait + Sync, F: Files, G: Gate + Sync>(
    rt: &R,
    alloc: Global,
    command: Option<Command>,
    files: &mut F,
    gate: &G,
) -> Result<Output, AllocError>
    ensures stays { let seen = observed (F.told files.old) (F.reliable files.old)
        (F.faults files.old) (F.faults files.new) in
        Stays seen (F.told files.new) (F.reliable files.new) }
    ensures answer { let seen = observed (F.told files.old) (F.reliable files.old)
        (F.faults files.old) (F.faults files.new) in
        IfOk result (λ output. (words : List Bytes)
        → IsCommandOf words command
        → IsAnswer words seen output.status output.text.items) }
    ensures untouched { (words : List Bytes) → IsCommandOf words command
        → files_named words ≡ None → files.new ≡ files.old }
{
    match command {
        Some(Command::Run(named)) => loaded(rt, alloc, &named, files, gate),
        Some(Command::Make(numbers)) => summed_up(rt, alloc, gate, &numbers),
        Some(Command::Check(named)) => checked(rt, alloc, &named, files),
        None => usage(alloc),
    }
}

/// The output of clients that are made from three numbers.
fn summed_up<R: Threads + Wait + Sync, G: Gate + Sync>(
    rt: &R,
    alloc: Global,
    gate: &G,
    numbers: &Numbers,
) -> Result<Output, AllocError>
    ensures { IfOk result (λ output. (output.status ≡ 0)
        × (output.text.items ≡ summary numbers.now)) }
{
    let text = made_summary(rt, alloc, gate, numbers)?;
    Ok(Output { status: 0, text })
}

/// The output for the files that `run` names.
fn loaded<R: Threads + Wait + Sync, F: Files, G: Gate + Sync>(
    rt: &R,
    alloc: Global,
    named: &Named,
    files: &mut F,
    gate: &G,
) -> Result<Output, AllocError>
    ensures stays { let seen = observed (F.told files.old) (F.reliable files.old)
        (F.faults files.old) (F.faults files.new) in
        Stays seen (F.told files.new) (F.reliable files.new) }
    ensures answer { let seen = observed (F.told files.old) (F.reliable files.old)
        (F.faults files.old) (F.faults files.new) in
        IfOk result (λ output. (words : List Bytes) → run_named words ≡ Some (named_of named.now)
        → IsAnswer words seen output.status output.text.items) }
{
    match load(rt, alloc, files, &named.schema, &named.clients) {
        Ok(inputs) => output_of(rt, alloc, gate, named.names(), inputs),
        Err(error) => refusal_of(alloc, named, error),
    }
}

/// The answers to the scripts of clients whose files have these names.
fn output_of<R: Threads + Wait + Sync, G: Gate + Sync>(
    rt: &R,
    alloc: Global,
    gate: &G,
    names: &[Text],
    inputs: Inputs,
) -> Result<Output, AllocError>
    requires named { length names.now ≡ length inputs.scripts }
    requires some { 1 ≤ length names.now }
    requires few { length names.now ≤ 64 }
    ensures status { IfOk result (λ output. output.status ≡ 0) }
    ensures legal { IfOk result
        (λ output. Legal inputs.schema names.now inputs.scripts output.text.items) }
{
    let Inputs { schema, scripts } = inputs;
    let text = answers(rt, alloc, gate, names, schema, scripts)?;
    Ok(Output { status: 0, text })
}
