//! From the words and the files to what a run writes.
ghost use Rattle.std.specs.Prelude.{◌≡◌, ◌≤◌, None, Some, IfOk, IfSome, List, length};
ghost use Rattle.std.specs.Prelude.{option_map};
ghost use Rattle.mdb_datum.specs.Bytes.{Bytes};
ghost use Rattle.run_io.specs.NamedOf.{named_of};
ghost use Rattle.run_io.specs.Observed.{observed, Stays};
ghost use Rattle.session_loop.specs.Outcome.{IsAnswer};
ghost use Rattle.session_loop.specs.Words.{files_named};
ghost use Rattle.session_loop.specs.inner.Endings.{IsDoneOrStuck};

use crate::answers::answers;
use crate::output::usage;
use mdb_datum::Text;
use mdb_ports::Files;
use run_io::{Inputs, Named, Output, load, refusal_of};
use std::alloc::{AllocError, Global};
use std::sync::Wait;
use std::thread::Threads;

/// As many clients as there may be: a database has 64 passes, and one is the loop's own.
const MOST_CLIENTS: usize = 63;

/// The output for words and the files that they name. Words that are no command touch no file. It
/// takes memory for the files' bytes, the scripts and the text.
pub fn outcome<R: Threads + Wait + Sync, F: Files>(
    rt: &R,
    alloc: Global,
    words: &[Text],
    files: &mut F,
) -> Result<Output, AllocError>
    ensures stays { let seen = observed (F.told files.old) (F.reliable files.old)
        (F.faults files.old) (F.faults files.new) in
        Stays seen (F.told files.new) (F.reliable files.new) }
    ensures answer { let seen = observed (F.told files.old) (F.reliable files.old)
        (F.faults files.old) (F.faults files.new) in
        IfOk result (λ output. IsAnswer words.now seen output.status output.text.items) }
    ensures untouched { files_named words.now ≡ None → files.new ≡ files.old }
{
    let named = Named::of(alloc, words, MOST_CLIENTS)?;
    answered(rt, alloc, named, files)
}

/// The output for the files of a command, or for words that are none.
fn answered<R: Threads + Wait + Sync, F: Files>(
    rt: &R,
    alloc: Global,
    named: Option<Named>,
    files: &mut F,
) -> Result<Output, AllocError>
    requires few { IfSome named (λ n. length n.clients ≤ 63) }
    ensures stays { let seen = observed (F.told files.old) (F.reliable files.old)
        (F.faults files.old) (F.faults files.new) in
        Stays seen (F.told files.new) (F.reliable files.new) }
    ensures answer { let seen = observed (F.told files.old) (F.reliable files.old)
        (F.faults files.old) (F.faults files.new) in
        IfOk result (λ output. (words : List Bytes)
        → option_map named_of named ≡ files_named words
        → IsAnswer words seen output.status output.text.items) }
    ensures untouched { named ≡ None → files.new ≡ files.old }
{
    match named {
        Some(named) => loaded(rt, alloc, &named, files),
        None => usage(alloc),
    }
}

/// The output for the files that a command names.
fn loaded<R: Threads + Wait + Sync, F: Files>(
    rt: &R,
    alloc: Global,
    named: &Named,
    files: &mut F,
) -> Result<Output, AllocError>
    requires { length named.now.clients ≤ 63 }
    ensures stays { let seen = observed (F.told files.old) (F.reliable files.old)
        (F.faults files.old) (F.faults files.new) in
        Stays seen (F.told files.new) (F.reliable files.new) }
    ensures answer { let seen = observed (F.told files.old) (F.reliable files.old)
        (F.faults files.old) (F.faults files.new) in
        IfOk result (λ output. (words : List Bytes) → files_named words ≡ Some (named_of named.now)
        → IsAnswer words seen output.status output.text.items) }
{
    match load(rt, alloc, files, &named.schema, &named.clients) {
        Ok(inputs) => output_of(rt, alloc, named.names(), inputs),
        Err(error) => refusal_of(alloc, named, error),
    }
}

/// The answers to the scripts of clients whose files have these names.
fn output_of<R: Wait>(
    rt: &R,
    alloc: Global,
    names: &[Text],
    inputs: Inputs,
) -> Result<Output, AllocError>
    requires named { length names.now ≡ length inputs.scripts }
    requires some { 1 ≤ length names.now }
    requires few { length names.now ≤ 63 }
    ensures { IfOk result (λ output. IsDoneOrStuck inputs.schema names.now inputs.scripts
        output.status output.text.items) }
{
    let Inputs { schema, scripts } = inputs;
    answers(rt, alloc, names, schema, scripts)
}
