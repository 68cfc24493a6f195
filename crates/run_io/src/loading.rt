//! A schema and scripts, from their files.
ghost use Rattle.std.specs.Prelude.{◌≡◌, ◌⊎◌, ◌∷◌, Result, Err};
ghost use Rattle.mdb_datum.specs.Bytes.{Bytes};
ghost use Rattle.run_io.specs.Causes.{HasNoExcuse, LeadsTo};
ghost use Rattle.run_io.specs.Loads.{Loads};
ghost use Rattle.run_io.specs.Observed.{observed, output_limit, Stays};
ghost use Rattle.run_io.specs.OneFile.{LeadsToBytes, LoadsFile, answered_bytes, bytes_of};
ghost use Rattle.run_io.specs.declared.inputs.Inputs.{Inputs};
ghost use Rattle.run_io.specs.declared.load_error.LoadError.{LoadError};
ghost use Rattle.run_io.specs.declared.load_error.LoadError.TheVariants.{Memory};
ghost use Rattle.run_io.specs.declared.output_error.OutputError.{OutputError};
ghost use Rattle.run_io.specs.declared.output_error.OutputError.TheVariants as unread;

use crate::file::{new_piece, read_file};
use crate::files::read_contents;
use crate::inputs::{Inputs, read_inputs};
use crate::load_error::LoadError;
use crate::output_error::OutputError;
use crate::texts::Texts;
use mdb_datum::Text;
use mdb_ports::Files;
use std::alloc::Global;
use std::sync::Wait;
use std::thread::Threads;

/// The most bytes of an output's file.
const OUTPUT_LIMIT: usize = 16_777_216;

/// Reads the file of a schema and then those of clients in order, each whole, and only then reads
/// the bytes as a schema and scripts. The scripts are read side by side, as far as the host gives
/// threads. It takes memory for the bytes, for one piece of a file, and for what they read as.
///
/// # Errors
/// `Read` and `TooLarge` at the first file that isn't read whole; where all are, `Schema`, and then
/// `Script` at the first client whose script breaks a rule. `Memory` may come in place of each.
pub fn load<R: Threads + Wait + Sync, F: Files>(
    rt: &R,
    alloc: Global,
    files: &mut F,
    schema: &Text,
    clients: &Texts,
) -> Result<Inputs, LoadError>
    ensures stays { let seen = observed (F.told files.old) (F.reliable files.old)
        (F.faults files.old) (F.faults files.new) in
        Stays seen (F.told files.new) (F.reliable files.new) }
    ensures loads { let seen = observed (F.told files.old) (F.reliable files.old)
        (F.faults files.old) (F.faults files.new) in
        Loads seen (schema.now ∷ clients.now) result }
    // Where its cause is there, and no fault excuses it, an answer comes, but for want of memory.
    ensures comes { let seen = observed (F.told files.old) (F.reliable files.old)
        (F.faults files.old) (F.faults files.new) in
        HasNoExcuse seen → (answer : Result Inputs LoadError)
        → LeadsTo (F.told files.old) (schema.now ∷ clients.now) answer
        → (result ≡ answer) ⊎ (result ≡ Err Memory) }
{
    let contents = read_contents(alloc, files, schema, clients.as_slice())?;
    read_inputs(rt, alloc, &contents)
}

/// Reads the file of an output whole, which may have 16,777,216 bytes. It takes memory for the bytes,
/// and for one piece of the file.
///
/// # Errors
/// `Read` where a call fails, and `TooLarge` where the file has more bytes. `Memory` may come in
/// place of each.
pub fn load_output<F: Files>(
    alloc: Global,
    files: &mut F,
    name: &Text,
) -> Result<Vec<u8>, OutputError>
    ensures stays { let seen = observed (F.told files.old) (F.reliable files.old)
        (F.faults files.old) (F.faults files.new) in
        Stays seen (F.told files.new) (F.reliable files.new) }
    ensures loads { let seen = observed (F.told files.old) (F.reliable files.old)
        (F.faults files.old) (F.faults files.new) in
        LoadsFile bytes_of output_limit seen name.now result }
    // Where its cause is there, and no fault excuses it, an answer comes, but for want of memory.
    ensures comes { let seen = observed (F.told files.old) (F.reliable files.old)
        (F.faults files.old) (F.faults files.new) in
        HasNoExcuse seen → (answer : Result Bytes OutputError)
        → LeadsToBytes output_limit (F.told files.old) name.now answer
        → (answered_bytes result ≡ answer) ⊎ (result ≡ Err unread.Memory) }
{
    let mut piece = new_piece(alloc)?;
    read_file(alloc, files, OUTPUT_LIMIT, name, &mut piece)
}
