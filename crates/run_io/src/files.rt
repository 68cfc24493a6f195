//! The files of a schema and of clients, read one after the other.
ghost use Rattle.std.specs.Prelude.{◌≡◌, ◌<◌, ◌∷◌, ◌^◌, [], length, vec_len, IfOk};
ghost use Rattle.run_io.specs.Observed.{observed, Stays};
ghost use Rattle.run_io.specs.inner.ContentsOf.{contents_of};
ghost use Rattle.run_io.specs.inner.Reading.{Reads, AddsFile, content_of, contents_in};

use crate::contents::Contents;
use crate::file::{new_piece, read_file};
use crate::load_error::LoadError;
use mdb_datum::Text;
use mdb_ports::Files;
use std::alloc::Global;

/// The most bytes of a schema's file, and of a client's.
const LIMIT: usize = 1_048_576;

/// Reads the files of these names whole, the schema's first. It takes memory for their bytes, and
/// for one piece.
///
/// # Errors
/// Those of the first file that isn't read whole; `Memory` may come at any file.
pub fn read_contents<F: Files>(
    alloc: Global,
    files: &mut F,
    schema: &Text,
    clients: &[Text],
) -> Result<Contents, LoadError>
    requires few { length clients.now < 2 ^ 32 }
    ensures stays { let seen = observed (F.told files.old) (F.reliable files.old)
        (F.faults files.old) (F.faults files.new) in
        Stays seen (F.told files.new) (F.reliable files.new) }
    ensures reads { let seen = observed (F.told files.old) (F.reliable files.old)
        (F.faults files.old) (F.faults files.new) in
        Reads contents_of seen 0 (schema.now ∷ clients.now) result }
{
    let mut piece = new_piece(alloc)?;
    read_by_pieces(alloc, files, schema, clients, &mut piece)
}

/// The same, by pieces that fit a buffer.
///
/// # Errors
/// As [`read_contents`].
fn read_by_pieces<F: Files>(
    alloc: Global,
    files: &mut F,
    schema: &Text,
    clients: &[Text],
    piece: &mut [u8],
) -> Result<Contents, LoadError>
    requires piece { 0 < length piece.old }
    requires few { length clients.now < 2 ^ 32 }
    ensures stays { let seen = observed (F.told files.old) (F.reliable files.old)
        (F.faults files.old) (F.faults files.new) in
        Stays seen (F.told files.new) (F.reliable files.new) }
    ensures reads { let seen = observed (F.told files.old) (F.reliable files.old)
        (F.faults files.old) (F.faults files.new) in
        Reads contents_of seen 0 (schema.now ∷ clients.now) result }
{
    let schema = read_numbered(alloc, files, 0, schema, piece)?;
    let clients = read_clients(alloc, files, clients, piece)?;
    Ok(Contents { schema, clients })
}

/// Reads the files of clients whole, one after the other, by pieces that fit a buffer. The first
/// has the number 1.
///
/// # Errors
/// As [`read_contents`].
fn read_clients<F: Files>(
    alloc: Global,
    files: &mut F,
    names: &[Text],
    piece: &mut [u8],
) -> Result<Vec<Vec<u8>>, LoadError>
    requires piece { 0 < length piece.old }
    requires few { length names.now < 2 ^ 32 }
    ensures stays { let seen = observed (F.told files.old) (F.reliable files.old)
        (F.faults files.old) (F.faults files.new) in
        Stays seen (F.told files.new) (F.reliable files.new) }
    ensures reads { let seen = observed (F.told files.old) (F.reliable files.old)
        (F.faults files.old) (F.faults files.new) in
        Reads contents_in seen 1 names.now result }
    ensures as_many { IfOk result (λ contents. vec_len contents ≡ length names.now) }
{
    let mut contents = Vec::new(alloc);
    for (at, name) in names.iter().enumerate() {
        let file = at as u32 + 1;
        add_file(alloc, files, file, name, piece, &mut contents)?;
    }
    Ok(contents)
}

/// Reads the file of this name whole, by pieces that fit a buffer, and adds its bytes at the end of
/// a list. After an error the list is unchanged.
///
/// # Errors
/// As [`read_numbered`].
fn add_file<F: Files>(
    alloc: Global,
    files: &mut F,
    file: u32,
    name: &Text,
    piece: &mut [u8],
    contents: &mut Vec<Vec<u8>>,
) -> Result<(), LoadError>
    requires { 0 < length piece.old }
    ensures stays { let seen = observed (F.told files.old) (F.reliable files.old)
        (F.faults files.old) (F.faults files.new) in
        Stays seen (F.told files.new) (F.reliable files.new) }
    ensures adds { let seen = observed (F.told files.old) (F.reliable files.old)
        (F.faults files.old) (F.faults files.new) in
        AddsFile seen file name.now contents.old.items contents.new.items result }
{
    contents.push(read_numbered(alloc, files, file, name, piece)?)?;
    Ok(())
}

/// Reads the file of this name whole, which may have 1,048,576 bytes, by pieces that fit a buffer.
///
/// # Errors
/// `Read` where a call fails, `TooLarge` past the limit, each with the number `file`; `Memory` may
/// come at any file.
fn read_numbered<F: Files>(
    alloc: Global,
    files: &mut F,
    file: u32,
    name: &Text,
    piece: &mut [u8],
) -> Result<Vec<u8>, LoadError>
    requires { 0 < length piece.old }
    ensures stays { let seen = observed (F.told files.old) (F.reliable files.old)
        (F.faults files.old) (F.faults files.new) in
        Stays seen (F.told files.new) (F.reliable files.new) }
    ensures reads { let seen = observed (F.told files.old) (F.reliable files.old)
        (F.faults files.old) (F.faults files.new) in
        Reads content_of seen file (name.now ∷ []) result }
{
    match read_file(alloc, files, LIMIT, name, piece) {
        Ok(bytes) => Ok(bytes),
        Err(error) => Err(LoadError::at(file, error)),
    }
}
