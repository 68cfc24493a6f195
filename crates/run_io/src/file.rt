//! A file, read whole.
ghost use Rattle.std.specs.Prelude.{◌≡◌, ◌<◌, [], length, vec_len, IfOk};
ghost use Rattle.run_io.specs.Observed.{observed, Stays};
ghost use Rattle.run_io.specs.OneFile.{LoadsFile, bytes_of};

use crate::output_error::OutputError;
use mdb_datum::Text;
use mdb_ports::Files;
use std::alloc::{AllocError, Global};

/// The most bytes that one call fetches.
const PIECE: usize = 65_536;

/// A buffer for the pieces of files, of 65,536 bytes.
pub fn new_piece(alloc: Global) -> Result<Vec<u8>, AllocError>
    ensures { IfOk result (λ v. 0 < vec_len v) }
{
    vec![in alloc; 0u8; PIECE]
}

/// Reads the file of this name whole, which may have so many bytes, by pieces that fit a buffer. It
/// takes memory for the bytes that it has read, and reads no further than the piece with the first
/// byte past the limit. The buffer's bytes mean nothing before and after.
///
/// # Errors
/// `Read` where a call fails, `TooLarge` past the limit; `Memory` may come at any file.
pub fn read_file<F: Files>(
    alloc: Global,
    files: &mut F,
    limit: usize,
    name: &Text,
    piece: &mut [u8],
) -> Result<Vec<u8>, OutputError>
    requires { 0 < length piece.old }
    ensures stays { let seen = observed (F.told files.old) (F.reliable files.old)
        (F.faults files.old) (F.faults files.new) in
        Stays seen (F.told files.new) (F.reliable files.new) }
    ensures loads { let seen = observed (F.told files.old) (F.reliable files.old)
        (F.faults files.old) (F.faults files.new) in
        LoadsFile bytes_of limit seen name.now result }
{
    let mut bytes = Vec::new(alloc);
    read_into(files, limit, name, piece, &mut bytes)?;
    Ok(bytes)
}

/// The same, into a vector that is empty.
///
/// # Errors
/// As [`read_file`].
fn read_into<F: Files>(
    files: &mut F,
    limit: usize,
    name: &Text,
    piece: &mut [u8],
    bytes: &mut Vec<u8>,
) -> Result<(), OutputError>
    requires piece { 0 < length piece.old }
    requires empty { bytes.old.items ≡ [] }
    ensures stays { let seen = observed (F.told files.old) (F.reliable files.old)
        (F.faults files.old) (F.faults files.new) in
        Stays seen (F.told files.new) (F.reliable files.new) }
    ensures loads { let seen = observed (F.told files.old) (F.reliable files.old)
        (F.faults files.old) (F.faults files.new) in
        LoadsFile (λ _. bytes.new.items) limit seen name.now result }
{
    loop {
        let Ok(count) = files.fetch(name.as_str(), bytes.len() as u64, piece) else {
            return Err(OutputError::Read);
        };
        if count == 0 {
            return Ok(());
        }
        if count > limit - bytes.len() {
            return Err(OutputError::TooLarge);
        }
        bytes.extend_from_slice(&piece[..count])?;
    }
}
