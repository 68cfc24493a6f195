//! The one file that is open, with its name.
ghost use Rattle.std.specs.Prelude.{◌≡◌, ◌≢◌, ◌≤◌, ◌+◌, ◌-◌, ◌^◌, min, length, None, Ok, Some};
ghost use Rattle.std.specs.Prelude.{IsOk, IsSomeAnd, IfOk, OnOk, OnErr, IfSome};
ghost use Rattle.std.specs.Io.KnownBytes.{ReadConsumes};
ghost use Rattle.mdb_ports.specs.Streams.{GoesTo, stream};

use crate::Failed;
use crate::fault::failed;
use crate::retry::read_retrying;
use arrayvec::ArrayString;
use std::fs;
use std::io::{Read, Seek, SeekFrom};
use std::rt::Files as HostFiles;

/// The room for a name, in bytes. The host opens no file by a longer one.
const NAME_ROOM: usize = 4096;

/// An open file with the name that it was opened by, and the offset of the byte that a read gives
/// next.
///
/// The name has room of its own, so that keeping it takes no memory.
#[derive(Drop)]
pub(crate) struct NamedFile<F> {
    name: ArrayString<NAME_ROOM>,
    file: F,
    place: u64,
}

impl<F> NamedFile<F> {
    /// An open file that stands at its front.
    pub(crate) fn at_front(name: ArrayString<NAME_ROOM>, file: F) -> NamedFile<F>
        ensures { result ≡ record { name = name; file = file; place = 0 } }
    {
        NamedFile {
            name,
            file,
            place: 0,
        }
    }
}

/// Reads bytes of the file of this name from an offset on into the front of a buffer, and gives how
/// many. The file that it read stays open, and none does after a failure.
pub(crate) fn read_piece<R: HostFiles>(
    rt: &R,
    opened: &mut Option<NamedFile<R::File>>,
    name: &str,
    at: u64,
    into: &mut [u8],
) -> Result<usize, Failed>
    ensures bound { IfOk result (λ n. n ≤ length into.old) }
    ensures kept { IfOk result (λ n. IsSomeAnd opened.new
        (λ f. (f.name.bytes ≡ name.now) × (f.place ≡ min (at + n) (2 ^ 64 - 1)))) }
    ensures closed { OnErr result (opened.new ≡ None) }
    ensures moved { let told = stream R.File.remaining R.File.stream_position R.File.stream_bytes in
        IfOk result (λ _. IfSome opened.new (λ g. (there : R.File)
        × IfSome opened.old (λ f. f.name.bytes ≡ name.now
        → GoesTo (told f.file) f.place at (told there))
        × ReadConsumes (R.File.remaining there) (R.File.remaining g.file) result into.new)) }
{
    let file = file_named(rt, opened.take(), name)?;
    read_kept(opened, file, at, into)
}

/// Reads bytes of a file from an offset on into the front of a buffer, and gives how many. The file
/// stays open then, and after a failure it is closed.
fn read_kept<F: Read + Seek + Drop>(
    opened: &mut Option<NamedFile<F>>,
    mut file: NamedFile<F>,
    at: u64,
    into: &mut [u8],
) -> Result<usize, Failed>
    requires { opened.old ≡ None }
    ensures bound { IfOk result (λ n. n ≤ length into.old) }
    ensures kept { IfOk result (λ n. IsSomeAnd opened.new
        (λ f. (f.name ≡ file.name) × (f.place ≡ min (at + n) (2 ^ 64 - 1)))) }
    ensures closed { OnErr result (opened.new ≡ None) }
    ensures moved { let told = stream F.remaining F.stream_position F.stream_bytes in
        IfOk result (λ _. IfSome opened.new (λ f. (there : F)
        × GoesTo (told file.file) file.place at (told there)
        × ReadConsumes (F.remaining there) (F.remaining f.file) result into.new)) }
{
    let n = file.read_from(at, into)?;
    *opened = Some(file);
    Ok(n)
}

/// The file of this name: the one that is open, as it stands, where it has the name, or else one
/// that is opened now, at its front. A file that was open under another name is closed.
fn file_named<R: HostFiles>(
    rt: &R,
    opened: Option<NamedFile<R::File>>,
    name: &str,
) -> Result<NamedFile<R::File>, Failed>
    ensures same { IfSome opened (λ f. f.name.bytes ≡ name.now → result ≡ Ok f) }
    ensures named { IfOk result (λ f. f.name.bytes ≡ name.now) }
    ensures front { IfSome opened (λ f. f.name.bytes ≢ name.now → IfOk result (λ g. g.place ≡ 0)) }
    ensures first { opened ≡ None → IfOk result (λ g. g.place ≡ 0) }
{
    match opened {
        Some(file) if file.name.as_str() == name => Ok(file),
        _ => open_named(rt, name),
    }
}

/// Opens the file of this name.
fn open_named<R: HostFiles>(rt: &R, name: &str) -> Result<NamedFile<R::File>, Failed>
    ensures { IfOk result (λ f. (f.name.bytes ≡ name.now) × (f.place ≡ 0)) }
{
    let Ok(kept) = ArrayString::from(name) else {
        return Err(Failed);
    };
    Ok(NamedFile::at_front(kept, failed(fs::open(rt, name))?))
}

impl<F: Read + Seek> NamedFile<F> {
    /// Reads bytes from an offset on into the front of a buffer, and gives how many. Where the file
    /// stands there it is only read, so a file that can't seek serves too, in order.
    pub(crate) fn read_from(&mut self, at: u64, into: &mut [u8]) -> Result<usize, Failed>
        ensures bound { IfOk result (λ n. n ≤ length into.old) }
        ensures place { IfOk result (λ n. self.new.place ≡ min (at + n) (2 ^ 64 - 1)) }
        ensures name { self.new.name ≡ self.old.name }
        ensures moved { let told = stream F.remaining F.stream_position F.stream_bytes in
            IfOk result (λ _. (there : F)
            × GoesTo (told self.old.file) self.old.place at (told there)
            × ReadConsumes (F.remaining there) (F.remaining self.new.file) result into.new) }
    {
        self.stand_at(at)?;
        let n = failed(read_retrying(&mut self.file, into))?;
        self.place = at.saturating_add(n as u64);
        Ok(n)
    }

    /// Goes to an offset, where the file doesn't stand there.
    fn stand_at(&mut self, at: u64) -> Result<(), Failed>
        ensures stands { OnOk result (self.new.place ≡ at) }
        ensures name { self.new.name ≡ self.old.name }
        ensures there { self.old.place ≡ at → IsOk result }
        ensures goes { let told = stream F.remaining F.stream_position F.stream_bytes in
            OnOk result (GoesTo (told self.old.file) self.old.place at (told self.new.file)) }
    {
        if self.place != at {
            failed(self.file.seek(SeekFrom::Start(at)))?;
            self.place = at;
        }
        Ok(())
    }
}
