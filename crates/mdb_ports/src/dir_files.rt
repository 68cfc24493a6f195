//! The files of the host.
ghost use Rattle.std.specs.Prelude.{◌≡◌, ◌<◌, ◌≤◌, ◌+◌, ◌-◌, ◌^◌, min, length, false, None, IfOk};
ghost use Rattle.std.specs.Prelude.{IfSome, IsSomeAnd, OnErr};
ghost use Rattle.std.specs.Io.KnownBytes.{ReadConsumes};
ghost use Rattle.mdb_ports.specs.Faults.{HasCause};
ghost use Rattle.mdb_ports.specs.Files.{Fetches, IsAbsentIfReliable, untold};
ghost use Rattle.mdb_ports.specs.Streams.{GoesTo, stream};

use crate::fault::counted;
use crate::named_file::{NamedFile, read_piece};
use crate::{Failed, Files};
use std::marker::Model;
use std::rt::Files as HostFiles;

/// The files of the host, by the names that it knows them by: a relative name is one of the folder
/// that the program runs in. It tells nothing of what the files hold.
///
/// It keeps the file that it read last open, until a call names another one or fails. So a file
/// that is read in order is one version of it, whatever happens to its name meanwhile, and needs no
/// seek: a pipe serves too. It takes no memory. A name of more than 4,096 bytes is no file's.
#[derive(Drop)]
pub struct DirFiles<'a, R: HostFiles> {
    rt: &'a R,
    faults: u64,
    opened: Option<NamedFile<R::File>>,
}

impl<'a, R: HostFiles> Model for DirFiles<'a, R> {
    ghost use Rattle.std.specs.Prelude.{option_map};
    ghost use Rattle.mdb_ports.specs.Streams.{DirState, stream};

    ghost Value = { DirState };

    ghost view = { λ d. record {
      opened = option_map (λ f. record {
        name = f.name.bytes;
        place = f.place;
        stream = stream R.File.remaining R.File.stream_position R.File.stream_bytes f.file;
      }) d.opened;
      faults = d.faults;
    } };
}

impl<'a, R: HostFiles> DirFiles<'a, R> {
    /// The files of this runtime, with none open and no fault yet.
    pub fn new(rt: &'a R) -> DirFiles<'a, R>
        ensures { result ≡ record { opened = None; faults = 0 } }
    {
        DirFiles {
            rt,
            faults: 0,
            opened: None,
        }
    }
}

impl<'a, R: HostFiles> Files for DirFiles<'a, R> {
    ghost told = { λ _. untold };

    ghost faults = { λ d. d.faults };

    ghost reliable = { λ _. false };

    /// Reads the file of this name once, again where a signal interrupted that. The file stays
    /// open, standing behind what was read, and none is open after a failure.
    fn fetch(&mut self, name: &str, at: u64, into: &mut [u8]) -> Result<usize, Failed>
        requires { 0 < length into.old }
        ensures same_files { untold ≡ untold }
        ensures bound { IfOk result (λ n. n ≤ length into.old) }
        ensures bytes { Fetches untold name.now at into.new result }
        ensures cause { HasCause self.old.faults self.new.faults result }
        ensures stays { false ≡ false }
        ensures absent { OnErr result (IsAbsentIfReliable false untold name.now) }

        ensures kept { IfOk result (λ n. IsSomeAnd self.new.opened
            (λ f. (f.name ≡ name.now) × (f.place ≡ min (at + n) (2 ^ 64 - 1)))) }
        ensures closed { OnErr result (self.new.opened ≡ None) }

        // The bytes are the next ones of a file that stands at `at`: the one that was open, where it
        // has the name, or else one that is opened now.
        ensures moved { let told = stream R.File.remaining R.File.stream_position R.File.stream_bytes in
            IfOk result (λ _. IfSome self.new.opened (λ g. (there : R.File)
            × IfSome self.old.opened (λ f. f.name ≡ name.now
            → GoesTo f.stream f.place at (told there))
            × ReadConsumes (R.File.remaining there) g.stream.left result into.new)) }
    {
        let outcome = read_piece(self.rt, &mut self.opened, name, at, into);
        counted(outcome, &mut self.faults)
    }
}
