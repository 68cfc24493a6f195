//! Files in memory.
ghost use Rattle.std.specs.Prelude.{◌≡◌, ◌<◌, ◌≤◌, ◌-◌, ◌↔◌, ◌⊎◌, drop, min, length, IsErr, IfOk};
ghost use Rattle.std.specs.Prelude.{IfSome, OnErr, None, Some};
ghost use Rattle.mdb_ports.specs.Files.{Fetches, Fetched, IsAbsentIfReliable};
ghost use Rattle.mdb_ports.specs.Faults.{HasCause};
ghost use Rattle.mdb_ports.specs.Script.{IsFailingCall, is_empty};
ghost use Rattle.mdb_ports.specs.MemFiles.{listed, after_fetch};

use crate::{CallList, Failed, FileList, Files};
use std::marker::Model;

/// Files in memory, of which chosen calls fail. It tells its files; of two files of one name the
/// first is meant.
///
/// It counts its calls from 1, up to the end of a `u64`, where the number of every further call
/// stands.
#[derive(Drop)]
pub struct MemFiles {
    files: FileList,
    fails: CallList,
    calls: u64,
    faults: u64,
}

impl Model for MemFiles {
    ghost use Rattle.mdb_ports.specs.MemFiles.{FileScript};

    ghost Value = { FileScript };

    ghost view = { λ m. record {
      files = m.files;
      fails = m.fails;
      calls = m.calls;
      faults = m.faults;
    } };
}

impl MemFiles {
    /// These files, of which the calls so numbered fail.
    pub fn of(files: FileList, fails: CallList) -> MemFiles
        ensures { result ≡ record { files = files; fails = fails; calls = 0; faults = 0 } }
    {
        MemFiles {
            files,
            fails,
            calls: 0,
            faults: 0,
        }
    }
}

impl Files for MemFiles {
    ghost told = { λ m. Some (listed m.files) };

    ghost faults = { λ m. m.faults };

    ghost reliable = { λ m. is_empty m.fails };

    /// Fetches as many bytes as the buffer and what is left of the file allow. It fails exactly
    /// where its number is among the calls that fail, or the file is absent.
    fn fetch(&mut self, name: &str, at: u64, into: &mut [u8]) -> Result<usize, Failed>
        requires { 0 < length into.old }
        ensures same_files { Some (listed self.new.files) ≡ Some (listed self.old.files) }
        ensures bound { IfOk result (λ n. n ≤ length into.old) }
        ensures bytes { Fetches (Some (listed self.old.files)) name.now at into.new result }
        ensures cause { HasCause self.old.faults self.new.faults result }

        ensures fails { IsErr result
            ↔ (IsFailingCall self.old.fails self.old.calls
            ⊎ (listed self.old.files name.now ≡ None)) }
        ensures amount { IfOk result (λ n. IfSome (listed self.old.files name.now)
            (λ bytes. n ≡ min (length into.old) (length bytes - at))) }
        ensures after { self.new ≡ after_fetch self.old result }
        ensures stays { is_empty self.new.fails ≡ is_empty self.old.fails }
        ensures absent { OnErr result
            (IsAbsentIfReliable (is_empty self.old.fails) (Some (listed self.old.files)) name.now) }
        ensures rest { IfOk result (λ n. drop n into.new ≡ drop n into.old) }
        ensures into_kept { OnErr result (into.new ≡ into.old) }
    {
        self.calls = self.calls.saturating_add(1);
        if !self.fails.has(self.calls) {
            if let Some(bytes) = self.files.find(name) {
                return Ok(copy_from(bytes, at, into));
            }
        }
        self.faults = self.faults.saturating_add(1);
        Err(Failed)
    }
}

/// Copies the bytes from an offset on into the front of a buffer, as many as both allow.
fn copy_from(bytes: &[u8], at: u64, into: &mut [u8]) -> usize
    requires { 0 < length into.old }
    ensures fetched { Fetched bytes.now at into.new result }
    ensures amount { result ≡ min (length into.old) (length bytes.now - at) }
    ensures rest { drop result into.new ≡ drop result into.old }
{
    let start = bytes.len().min(at as usize);
    let n = into.len().min(bytes.len() - start);
    into[..n].copy_from_slice(&bytes[start..start + n]);
    n
}
