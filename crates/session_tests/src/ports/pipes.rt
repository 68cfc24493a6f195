//! A file of the host that comes once, as a pipe: it can't seek, and a signal interrupts its reads.
use super::interrupted::interrupts;
use mdb_ports::{DirFiles, Files};
use std::alloc::Allocator;
use std::cell::Cell;
use std::fs::{Metadata, OpenFile, OpenOptions};
use std::io::{self, ErrorKind, Read, Seek, SeekFrom, Write};
use std::rt::Files as HostFiles;

/// A pipe: its bytes come once, two at most a read, and it can't seek. The first reads are
/// interrupted.
#[derive(Drop)]
struct Pipe {
    interruptions: Cell<u32>,
    left: &'static [u8],
}

/// What a pipe doesn't do.
fn unsupported<T>() -> io::Result<T> {
    Err(io::Error::from(ErrorKind::Unsupported))
}

impl Read for Pipe {
    /// Reads two bytes at most, or is interrupted.
    fn read(&mut self, buf: &mut [u8]) -> io::Result<usize> {
        if interrupts(&self.interruptions) {
            return Err(io::Error::from(ErrorKind::Interrupted));
        }
        let most = buf.len().min(2);
        self.left.read(&mut buf[..most])
    }
}

impl Seek for Pipe {
    /// A pipe has no places.
    fn seek(&mut self, _to: SeekFrom) -> io::Result<u64> {
        Err(io::Error::from(ErrorKind::NotSeekable))
    }
}

impl Write for Pipe {
    /// It is read alone.
    fn write(&mut self, _buf: &[u8]) -> io::Result<usize> {
        Err(io::Error::from(ErrorKind::Unsupported))
    }

    /// Nothing was written.
    fn flush(&mut self) -> io::Result<()> {
        Ok(())
    }
}

impl OpenFile for Pipe {
    fn metadata(&self) -> io::Result<Metadata> {
        unsupported()
    }

    fn set_len(&self, _size: u64) -> io::Result<()> {
        unsupported()
    }

    fn sync_all(&self) -> io::Result<()> {
        unsupported()
    }

    fn sync_data(&self) -> io::Result<()> {
        unsupported()
    }
}

/// A host each of whose files is a pipe of three bytes. Its first two reads are interrupted.
#[derive(Drop)]
struct PipeHost;

impl HostFiles for PipeHost {
    type File = Pipe;

    type Dir = Pipe;

    fn open_file(&self, _how: &OpenOptions, _path: &str) -> io::Result<Pipe> {
        Ok(Pipe {
            interruptions: Cell::new(2),
            left: b"abc",
        })
    }

    fn open_dir(&self, _path: &str) -> io::Result<Pipe> {
        unsupported()
    }

    fn metadata(&self, _path: &str) -> io::Result<Metadata> {
        unsupported()
    }

    fn symlink_metadata(&self, _path: &str) -> io::Result<Metadata> {
        unsupported()
    }

    fn copy(&self, _from: &str, _to: &str) -> io::Result<u64> {
        unsupported()
    }

    fn rename(&self, _from: &str, _to: &str) -> io::Result<()> {
        unsupported()
    }

    fn remove_file(&self, _path: &str) -> io::Result<()> {
        unsupported()
    }

    fn create_dir(&self, _path: &str) -> io::Result<()> {
        unsupported()
    }

    fn remove_dir(&self, _path: &str) -> io::Result<()> {
        unsupported()
    }

    fn remove_dir_all<B: Allocator>(&self, _alloc: B, _path: &str) -> io::Result<()> {
        unsupported()
    }
}

/// Whether a read from an offset gives these bytes.
fn reads<F: Files>(files: &mut F, at: u64, want: &[u8]) -> bool {
    let mut into = [0; 4];
    match files.fetch("p", at, &mut into) {
        Ok(n) => &into[..n] == want,
        Err(_) => false,
    }
}

/// Whether the three bytes come in order, then nothing.
fn comes_in_order<F: Files>(files: &mut F) -> bool {
    reads(files, 0, b"ab") && reads(files, 2, b"c") && reads(files, 3, b"")
}

/// Whether they do, and the pipe is then not read from its front.
fn comes_once<F: Files>(files: &mut F) -> bool {
    comes_in_order(files) && !reads(files, 0, b"")
}

#[test]
fn an_interrupted_pipe_is_read_in_order_and_in_no_other(rt: HostRuntime) {
    assert!(rt; comes_once(&mut DirFiles::new(&PipeHost)));
}
