//! Texts, files and sinks in memory.
use mdb_datum::Text;
use mdb_ports::{CallList, FileList, MemFiles, MemSink};
use std::alloc::{AllocError, Global};

/// A text, and how often it stands.
pub(crate) type Part = (&'static str, usize);

/// A file's name, and the parts of its text.
pub(crate) type File = (&'static str, &'static [Part]);

/// Adds a text that stands so often.
fn add_part(alloc: Global, text: &mut String, part: Part) -> Result<(), AllocError> {
    text.push_str(part.0.repeat(alloc, part.1)?.as_str())
}

/// The text of these parts.
pub(crate) fn joined(alloc: Global, parts: &[Part]) -> Result<String, AllocError> {
    let mut text = String::new(alloc);
    for at in 0..parts.len() {
        add_part(alloc, &mut text, parts[at])?;
    }
    Ok(text)
}

/// Lists a file of this text.
pub(crate) fn list(
    alloc: Global,
    files: &mut FileList,
    name: &str,
    text: &[u8],
) -> Result<(), AllocError> {
    files.push((Text::of(alloc, name)?, Vec::from_slice(alloc, text)?))
}

/// Lists a file whose text has these parts.
fn list_parts(alloc: Global, files: &mut FileList, file: File) -> Result<(), AllocError> {
    list(alloc, files, file.0, joined(alloc, file.1)?.as_bytes())
}

/// The list of these files.
pub(crate) fn listed(alloc: Global, files: &[File]) -> Result<FileList, AllocError> {
    let mut list = FileList::new(alloc);
    for at in 0..files.len() {
        list_parts(alloc, &mut list, files[at])?;
    }
    Ok(list)
}

/// The list of this call alone, counted from 1: at 0 it has none.
pub(crate) fn only(alloc: Global, call: u64) -> Result<CallList, AllocError> {
    let mut calls = CallList::new(alloc);
    calls.push(call)?;
    Ok(calls)
}

/// Files in memory, of which one call may fail.
pub(crate) fn files_of(alloc: Global, files: &[File], call: u64) -> Result<MemFiles, AllocError> {
    Ok(MemFiles::of(listed(alloc, files)?, only(alloc, call)?))
}

/// A sink that takes 7 bytes a call, of which one may fail, with room for so many bytes.
pub(crate) fn sink_with(alloc: Global, room: usize, call: u64) -> Result<MemSink, AllocError> {
    MemSink::of(alloc, room, 7, only(alloc, call)?)
}
