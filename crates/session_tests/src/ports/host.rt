//! The files of the host, and its output. The tests of a crate may share a folder, so each has
//! names of its own.
use super::{fetch_first, gives, put_three};
use mdb_ports::{DirFiles, Failed, Files, Gate, OpenGate, OutSink};
use std::fs;

/// Writes a file.
fn is_written(rt: &HostRuntime, name: &str, text: &str) -> bool {
    fs::write(rt, name, text).is_ok()
}

/// Writes two files, each with its text.
fn are_written(rt: &HostRuntime, one: (&str, &str), two: (&str, &str)) -> bool {
    is_written(rt, one.0, one.1) && is_written(rt, two.0, two.1)
}

/// Removes a file.
fn is_removed(rt: &HostRuntime, name: &str) -> bool {
    fs::remove_file(rt, name).is_ok()
}

/// Puts one file in the place of another.
fn is_renamed(rt: &HostRuntime, from: &str, to: &str) -> bool {
    fs::rename(rt, from, to).is_ok()
}

/// Whether a fetch from a file fails.
fn is_missed<F: Files>(files: &mut F, name: &str) -> bool {
    fetch_first(files, name) == Err(Failed)
}

/// A file gives the bytes behind its front, and then its front.
fn goes_on<F: Files>(files: &mut F, name: &str) -> bool {
    gives(files, name, 2, b"rs") && gives(files, name, 0, b"fi")
}

/// A file gives its own bytes also after another has come in its place.
fn stays_one_version<F: Files>(rt: &HostRuntime, files: &mut F) -> bool {
    are_written(rt, ("old", "first"), ("new", "2nd"))
        && gives(files, "old", 0, b"fi")
        && is_renamed(rt, "new", "old")
        && goes_on(files, "old")
        && is_removed(rt, "old")
}

#[test]
fn a_file_that_is_replaced_while_it_is_read_stays_one_version(rt: HostRuntime) {
    assert!(rt; stays_one_version(&rt, &mut DirFiles::new(&rt)));
}

/// Two files give their own bytes, one after the other.
fn gives_each<F: Files>(files: &mut F) -> bool {
    gives(files, "one", 1, b"st") && gives(files, "two", 0, b"2n")
}

/// A file that is gone is missed once another was read.
fn misses_what_is_gone<F: Files>(rt: &HostRuntime, files: &mut F) -> bool {
    are_written(rt, ("one", "1st"), ("two", "2nd"))
        && gives_each(files)
        && is_removed(rt, "one")
        && is_missed(files, "one")
        && is_removed(rt, "two")
}

#[test]
fn a_file_is_opened_anew_after_another_one(rt: HostRuntime) {
    assert!(rt; misses_what_is_gone(&rt, &mut DirFiles::new(&rt)));
}

/// A file is read that came after it was missed.
fn reads_what_came_late<F: Files>(rt: &HostRuntime, files: &mut F) -> bool {
    is_missed(files, "late")
        && is_written(rt, "late", "3rd")
        && gives(files, "late", 0, b"3r")
        && is_removed(rt, "late")
}

#[test]
fn a_file_is_opened_anew_after_a_failure(rt: HostRuntime) {
    assert!(rt; reads_what_came_late(&rt, &mut DirFiles::new(&rt)));
}

/// A file is read to its end.
fn ends<F: Files>(rt: &HostRuntime, files: &mut F) -> bool {
    is_written(rt, "short", "xy")
        && gives(files, "short", 0, b"xy")
        && files.fetch("short", 2, &mut [0]) == Ok(0)
        && is_removed(rt, "short")
}

#[test]
fn nothing_comes_at_the_end_of_a_file(rt: HostRuntime) {
    assert!(rt; ends(&rt, &mut DirFiles::new(&rt)));
}

/// Makes a folder.
fn is_made(rt: &HostRuntime, name: &str) -> bool {
    fs::create_dir(rt, name).is_ok()
}

/// Removes a folder.
fn is_unmade(rt: &HostRuntime, name: &str) -> bool {
    fs::remove_dir(rt, name).is_ok()
}

/// A folder is missed, and removed also where it was not.
fn misses_a_folder<F: Files>(rt: &HostRuntime, files: &mut F) -> bool {
    let is_there = is_made(rt, "folder");
    let fails = is_missed(files, "folder");
    is_unmade(rt, "folder") && is_there && fails
}

#[test]
fn a_folder_is_no_file(rt: HostRuntime) {
    assert!(rt; misses_a_folder(&rt, &mut DirFiles::new(&rt)));
}

/// Passes one line.
fn pass<G: Gate>(gate: &G) {
    gate.before(1, 2);
    gate.after(1, 2);
}

#[test]
fn the_real_output_and_an_open_gate_work_through_their_traits(rt: HostRuntime) {
    pass(&OpenGate);
    assert!(rt; put_three(&mut OutSink::new(&rt)) == Ok(3));
}
