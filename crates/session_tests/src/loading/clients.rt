//! Many clients: their scripts are read in order, and the first fault among them is told.
use crate::worked::{ONE_TABLE, list, only};
use client_script::ScriptError;
use mdb_datum::Text;
use mdb_ports::{FileList, MemFiles};
use run_io::{Inputs, LoadError, Texts, load, write_number};
use std::alloc::{AllocError, Global};
use std::sync::Wait;
use std::test::Fail;
use std::thread::Threads;

/// As many clients as a command may name.
const MOST: u32 = 64;

/// The script of the client of a number, counted from 1: so many lines, the last of which may be
/// broken.
fn script(alloc: Global, client: u32, is_broken: bool) -> Result<Vec<u8>, AllocError> {
    let mut bytes = b"read\n".repeat(alloc, (client as usize).saturating_sub(1))?;
    bytes.extend_from_slice(if is_broken { b"no\n" } else { b"read\n" })?;
    Ok(bytes)
}

/// The name of that client's file.
fn name(alloc: Global, client: u32) -> Result<Text, AllocError> {
    let mut bytes = Vec::new(alloc);
    write_number(u64::from(client), &mut bytes)?;
    Text::of(alloc, str::from_utf8(&bytes).unwrap_or("x"))
}

/// Adds the file of a client, and its name.
fn add_client(
    alloc: Global,
    client: u32,
    is_broken: bool,
    files: &mut FileList,
    names: &mut Texts,
) -> Result<(), AllocError> {
    files.push((name(alloc, client)?, script(alloc, client, is_broken)?))?;
    names.push(name(alloc, client)?)
}

/// So many clients, those that are broken, and the client whose fault is told, or 0.
type Case = (u32, &'static [u32], u32);

static CASES: [Case; 7] = [
    (1, &[1], 1),
    (3, &[], 0),
    (5, &[2, 4], 2),
    (5, &[4, 5], 4),
    (MOST, &[], 0),
    (MOST, &[64], 64),
    (MOST, &[33, 34, 64], 33),
];

/// Loads the clients of a case.
fn load_case<R: Threads + Wait + Sync>(
    rt: &R,
    alloc: Global,
    case: &Case,
) -> Result<Inputs, LoadError> {
    let (mut files, mut names) = (FileList::new(alloc), Texts::new(alloc));
    list(alloc, &mut files, "S", ONE_TABLE.as_bytes())?;
    for client in 1..=case.0 {
        add_client(
            alloc,
            client,
            case.1.contains(&client),
            &mut files,
            &mut names,
        )?;
    }
    let mut files = MemFiles::of(files, only(alloc, 0)?);
    load(rt, alloc, &mut files, &Text::of(alloc, "S")?, &names)
}

/// Whether there are so many scripts, each with as many lines as its client's number says.
fn are_in_order(inputs: &Inputs, count: u32) -> bool {
    let scripts = &inputs.scripts;
    scripts.len() == count as usize
        && (0..scripts.len()).all(|at| scripts.get(at).is_some_and(|it| it.len() == at + 1))
}

/// Whether that is what was loaded, or this client's last line is told.
fn comes(loaded: Result<Inputs, LoadError>, count: u32, told: u32) -> Result<bool, AllocError> {
    match loaded {
        Ok(inputs) => Ok(told == 0 && are_in_order(&inputs, count)),
        Err(LoadError::Memory) => Err(AllocError),
        Err(LoadError::Script { client, error }) => {
            Ok(client == told && error == ScriptError::UnknownWord { line: told })
        }
        Err(_) => Ok(false),
    }
}

#[test]
fn the_first_broken_client_is_told(rt: HostRuntime) -> Result<(), Fail> {
    for at in 0..CASES.len() {
        let case = &CASES[at];
        let loaded = load_case(&rt, rt.alloc(), case);
        assert!(rt; comes(loaded, case.0, case.2)?, "{at}");
    }
    Ok(())
}
