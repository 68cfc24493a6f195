//! What a schema and client files load as, and in which order their faults are told.
use crate::worked::{ONE_TABLE as SCHEMA, list, only};
use client_script::ScriptError;
use mdb_datum::Text;
use mdb_ports::{FileList, MemFiles};
use mdb_schema::{SchemaError, SchemaRule};
use run_io::{Inputs, LoadError, Texts, load};
use std::alloc::{AllocError, Global};
use std::sync::Wait;
use std::test::Fail;
use std::thread::Threads;

const NO_ID: &str = r#"{"memdb":1,"tables":{"t":{"indexes":{
"x":{"indexer":{"kind":"text","field":"a"}}}}}}"#;

/// The files `S`, `c1` and `c2`, where a call may fail.
fn three_files(
    alloc: Global,
    texts: (&str, &str, &str),
    fails: u64,
) -> Result<MemFiles, AllocError> {
    let mut files = FileList::new(alloc);
    list_three(alloc, &mut files, texts)?;
    Ok(MemFiles::of(files, only(alloc, fails)?))
}

/// Lists them.
fn list_three(
    alloc: Global,
    files: &mut FileList,
    texts: (&str, &str, &str),
) -> Result<(), AllocError> {
    list(alloc, files, "S", texts.0.as_bytes())?;
    list(alloc, files, "c1", texts.1.as_bytes())?;
    list(alloc, files, "c2", texts.2.as_bytes())
}

/// Adds a copy of a name.
fn add_name(alloc: Global, name: &str, names: &mut Texts) -> Result<(), AllocError> {
    names.push(Text::of(alloc, name)?)
}

/// The names of the clients, parted by blanks.
fn named(alloc: Global, names: &str) -> Result<Texts, AllocError> {
    let mut texts = Texts::new(alloc);
    for name in names.split(' ') {
        add_name(alloc, name, &mut texts)?;
    }
    Ok(texts)
}

/// A word for what was loaded, with the number of the file or the client.
fn word_of(found: &Result<Inputs, LoadError>) -> Result<(&'static str, u32), AllocError> {
    match found {
        Ok(inputs) => Ok(("loaded", inputs.scripts.len().min(64) as u32)),
        Err(LoadError::Memory) => Err(AllocError),
        Err(LoadError::Read { file }) => Ok(("read", *file)),
        Err(LoadError::TooLarge { file }) => Ok(("too large", *file)),
        Err(LoadError::Schema(error)) => Ok((schema_word(error), 0)),
        Err(LoadError::Script { client, error }) => Ok((script_word(error), *client)),
    }
}

/// The word of an error in a schema.
fn schema_word(error: &SchemaError) -> &'static str {
    match error {
        SchemaError::Broken {
            rule: SchemaRule::NoId,
            ..
        } => "no-id",
        _ => "another schema error",
    }
}

/// The word of an error in a script.
fn script_word(error: &ScriptError) -> &'static str {
    match error {
        ScriptError::BadDoc { line: 2 } => "bad-doc in line 2",
        ScriptError::NotText => "not-text",
        _ => "another script error",
    }
}

/// Three files, the clients to load, the call that fails, and what the load comes to.
type Case = (
    &'static str,
    &'static str,
    &'static str,
    &'static str,
    u64,
    (&'static str, u32),
);

static CASES: [Case; 14] = [
    (SCHEMA, "read\n", "write\n", "c1 c2", 0, ("loaded", 2)),
    (SCHEMA, "read\n", "write\n", "c2 c2", 0, ("loaded", 2)),
    (SCHEMA, "read\n", "write\n", "c1 x", 0, ("read", 2)),
    (SCHEMA, "read\n", "write\n", "x c2", 0, ("read", 1)),
    (SCHEMA, "read\n", "write\n", "c1 c2", 1, ("read", 0)),
    (SCHEMA, "read\n", "write\n", "c1 c2", 2, ("read", 0)),
    (SCHEMA, "read\n", "write\n", "c1 c2", 3, ("read", 1)),
    (SCHEMA, "read\n", "write\n", "c1 c2", 6, ("read", 2)),
    (SCHEMA, "read\n", "write\n", "c1 c2", 7, ("loaded", 2)),
    (NO_ID, "read\n", "write\n", "c1 x", 0, ("read", 2)),
    (NO_ID, "read\ninsert t {\n", "", "c1 c2", 0, ("no-id", 0)),
    (
        SCHEMA,
        "read\ninsert t {\n",
        "x\n",
        "c1 c2",
        0,
        ("bad-doc in line 2", 1),
    ),
    (
        SCHEMA,
        "read\n",
        "\ninsert t {",
        "c1 c2",
        0,
        ("bad-doc in line 2", 2),
    ),
    (SCHEMA, "", "", "c1", 0, ("loaded", 1)),
];

/// Whether the load comes to what the case says.
fn comes<R: Threads + Wait + Sync>(rt: &R, alloc: Global, case: &Case) -> Result<bool, AllocError> {
    let found = outcome(rt, alloc, (case.0, case.1, case.2), case.3, case.4)?;
    Ok(found == case.5)
}

#[test]
fn files_load_in_order(rt: HostRuntime) -> Result<(), Fail> {
    for at in 0..CASES.len() {
        assert!(rt; comes(&rt, rt.alloc(), &CASES[at])?, "{at}");
    }
    Ok(())
}

/// What the load of these files comes to.
fn outcome<R: Threads + Wait + Sync>(
    rt: &R,
    alloc: Global,
    texts: (&str, &str, &str),
    clients: &str,
    fails: u64,
) -> Result<(&'static str, u32), AllocError> {
    word_of(&load_all(rt, alloc, texts, clients, fails))
}

/// Loads these files, where a call may fail.
fn load_all<R: Threads + Wait + Sync>(
    rt: &R,
    alloc: Global,
    texts: (&str, &str, &str),
    clients: &str,
    fails: u64,
) -> Result<Inputs, LoadError> {
    let mut files = three_files(alloc, texts, fails)?;
    load_named(rt, alloc, &mut files, clients)
}

/// Loads the schema `S` and the clients of these names, parted by blanks.
fn load_named<R: Threads + Wait + Sync>(
    rt: &R,
    alloc: Global,
    files: &mut MemFiles,
    clients: &str,
) -> Result<Inputs, LoadError> {
    let clients = named(alloc, clients)?;
    let schema = Text::of(alloc, "S")?;
    load(rt, alloc, files, &schema, &clients)
}

/// The length of a client's file, the call that fails, and what the load of a schema and that client
/// comes to. The schema's file takes two calls.
type Length = (usize, u64, (&'static str, u32));

static LENGTHS: [Length; 8] = [
    (1_048_575, 0, ("loaded", 1)),
    (1_048_576, 0, ("loaded", 1)),
    (1_048_577, 0, ("too large", 1)),
    (1_200_000, 0, ("too large", 1)),
    (1_048_576, 19, ("read", 1)),
    (1_048_576, 20, ("loaded", 1)),
    (1_048_577, 19, ("read", 1)),
    (1_048_577, 20, ("too large", 1)),
];

/// Whether the load comes to what is said.
fn is_limited<R: Threads + Wait + Sync>(
    rt: &R,
    alloc: Global,
    case: &Length,
) -> Result<bool, AllocError> {
    let text = "#".repeat(alloc, case.0)?;
    Ok(outcome(rt, alloc, (SCHEMA, text.as_str(), "x"), "c1", case.1)? == case.2)
}

#[test]
fn a_client_file_has_at_most_1048576_bytes(rt: HostRuntime) -> Result<(), Fail> {
    for at in 0..LENGTHS.len() {
        assert!(rt; is_limited(&rt, rt.alloc(), &LENGTHS[at])?, "{at}");
    }
    Ok(())
}
