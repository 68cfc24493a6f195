//! What is told of errors in loading.
ghost use Rattle.std.specs.Prelude.{◌≡◌, IfOk, length};

use client_script::ScriptError;
use mdb_datum::Text;
use mdb_schema::{SchemaError, SchemaRule};
use run_io::{LoadError, Named, Output, OutputError, Texts, output_refusal, refusal_of};
use std::alloc::{AllocError, Global};
use std::test::Fail;

/// The files `s.json` and `c 1`.
fn two_files(alloc: Global) -> Result<Named, AllocError> {
    let schema = Text::of(alloc, "s.json")?;
    let clients = one_text(alloc)?;
    Ok(Named { schema, clients })
}

/// The text `c 1` alone.
fn one_text(alloc: Global) -> Result<Texts, AllocError>
    ensures { IfOk result (λ texts. length texts ≡ 1) }
{
    let mut texts = Texts::new(alloc);
    texts.push(Text::of(alloc, "c 1")?)?;
    Ok(texts)
}

/// Whether an output has this status and this text.
fn is_told(output: &Output, status: u8, text: &str) -> bool {
    output.status == status && output.text.as_slice() == text.as_bytes()
}

/// Whether the client's file that can't be read is told.
fn tells_unread(alloc: Global) -> Result<bool, AllocError> {
    let output = refusal_of(alloc, &two_files(alloc)?, LoadError::Read { file: 1 })?;
    Ok(is_told(&output, 5, "cannot read c 1\n"))
}

/// Whether the schema's file that is too large is told.
fn tells_too_large(alloc: Global) -> Result<bool, AllocError> {
    let output = refusal_of(alloc, &two_files(alloc)?, LoadError::TooLarge { file: 0 })?;
    Ok(is_told(&output, 7, "too large s.json\n"))
}

/// Whether the rule that the schema breaks is told.
fn tells_schema(alloc: Global) -> Result<bool, AllocError> {
    let table = Text::of(alloc, "t\"")?;
    let named = two_files(alloc)?;
    let error = SchemaError::Broken {
        rule: SchemaRule::NoId,
        table: Some(table),
        index: None,
    };
    let output = refusal_of(alloc, &named, LoadError::Schema(error))?;
    Ok(is_told(&output, 2, "schema no-id \"t\\\"\"\n"))
}

/// Whether the rule that a script breaks is told.
fn tells_script(alloc: Global) -> Result<bool, AllocError> {
    let error = LoadError::Script {
        client: 1,
        error: ScriptError::BadDoc { line: 2 },
    };
    let output = refusal_of(alloc, &two_files(alloc)?, error)?;
    Ok(is_told(&output, 3, "script 1 line 2 bad-doc\n"))
}

/// Whether the error of an output's file is told.
fn tells_output(
    alloc: Global,
    error: OutputError,
    status: u8,
    text: &str,
) -> Result<bool, AllocError> {
    let output = output_refusal(alloc, &Text::of(alloc, "o 1")?, error)?;
    Ok(is_told(&output, status, text))
}

#[test]
fn an_output_that_is_not_loaded_is_told(rt: HostRuntime) -> Result<(), Fail> {
    assert!(rt; tells_output(rt.alloc(), OutputError::Read, 5, "cannot read o 1\n")?);
    assert!(rt; tells_output(rt.alloc(), OutputError::TooLarge, 7, "too large o 1\n")?);
    Ok(())
}

#[test]
fn each_error_is_told(rt: HostRuntime) -> Result<(), Fail> {
    assert!(rt; tells_unread(rt.alloc())?);
    assert!(rt; tells_too_large(rt.alloc())?);
    assert!(rt; tells_schema(rt.alloc())?);
    assert!(rt; tells_script(rt.alloc())?);
    Ok(())
}
