//! What is written of files that are refused, and the status that a run ends with.
ghost use Rattle.std.specs.Prelude.{◌≡◌, ◌++◌, ◌∷◌, [], IfOk, OnOk, codes, decimal};
ghost use Rattle.client_script.specs.Refusal.{error_line, error_word};
ghost use Rattle.mdb_datum.specs.Doc.{text};
ghost use Rattle.mdb_datum.specs.Written.{compact};
ghost use Rattle.mdb_schema.specs.RuleWord.{schema_rule_word};
ghost use Rattle.run_io.specs.RefusalTexts.{name_line, quoted_part, line_part};
ghost use Rattle.run_io.specs.RefusalTexts.{broken_text, script_text};

use client_script::ScriptError;
use mdb_datum::{Datum, Text, write_doc};
use mdb_schema::SchemaRule;
use std::alloc::{AllocError, Global};

/// A status and the text that is written under it.
#[derive(Drop)]
pub struct Output {
    pub status: u8,
    pub text: Vec<u8>,
}

/// The schema breaks a rule, perhaps in a table and an index of these names.
pub fn broken_schema(
    alloc: Global,
    rule: SchemaRule,
    table: Option<Text>,
    index: Option<Text>,
) -> Result<Output, AllocError>
    ensures { IfOk result (λ output. (output.status ≡ 2)
        × (output.text.items
        ≡ broken_text (record { rule = rule; table = table; index = index }))) }
{
    let mut text = schema_rule(alloc, rule)?;
    write_names(alloc, table, index, &mut text)?;
    Ok(Output { status: 2, text })
}

/// `schema `, and the name of a rule of schemas.
fn schema_rule(alloc: Global, rule: SchemaRule) -> Result<Vec<u8>, AllocError>
    ensures { IfOk result (λ text. text.items ≡ codes "schema " ++ schema_rule_word rule) }
{
    let mut text = Vec::from_slice(alloc, b"schema ")?;
    text.extend_from_slice(rule.word().as_bytes())?;
    Ok(text)
}

/// Adds the names of a table and an index, where they are there, and ends the line.
fn write_names(
    alloc: Global,
    table: Option<Text>,
    index: Option<Text>,
    out: &mut Vec<u8>,
) -> Result<(), AllocError>
    ensures { OnOk result
        (out.new.items ≡ out.old.items ++ (quoted_part table ++ (quoted_part index ++ 10 ∷ []))) }
{
    write_name(alloc, table, out)?;
    write_name(alloc, index, out)?;
    out.push(b'\n')?;
    Ok(())
}

/// Adds a blank and a name as a JSON text, where there is one.
fn write_name(alloc: Global, name: Option<Text>, out: &mut Vec<u8>) -> Result<(), AllocError>
    ensures { OnOk result (out.new.items ≡ out.old.items ++ quoted_part name) }
{
    match name {
        None => Ok(()),
        Some(name) => write_quoted(alloc, name, out),
    }
}

/// Adds a blank and a name as a JSON text.
fn write_quoted(alloc: Global, name: Text, out: &mut Vec<u8>) -> Result<(), AllocError>
    ensures { OnOk result (out.new.items ≡ out.old.items ++ (32 ∷ compact (text name))) }
{
    let quoted = quoted(alloc, name)?;
    out.push(b' ')?;
    out.extend_from_slice(&quoted)
}

/// A name as a JSON text.
fn quoted(alloc: Global, name: Text) -> Result<Vec<u8>, AllocError>
    ensures { IfOk result (λ quoted. quoted.items ≡ compact (text name)) }
{
    write_doc(alloc, &Datum::Str(name))
}

/// The script of this client breaks a rule, perhaps in a line.
pub fn broken_script(alloc: Global, client: u32, rule: ScriptError) -> Result<Output, AllocError>
    ensures { IfOk result (λ output. (output.status ≡ 3)
        × (output.text.items ≡ script_text client rule)) }
{
    let mut text = Vec::from_slice(alloc, b"script ")?;
    write_number(u64::from(client), &mut text)?;
    write_rule(rule, &mut text)?;
    Ok(Output { status: 3, text })
}

/// Adds the line's number, where a rule has one, and the rule's name, and ends the line.
fn write_rule(rule: ScriptError, out: &mut Vec<u8>) -> Result<(), AllocError>
    ensures { OnOk result (out.new.items ≡ out.old.items
        ++ (line_part (error_line rule) ++ (32 ∷ (error_word rule ++ 10 ∷ [])))) }
{
    write_line(rule.line(), out)?;
    out.push(b' ')?;
    end_line(rule.word(), out)
}

/// Adds a word and ends the line.
pub fn end_line(word: &str, out: &mut Vec<u8>) -> Result<(), AllocError>
    ensures { OnOk result (out.new.items ≡ out.old.items ++ (word.now ++ 10 ∷ [])) }
{
    out.extend_from_slice(word.as_bytes())?;
    out.push(b'\n')?;
    Ok(())
}

/// Adds the number of a line, where there is one.
fn write_line(line: Option<u32>, out: &mut Vec<u8>) -> Result<(), AllocError>
    ensures { OnOk result (out.new.items ≡ out.old.items ++ line_part line) }
{
    match line {
        None => Ok(()),
        Some(line) => write_place(line, out),
    }
}

/// Adds ` line ` and a number.
fn write_place(line: u32, out: &mut Vec<u8>) -> Result<(), AllocError>
    ensures { OnOk result (out.new.items ≡ out.old.items ++ (codes " line " ++ decimal line)) }
{
    out.extend_from_slice(b" line ")?;
    write_number(u64::from(line), out)
}

/// A call of the files failed, at the file of this name.
pub fn cannot_read(alloc: Global, name: &Text) -> Result<Output, AllocError>
    ensures { IfOk result (λ output. (output.status ≡ 5)
        × (output.text.items ≡ name_line (codes "cannot read ") name.now)) }
{
    Ok(Output {
        status: 5,
        text: name_line(alloc, b"cannot read ", name)?,
    })
}

/// The file of this name has too many bytes.
pub fn too_large(alloc: Global, name: &Text) -> Result<Output, AllocError>
    ensures { IfOk result (λ output. (output.status ≡ 7)
        × (output.text.items ≡ name_line (codes "too large ") name.now)) }
{
    Ok(Output {
        status: 7,
        text: name_line(alloc, b"too large ", name)?,
    })
}

/// A line of some words and a file's name.
fn name_line(alloc: Global, what: &[u8], name: &Text) -> Result<Vec<u8>, AllocError>
    ensures { IfOk result (λ line. line.items ≡ name_line what.now name.now) }
{
    let mut line = Vec::from_slice(alloc, what)?;
    end_line(name.as_str(), &mut line)?;
    Ok(line)
}

/// Adds a number in decimal.
pub fn write_number(number: u64, out: &mut Vec<u8>) -> Result<(), AllocError>
    ensures { OnOk result (out.new.items ≡ out.old.items ++ decimal number) }
{
    let mut buffer = itoa::Buffer::new();
    out.extend_from_slice(buffer.format(number).as_bytes())
}
