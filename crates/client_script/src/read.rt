//! A script, from the bytes of its file.
ghost use Rattle.std.specs.Prelude.{◌≡◌, ◌++◌, ◌≤◌, length, is_ok, if◌then◌else◌, option_to_list};
ghost use Rattle.client_script.specs.Lines.{lines_of};
ghost use Rattle.client_script.specs.Script.{line_limit, text_in, line_in, lines_in, script_in};
ghost use Rattle.client_script.specs.Script.{AnswersScript};
ghost use Rattle.client_script.specs.inner.FirstLine.{is_silent};
ghost use Rattle.client_script.specs.inner.ScriptAnswer.{IsScriptResult};

use crate::grammar::command_in;
use crate::line::Line;
use crate::lines::{first_line, has_few_lines};
use crate::script::Script;
use crate::script_error::ScriptError;
use crate::word::{trimmed, without_return};
use mdb_datum::DocReader;
use std::alloc::{AllocError, Global};
use std::str;

/// Whether a line without blanks at its ends has no command: it is empty, or a comment.
fn is_silent(text: &str) -> bool
    ensures { result ≡ is_silent text.now }
{
    matches!(text.as_bytes(), [] | [b'#', ..])
}

/// The command of a line without blanks at its ends, with the number of the line.
fn text_in(reader: &mut DocReader, number: u32, text: &str) -> Result<Option<Line>, ScriptError>
    ensures { IsScriptResult option_to_list (text_in number text.now) result }
{
    if is_silent(text) {
        return Ok(None);
    }
    match command_in(reader, text) {
        Ok(command) => Ok(Some(Line { number, command })),
        Err(error) => Err(error.at(number)),
    }
}

/// The command of a line, with the number of the line.
fn line_in(reader: &mut DocReader, number: u32, line: &str) -> Result<Option<Line>, ScriptError>
    ensures { IsScriptResult option_to_list (line_in number line.now) result }
{
    text_in(reader, number, trimmed(without_return(line)))
}

/// Adds a line at the end, where there is one.
fn add(lines: &mut Vec<Line>, found: Option<Line>) -> Result<(), AllocError>
    ensures { lines.new.items
        ≡ (if is_ok result then lines.old.items ++ option_to_list found else lines.old.items) }
{
    if let Some(line) = found {
        lines.push(line)?;
    }
    Ok(())
}

/// The script of a text that has few enough lines.
fn lines_in(reader: &mut DocReader, text: &str) -> Result<Script, ScriptError>
    requires { length (lines_of text.now) ≤ line_limit }
    ensures { IsScriptResult (λ s. s) (lines_in 1 (lines_of text.now)) result }
{
    let mut lines = Vec::new(reader.alloc());
    let mut number = 0u32;
    let mut rest = text;
    while let Some((line, next)) = first_line(rest) {
        number += 1;
        let found = match line_in(reader, number, line) {
            Ok(found) => found,
            Err(error) => return Err(error),
        };
        add(&mut lines, found)?;
        rest = next;
    }
    Ok(Script::of(lines))
}

/// The script that the bytes of a client's file are, or the first rule that they break. It takes
/// memory for the commands, and time in proportion to the bytes.
///
/// # Errors
/// `NotText`, else `TooManyLines`, else the rule of the first line that breaks one; `Memory` may
/// come at any bytes.
pub fn read_script(alloc: Global, bytes: &[u8]) -> Result<Script, ScriptError>
    ensures { AnswersScript (script_in bytes.now) result }
{
    let Ok(text) = str::from_utf8(bytes) else {
        return Err(ScriptError::NotText);
    };
    if !has_few_lines(text) {
        return Err(ScriptError::TooManyLines);
    }
    let mut reader = DocReader::new(alloc);
    lines_in(&mut reader, text)
}
