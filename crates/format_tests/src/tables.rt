//! Tables of texts, each with what it is told as, and how a test goes through them.
use crate::documents::{doc_told, pair_told, scalar_told};
use crate::keys::told::{args_told, field_told, row_told};
use crate::schemas::{both_told, frame_told, tracked_told};
use crate::scripts::told::script_told;
use mdb_datum::{DocReader, read_doc};
use std::alloc::{AllocError, Global};
use std::test::Fail;

/// A text, and what it is told as. In both `~3 ab~` stands for three copies of `ab`.
pub type Case = (&'static str, &'static str);

/// A text, or that there was no memory to find out.
pub type Text = Result<String, AllocError>;

/// Whether it is so, or that there was no memory to find out.
pub type Told = Result<bool, AllocError>;

/// The case that is wrong, if any.
type Wrong = Result<Option<&'static str>, AllocError>;

/// What a text is read as.
#[derive(Clone, Copy)]
pub enum Form {
    /// A document. It is told by its compact text.
    Document,
    /// The same by the reader of all texts of the table, which keeps its room.
    Again,
    /// Two objects with a bar between them. It is told whether they are the same rows.
    Pair,
    /// A document, which is told to be a scalar or not.
    Scalar,
    /// The name of a field.
    Field,
    /// The name of an index and a row. Its keys are told.
    Row,
    /// The name of an index and arguments. Their exact key is told.
    Args,
    /// The same of their key in the prefix form.
    Prefix,
    /// What stands in a schema file at the place of `@`. It is told which rule is broken.
    Schema(&'static str),
    /// The same in the files of both versions of the format, in which it is told as the same.
    Both(&'static [&'static str; 2]),
    /// The same in one file. It is told which tables are tracked.
    Tracked(&'static str),
    /// A client's script. Its commands are told.
    Script,
}

/// Fails where it isn't so, or where there was no memory to find out.
pub fn holds(told: Told) -> Result<(), Fail> {
    match told? {
        true => Ok(()),
        false => Err(Fail::new("it isn't so")),
    }
}

/// Whether what is told is as wanted.
pub fn is_so(told: Text, wanted: &str) -> Told {
    Ok(told?.as_str() == wanted)
}

/// Adds a piece so often.
fn push_copies(out: &mut String, copies: usize, piece: &str) -> Result<(), AllocError> {
    for _ in 0..copies {
        out.push_str(piece)?;
    }
    Ok(())
}

/// Adds a text, or a number of copies of what stands behind the number.
fn push_part(out: &mut String, is_number: bool, part: &str) -> Result<(), AllocError> {
    match part.split_once(' ') {
        Some((number, piece)) if is_number => {
            push_copies(out, number.parse::<usize>().unwrap_or(0), piece)
        }
        _ => out.push_str(part),
    }
}

/// A text with its copies.
fn with_copies(alloc: Global, text: &str) -> Text {
    let mut out = String::new(alloc);
    let mut is_number = false;
    for part in text.split('~') {
        push_part(&mut out, is_number, part)?;
        is_number = !is_number;
    }
    Ok(out)
}

/// What a text is told as.
fn told(reader: &mut DocReader, form: Form, text: &str) -> Text {
    let alloc = reader.alloc();
    match form {
        Form::Document => doc_told(alloc, read_doc(alloc, text.as_bytes())),
        Form::Again => doc_told(alloc, reader.read(text.as_bytes())),
        Form::Pair => pair_told(alloc, text),
        Form::Scalar => scalar_told(alloc, text),
        Form::Field => field_told(alloc, text),
        Form::Schema(frame) => frame_told(alloc, frame, text),
        Form::Both(frames) => both_told(alloc, frames, text),
        Form::Tracked(frame) => tracked_told(alloc, frame, text),
        Form::Script => script_told(alloc, text.as_bytes()),
        _ => key_told(alloc, form, text),
    }
}

/// What the name of an index and a row or arguments are told as.
fn key_told(alloc: Global, form: Form, text: &str) -> Text {
    let (index, rest) = text.split_once(' ').unwrap_or((text, ""));
    match form {
        Form::Row => row_told(alloc, index, rest),
        Form::Args => args_told(alloc, index, false, rest),
        _ => args_told(alloc, index, true, rest),
    }
}

/// Whether a text is told as wanted.
fn is_told(reader: &mut DocReader, form: Form, text: &str, wanted: &str) -> Told {
    let text = with_copies(reader.alloc(), text)?;
    let wanted = with_copies(reader.alloc(), wanted)?;
    is_so(told(reader, form, &text), &wanted)
}

/// The first text that is told as something else.
fn first_wrong(alloc: Global, form: Form, cases: &[Case]) -> Wrong {
    let mut reader = DocReader::new(alloc);
    for (text, wanted) in cases {
        if !is_told(&mut reader, form, text, wanted)? {
            return Ok(Some(*text));
        }
    }
    Ok(None)
}

/// Whether the text of a line is told as the line says. Else it is a comment.
fn is_line_told(reader: &mut DocReader, form: Form, line: &str) -> Told {
    match line.split_once(" => ") {
        Some((text, wanted)) => is_told(reader, form, text, wanted),
        None => Ok(line.starts_with("//")),
    }
}

/// The first line whose text is told as something else.
fn first_wrong_line(alloc: Global, form: Form, lines: &'static str) -> Wrong {
    let mut reader = DocReader::new(alloc);
    for line in lines.lines() {
        if !is_line_told(&mut reader, form, line)? {
            return Ok(Some(line));
        }
    }
    Ok(None)
}

/// Fails with a case that is wrong, or where there was no memory to find out.
fn none_wrong(wrong: Wrong) -> Result<(), Fail> {
    match wrong? {
        None => Ok(()),
        Some(case) => Err(Fail::new(case)),
    }
}

/// Fails where a text is told as something else.
pub fn are_told(alloc: Global, form: Form, cases: &[Case]) -> Result<(), Fail> {
    none_wrong(first_wrong(alloc, form, cases))
}

/// Fails where the text of a line is told as something else. A line is `TEXT => WANTED`, or a comment.
pub fn are_lines_told(alloc: Global, form: Form, lines: &'static str) -> Result<(), Fail> {
    none_wrong(first_wrong_line(alloc, form, lines))
}
