//! What a client file is told as.

use crate::tables::Text as Words;
use client_script::{
    AskCommand, Command, Line, NameCommand, Script, ScriptError, TransactionCommand,
    WatchesCommand, WriteCommand, read_script,
};
use mdb_datum::{Row, Text};
use mdb_schema::{Ask, Query};
use std::alloc::{AllocError, Global};
use std::str;

/// What was done, or that there was no memory for it.
type Done = Result<(), AllocError>;

/// Adds a word behind a blank.
fn push_word(out: &mut String, word: &str) -> Done {
    out.push(' ')?;
    out.push_str(word)
}

/// Adds words, each behind a blank.
fn push_words(out: &mut String, words: &[&str]) -> Done {
    for word in words {
        push_word(out, word)?;
    }
    Ok(())
}

/// Adds a command with a name.
fn push_named(out: &mut String, word: &str, name: &Text) -> Done {
    push_words(out, &[word, name.as_str()])
}

/// Adds a command with a row.
fn push_row(out: &mut String, word: &str, table: &Text, row: &Row) -> Done {
    push_named(out, word, table)?;
    let document = row.doc()?;
    push_word(out, str::from_utf8(&document).unwrap_or("no text"))
}

/// The word of a question.
fn ask_word(ask: Ask) -> &'static str {
    match ask {
        Ask::First => "first",
        Ask::Last => "last",
        Ask::Get => "get",
        Ask::GetReverse => "get-reverse",
        Ask::Lower => "lower",
        Ask::ReverseLower => "reverse-lower",
        Ask::Longest => "longest",
    }
}

/// Adds a question, and how many arguments it has.
fn push_query(out: &mut String, query: &Query) -> Done {
    push_named(out, ask_word(query.ask()), query.table())?;
    push_word(out, query.index().as_str())?;
    Ok(write!(out, " {}", query.args().len())?)
}

/// Adds a command with a question behind these words.
fn push_asked(out: &mut String, words: &[&str], query: &Query) -> Done {
    push_words(out, words)?;
    push_query(out, query)
}

/// Adds `add-limit`.
fn push_limited(out: &mut String, set: &Text, limit: u32, name: &Text, other: &Text) -> Done {
    push_named(out, "add-limit", set)?;
    write!(out, " {limit}")?;
    push_words(out, &[name.as_str(), other.as_str()])
}

/// Adds a command, with the names that it holds and the number of its arguments.
fn push_command(out: &mut String, command: &Command) -> Done {
    match command {
        Command::Transaction(command) => push_word(out, transaction_word(command)),
        Command::Write(command) => push_write(out, command),
        Command::Defer { text } => push_named(out, "defer", text),
        Command::Ask(command) => push_ask(out, command),
        Command::Name(command) => push_name(out, command),
        Command::Size { set } => push_named(out, "size", set),
        Command::Watches(command) => push_watches(out, command),
    }
}

fn transaction_word(command: &TransactionCommand) -> &'static str {
    match command {
        TransactionCommand::Read => "read",
        TransactionCommand::Write => "write",
        TransactionCommand::End => "end",
        TransactionCommand::Commit => "commit",
        TransactionCommand::Abort => "abort",
    }
}

fn push_write(out: &mut String, command: &WriteCommand) -> Done {
    match command {
        WriteCommand::Insert { table, row } => push_row(out, "insert", table, row),
        WriteCommand::Delete { table, row } => push_row(out, "delete", table, row),
        WriteCommand::DeleteAll { query } => push_asked(out, &["delete-all"], query),
        WriteCommand::DeletePrefix { query } => push_asked(out, &["delete-prefix"], query),
    }
}

fn push_ask(out: &mut String, command: &AskCommand) -> Done {
    match command {
        AskCommand::Question { query } => push_query(out, query),
        AskCommand::InSnapshot { name, query } => push_asked(out, &["in", name.as_str()], query),
    }
}

fn push_name(out: &mut String, command: &NameCommand) -> Done {
    match command {
        NameCommand::Snapshot { name } => push_named(out, "snapshot", name),
        NameCommand::Watch { name, query } => push_asked(out, &["watch", name.as_str()], query),
        NameCommand::WatchIn {
            name,
            snapshot,
            query,
        } => {
            let words = ["watch", name.as_str(), "in", snapshot.as_str()];
            push_asked(out, &words, query)
        }
    }
}

fn push_watches(out: &mut String, command: &WatchesCommand) -> Done {
    match command {
        WatchesCommand::Check { name } => push_named(out, "check", name),
        WatchesCommand::Add { set, name } => push_words(out, &["add", set.as_str(), name.as_str()]),
        WatchesCommand::AddLimit {
            set,
            limit,
            name,
            other,
        } => push_limited(out, set, *limit, name, other),
        WatchesCommand::Wait { set } => push_named(out, "wait", set),
        WatchesCommand::WaitUntil { set, until } => {
            push_words(out, &["wait-until", set.as_str(), until.as_str()])
        }
    }
}

/// Adds a line with its number.
fn push_line(out: &mut String, line: &Line) -> Done {
    write!(out, "{}", line.number)?;
    push_command(out, &line.command)?;
    out.push(';')
}

/// The lines of a script.
fn script_text(alloc: Global, script: &Script) -> Words {
    let mut text = String::new(alloc);
    for line in script.iter() {
        push_line(&mut text, line)?;
    }
    Ok(text)
}

/// The rule that a file breaks, and the number of the line.
fn refusal_text(alloc: Global, error: ScriptError) -> Words {
    let word = error.word();
    match error.line() {
        Some(line) => format!(in alloc; "{word} {line}"),
        None => String::from_str(alloc, word),
    }
}

/// What a file is told as.
pub fn script_told(alloc: Global, file: &[u8]) -> Words {
    match read_script(alloc, file) {
        Ok(script) => script_text(alloc, &script),
        Err(ScriptError::Memory) => Err(AllocError),
        Err(error) => refusal_text(alloc, error),
    }
}

/// The script that a file is. Another one counts as want of memory, which ends a test.
pub fn script_of(alloc: Global, file: &[u8]) -> Result<Script, AllocError> {
    match read_script(alloc, file) {
        Ok(script) => Ok(script),
        Err(_) => Err(AllocError),
    }
}
