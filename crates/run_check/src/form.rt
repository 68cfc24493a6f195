//! The forms of the answers to a command, where it isn't refused.
ghost use Rattle.std.specs.Prelude.{◌≡◌, ◌∷◌, [], codes, option_map};
ghost use Rattle.std.specs.List.{list_any, prefix_len};
ghost use Rattle.client_script.specs.declared.command.Command.TheVariants as commands;
ghost use Rattle.run_check.specs.Forms.{behind_name, fits, forms_of, has_form, is_dark, name, number};
ghost use Rattle.run_check.specs.Forms.{numbered, row_forms, snapshot_forms, word, woken};

use crate::behind::{behind, is_alone};
use crate::decimal::number_first;
use client_script::{
    AskCommand, Command, NameCommand, TransactionCommand, WatchesCommand, WriteCommand,
};
use mdb_schema::Ask;

/// A word and a number.
fn is_numbered(word: &[u8], answer: &[u8]) -> bool
    ensures { result ≡ fits (numbered word.now) answer.now }
{
    match behind(word, answer) {
        Some(rest) => is_number(rest),
        None => false,
    }
}

/// A number alone.
fn is_number(bytes: &[u8]) -> bool
    ensures { result ≡ fits (number ∷ []) bytes.now }
{
    match number_first(bytes) {
        Some(found) => found.rest.is_empty(),
        None => false,
    }
}

/// A number, and a plus sign behind it.
fn is_number_with_plus(bytes: &[u8]) -> bool
    ensures { result ≡ fits (number ∷ word (codes "+") ∷ []) bytes.now }
{
    match number_first(bytes) {
        Some(found) => is_alone(b"+", found.rest),
        None => false,
    }
}

/// The answer to a question for one row.
fn is_row(answer: &[u8]) -> bool
    ensures { result ≡ list_any (λ form. fits form answer.now) row_forms }
{
    behind(b"row ", answer).is_some() || is_alone(b"none", answer)
}

/// The answer to a question.
fn is_answer(ask: Ask, answer: &[u8]) -> bool
    ensures { result ≡ list_any (λ form. fits form answer.now) (forms_of ask) }
{
    match ask {
        Ask::First | Ask::Last | Ask::Longest => is_row(answer),
        Ask::Get | Ask::GetReverse | Ask::Lower | Ask::ReverseLower => {
            is_numbered(b"rows ", answer)
        }
    }
}

/// Whether a byte may stand in the name of an answer.
fn is_name_byte(byte: u8) -> bool
    ensures { result ≡ is_dark byte }
{
    !matches!(byte, b' ' | b'\t')
}

/// How many bytes of a name bytes begin with.
fn name_len(bytes: &[u8]) -> usize
    ensures { result ≡ prefix_len is_dark bytes.now }
{
    bytes.iter().take_while(|byte| is_name_byte(**byte)).count()
}

/// What follows the bytes of a name, where there is one.
fn behind_name(bytes: &[u8]) -> Option<&[u8]>
    ensures { option_map (λ rest. rest.now) result ≡ behind_name bytes.now }
{
    let len = name_len(bytes);
    if len == 0 {
        return None;
    }
    let (_, rest) = bytes.split_at(len);
    Some(rest)
}

/// A name, and the number after ` @` behind it.
fn is_name_at(bytes: &[u8]) -> bool
    ensures { result ≡ fits (name ∷ word (codes " @") ∷ number ∷ []) bytes.now }
{
    match behind_name(bytes) {
        Some(rest) => is_numbered(b" @", rest),
        None => false,
    }
}

/// The answer to a wait of which a member has fired.
fn is_woken(answer: &[u8]) -> bool
    ensures { result ≡ fits woken answer.now }
{
    match behind(b"fired ", answer) {
        Some(rest) => is_name_at(rest),
        None => false,
    }
}

/// The answer to a snapshot.
fn is_snapshot(answer: &[u8]) -> bool
    ensures { result ≡ list_any (λ form. fits form answer.now) snapshot_forms }
{
    match behind(b"snapshot @", answer) {
        Some(rest) => is_number(rest) || is_number_with_plus(rest),
        None => false,
    }
}

/// Of a line that begins or ends a transaction.
fn has_transaction_form(line: &TransactionCommand, answer: &[u8]) -> bool
    ensures { result ≡ has_form (commands.Transaction line.now) answer.now }
{
    match line {
        TransactionCommand::Read => is_numbered(b"read @", answer),
        TransactionCommand::Write => is_numbered(b"write @", answer),
        TransactionCommand::End => is_alone(b"ended", answer),
        TransactionCommand::Commit => is_numbered(b"commit @", answer),
        TransactionCommand::Abort => is_alone(b"aborted", answer),
    }
}

/// Of a line that writes rows.
fn has_write_form(line: &WriteCommand, answer: &[u8]) -> bool
    ensures { result ≡ has_form (commands.Write line.now) answer.now }
{
    match line {
        WriteCommand::Insert { .. } => is_alone(b"inserted", answer)
            || is_alone(b"replaced", answer),
        WriteCommand::Delete { .. } => is_alone(b"deleted", answer),
        WriteCommand::DeleteAll { .. } | WriteCommand::DeletePrefix { .. } => {
            is_numbered(b"deleted ", answer)
        }
    }
}

/// Of a line that gives a name to a snapshot or a watch.
fn has_name_form(line: &NameCommand, answer: &[u8]) -> bool
    ensures { result ≡ has_form (commands.Name line.now) answer.now }
{
    match line {
        NameCommand::Snapshot { .. } => is_snapshot(answer),
        NameCommand::Watch { query, .. } | NameCommand::WatchIn { query, .. } => {
            is_answer(query.ask(), answer)
        }
    }
}

/// Of a line of watches.
fn has_watches_form(line: &WatchesCommand, answer: &[u8]) -> bool
    ensures { result ≡ has_form (commands.Watches line.now) answer.now }
{
    match line {
        WatchesCommand::Check { .. } => {
            is_numbered(b"quiet @", answer) || is_numbered(b"fired @", answer)
        }
        WatchesCommand::Add { .. } | WatchesCommand::AddLimit { .. } => {
            is_numbered(b"size ", answer)
        }
        WatchesCommand::Wait { .. } => is_woken(answer),
        WatchesCommand::WaitUntil { .. } => is_woken(answer) || is_numbered(b"stopped @", answer),
    }
}

/// Whether an answer to a command has one of its forms.
pub(crate) fn has_form(command: &Command, answer: &[u8]) -> bool
    ensures { result ≡ has_form command.now answer.now }
{
    match command {
        Command::Transaction(line) => has_transaction_form(line, answer),
        Command::Write(line) => has_write_form(line, answer),
        Command::Defer { .. } => is_alone(b"deferred", answer),
        Command::Ask(AskCommand::Question { query } | AskCommand::InSnapshot { query, .. }) => {
            is_answer(query.ask(), answer)
        }
        Command::Name(line) => has_name_form(line, answer),
        Command::Size { .. } => is_numbered(b"size ", answer),
        Command::Watches(line) => has_watches_form(line, answer),
    }
}
