//! The command of a line, behind its first word.
ghost use Rattle.std.specs.Prelude.{◌≡◌};
ghost use Rattle.std.specs.Result.{result_map_both};
ghost use Rattle.client_script.specs.Grammar.{alone, of_row, of_query, of_text, of_name};
ghost use Rattle.client_script.specs.Grammar.{of_snapshot, watch_of, watch_in, of_watch, of_add};
ghost use Rattle.client_script.specs.Grammar.{of_add_limit, wait_until, of_wait, command_of};
ghost use Rattle.client_script.specs.Grammar.{command_in};
ghost use Rattle.client_script.specs.inner.GrammarParts.{table_and_row, named_row, named_query};
ghost use Rattle.client_script.specs.inner.GrammarParts.{watch_kept, watch_by, asked_of, one_word};
ghost use Rattle.client_script.specs.inner.GrammarParts.{one_name, two_words, two_names};
ghost use Rattle.client_script.specs.inner.GrammarParts.{limit_words, words_behind, until_word};
ghost use Rattle.client_script.specs.inner.LineAnswer.{IsLineResult, rule_of};
ghost use Rattle.client_script.specs.inner.WordView.{word_of, question_view, limit_words_view};
ghost use Rattle.client_script.specs.declared.command.Command.TheVariants as commands;
ghost use Rattle.client_script.specs.declared.command.AskCommand.TheVariants as ask_line;
ghost use Rattle.client_script.specs.declared.command.NameCommand.TheVariants as name_line;
ghost use Rattle.client_script.specs.declared.command.TransactionCommand.TheVariants as transaction_line;
ghost use Rattle.client_script.specs.declared.command.WatchesCommand.TheVariants as watches_line;
ghost use Rattle.client_script.specs.declared.command.WriteCommand.TheVariants as write_line;

use crate::command::{
    AskCommand, Command, NameCommand, TransactionCommand, WatchesCommand, WriteCommand,
};
use crate::command_word::{CommandWord, command_named};
use crate::line_error::LineError;
use crate::line_rule::LineRule;
use crate::parts::{limit_in, name_in, next_word, nothing, row_in, something};
use crate::question::{Question, query_in, question_by, question_in, question_of};
use crate::word::{Word, first_word};
use mdb_datum::{DocReader, Row, Text};
use mdb_schema::{Ask, Query};
use std::alloc::Global;

/// The words of `add-limit`.
#[derive(Clone, Copy)]
struct LimitWords<'a> {
    set: &'a str,
    limit: u32,
    name: &'a str,
    other: &'a str,
}

/// `read`.
fn of_read(rest: &str) -> Result<Command, LineError>
    ensures { IsLineResult (λ c. c) (alone transaction_line.Read rest.now) result }
{
    nothing(rest)?;
    Ok(Command::Transaction(TransactionCommand::Read))
}

/// `write`.
fn of_write(rest: &str) -> Result<Command, LineError>
    ensures { IsLineResult (λ c. c) (alone transaction_line.Write rest.now) result }
{
    nothing(rest)?;
    Ok(Command::Transaction(TransactionCommand::Write))
}

/// `end`.
fn of_end(rest: &str) -> Result<Command, LineError>
    ensures { IsLineResult (λ c. c) (alone transaction_line.End rest.now) result }
{
    nothing(rest)?;
    Ok(Command::Transaction(TransactionCommand::End))
}

/// `commit`.
fn of_commit(rest: &str) -> Result<Command, LineError>
    ensures { IsLineResult (λ c. c) (alone transaction_line.Commit rest.now) result }
{
    nothing(rest)?;
    Ok(Command::Transaction(TransactionCommand::Commit))
}

/// `abort`.
fn of_abort(rest: &str) -> Result<Command, LineError>
    ensures { IsLineResult (λ c. c) (alone transaction_line.Abort rest.now) result }
{
    nothing(rest)?;
    Ok(Command::Transaction(TransactionCommand::Abort))
}

/// The table and the row of `insert` and `delete`.
fn table_and_row(reader: &mut DocReader, rest: &str) -> Result<(Text, Row), LineError>
    ensures { IsLineResult (λ p. p) (table_and_row rest.now) result }
{
    let table = next_word(rest)?;
    let document = something(table.rest)?;
    named_row(reader, table.text, document)
}

/// A name and a row.
fn named_row(reader: &mut DocReader, name: &str, document: &str) -> Result<(Text, Row), LineError>
    ensures { IsLineResult (λ p. p) (named_row name.now document.now) result }
{
    let name = name_in(reader.alloc(), name)?;
    let row = row_in(reader, document)?;
    Ok((name, row))
}

/// `insert TABLE DOC`.
fn of_insert(reader: &mut DocReader, rest: &str) -> Result<Command, LineError>
    ensures { IsLineResult (λ c. c) (of_row write_line.Insert rest.now) result }
{
    let (table, row) = table_and_row(reader, rest)?;
    Ok(Command::Write(WriteCommand::Insert { table, row }))
}

/// `delete TABLE DOC`.
fn of_delete(reader: &mut DocReader, rest: &str) -> Result<Command, LineError>
    ensures { IsLineResult (λ c. c) (of_row write_line.Delete rest.now) result }
{
    let (table, row) = table_and_row(reader, rest)?;
    Ok(Command::Write(WriteCommand::Delete { table, row }))
}

/// The question of `delete-all`, of `delete-prefix` and of a question's word.
fn asked_of(reader: &mut DocReader, ask: Ask, rest: &str) -> Result<Query, LineError>
    ensures { IsLineResult (λ q. q) (asked_of ask rest.now) result }
{
    let question = question_of(ask, rest)?;
    query_in(reader, &question)
}

/// `delete-all TABLE INDEX ARGS`.
fn of_delete_all(reader: &mut DocReader, rest: &str) -> Result<Command, LineError>
    ensures { IsLineResult (λ c. c) (of_query (λ q. commands.Write (write_line.DeleteAll q)) Ask.Get rest.now) result }
{
    let query = asked_of(reader, Ask::Get, rest)?;
    Ok(Command::Write(WriteCommand::DeleteAll { query }))
}

/// `delete-prefix TABLE INDEX ARGS`.
fn of_delete_prefix(reader: &mut DocReader, rest: &str) -> Result<Command, LineError>
    ensures { IsLineResult (λ c. c) (of_query (λ q. commands.Write (write_line.DeletePrefix q)) Ask.Get rest.now) result }
{
    let query = asked_of(reader, Ask::Get, rest)?;
    Ok(Command::Write(WriteCommand::DeletePrefix { query }))
}

/// A question behind its word.
fn of_question(reader: &mut DocReader, ask: Ask, rest: &str) -> Result<Command, LineError>
    ensures { IsLineResult (λ c. c) (of_query (λ q. commands.Ask (ask_line.Question q)) ask rest.now) result }
{
    let query = asked_of(reader, ask, rest)?;
    Ok(Command::Ask(AskCommand::Question { query }))
}

/// `defer TEXT`.
fn of_text(alloc: Global, rest: &str) -> Result<Command, LineError>
    ensures { IsLineResult (λ c. c) (of_text rest.now) result }
{
    let text = something(rest)?;
    Ok(Command::Defer {
        text: Text::of(alloc, text)?,
    })
}

/// One word, of which no more may follow.
fn one_word(rest: &str) -> Result<&str, LineRule>
    ensures { result_map_both (λ s. s.now) rule_of result ≡ one_word rest.now }
{
    let word = next_word(rest)?;
    nothing(word.rest)?;
    Ok(word.text)
}

/// The one name of `snapshot`, `check` and `size`.
fn one_name(alloc: Global, rest: &str) -> Result<Text, LineError>
    ensures { IsLineResult (λ t. t) (one_name rest.now) result }
{
    let name = one_word(rest)?;
    name_in(alloc, name)
}

/// Two words, of which no more may follow.
fn two_words(rest: &str) -> Result<(&str, &str), LineRule>
    ensures { result_map_both (λ p. (p.0.now, p.1.now)) rule_of result ≡ two_words rest.now }
{
    let first = next_word(rest)?;
    let second = one_word(first.rest)?;
    Ok((first.text, second))
}

/// Two names.
fn two_names(alloc: Global, first: &str, second: &str) -> Result<(Text, Text), LineError>
    ensures { IsLineResult (λ p. p) (two_names first.now second.now) result }
{
    let first = name_in(alloc, first)?;
    let second = name_in(alloc, second)?;
    Ok((first, second))
}

/// `snapshot NAME`.
fn of_keep(alloc: Global, rest: &str) -> Result<Command, LineError>
    ensures { IsLineResult (λ c. c) (of_name (λ n. commands.Name (name_line.Snapshot n)) rest.now) result }
{
    let name = one_name(alloc, rest)?;
    Ok(Command::Name(NameCommand::Snapshot { name }))
}

/// `check NAME`.
fn of_check(alloc: Global, rest: &str) -> Result<Command, LineError>
    ensures { IsLineResult (λ c. c) (of_name (λ n. commands.Watches (watches_line.Check n)) rest.now) result }
{
    let name = one_name(alloc, rest)?;
    Ok(Command::Watches(WatchesCommand::Check { name }))
}

/// `size SET`.
fn of_size(alloc: Global, rest: &str) -> Result<Command, LineError>
    ensures { IsLineResult (λ c. c) (of_name commands.Size rest.now) result }
{
    let set = one_name(alloc, rest)?;
    Ok(Command::Size { set })
}

/// `in NAME QUESTION`.
fn of_snapshot(reader: &mut DocReader, rest: &str) -> Result<Command, LineError>
    ensures { IsLineResult (λ c. c) (of_snapshot rest.now) result }
{
    let word = next_word(rest)?;
    let question = question_in(word.rest)?;
    let (name, query) = named_query(reader, word.text, &question)?;
    Ok(Command::Ask(AskCommand::InSnapshot { name, query }))
}

/// A name and a question.
fn named_query(
    reader: &mut DocReader,
    name: &str,
    question: &Question,
) -> Result<(Text, Query), LineError>
    ensures { IsLineResult (λ p. p) (named_query name.now (question_view question.now)) result }
{
    let name = name_in(reader.alloc(), name)?;
    let query = query_in(reader, question)?;
    Ok((name, query))
}

/// `watch NAME QUESTION`, behind the name and the next word.
fn watch_of(reader: &mut DocReader, word: &Word, asked: &Word) -> Result<Command, LineError>
    ensures { IsLineResult (λ c. c) (watch_of (word_of word.now) (word_of asked.now)) result }
{
    let question = question_by(asked)?;
    let (name, query) = named_query(reader, word.text, &question)?;
    Ok(Command::Name(NameCommand::Watch { name, query }))
}

/// `watch NAME in NAME QUESTION`, behind `in`.
fn watch_in(reader: &mut DocReader, word: &Word, rest: &str) -> Result<Command, LineError>
    ensures { IsLineResult (λ c. c) (watch_in (word_of word.now) rest.now) result }
{
    let kept = next_word(rest)?;
    let question = question_in(kept.rest)?;
    watch_kept(reader, word.text, kept.text, &question)
}

/// The same, of its two names and its question.
fn watch_kept(
    reader: &mut DocReader,
    name: &str,
    snapshot: &str,
    question: &Question,
) -> Result<Command, LineError>
    ensures { IsLineResult (λ c. c)
        (watch_kept name.now snapshot.now (question_view question.now)) result }
{
    let name = name_in(reader.alloc(), name)?;
    let (snapshot, query) = named_query(reader, snapshot, question)?;
    Ok(Command::Name(NameCommand::WatchIn {
        name,
        snapshot,
        query,
    }))
}

/// `watch`, in both forms.
fn of_watch(reader: &mut DocReader, rest: &str) -> Result<Command, LineError>
    ensures { IsLineResult (λ c. c) (of_watch rest.now) result }
{
    let word = next_word(rest)?;
    let next = next_word(word.rest)?;
    watch_by(reader, &word, &next)
}

/// The same, behind the name and the next word, which tells the form.
fn watch_by(reader: &mut DocReader, word: &Word, next: &Word) -> Result<Command, LineError>
    ensures { IsLineResult (λ c. c) (watch_by (word_of word.now) (word_of next.now)) result }
{
    if next.text == "in" {
        watch_in(reader, word, next.rest)
    } else {
        watch_of(reader, word, next)
    }
}

/// `add SET NAME`.
fn of_add(alloc: Global, rest: &str) -> Result<Command, LineError>
    ensures { IsLineResult (λ c. c) (of_add rest.now) result }
{
    let (set, name) = two_words(rest)?;
    let (set, name) = two_names(alloc, set, name)?;
    Ok(Command::Watches(WatchesCommand::Add { set, name }))
}

/// The words of `add-limit`, of which no more may follow.
fn limit_words(rest: &str) -> Result<LimitWords<'_>, LineRule>
    ensures { result_map_both limit_words_view rule_of result ≡ limit_words rest.now }
{
    let set = next_word(rest)?;
    let limit = next_word(set.rest)?;
    words_behind(set.text, &limit)
}

/// The same, behind the set and the limit.
fn words_behind<'a>(set: &'a str, limit: &Word<'a>) -> Result<LimitWords<'a>, LineRule>
    ensures { result_map_both limit_words_view rule_of result
        ≡ words_behind set.now (word_of limit.now) }
{
    let (name, other) = two_words(limit.rest)?;
    let limit = limit_in(limit.text)?;
    Ok(LimitWords {
        set,
        limit,
        name,
        other,
    })
}

/// `add-limit SET LIMIT NAME NAME`.
fn of_add_limit(alloc: Global, rest: &str) -> Result<Command, LineError>
    ensures { IsLineResult (λ c. c) (of_add_limit rest.now) result }
{
    let words = limit_words(rest)?;
    let set = name_in(alloc, words.set)?;
    let (name, other) = two_names(alloc, words.name, words.other)?;
    Ok(Command::Watches(WatchesCommand::AddLimit {
        set,
        limit: words.limit,
        name,
        other,
    }))
}

/// The word `until` of `wait SET until NAME`, and the one word behind it.
fn until_word(rest: &str) -> Result<&str, LineRule>
    ensures { result_map_both (λ s. s.now) rule_of result ≡ until_word rest.now }
{
    let until = next_word(rest)?;
    if until.text != "until" {
        return Err(LineRule::BadShape);
    }
    one_word(until.rest)
}

/// `wait SET until NAME`, behind the set.
fn wait_until(alloc: Global, set: &Word, rest: &str) -> Result<Command, LineError>
    ensures { IsLineResult (λ c. c) (wait_until (word_of set.now) rest.now) result }
{
    let name = until_word(rest)?;
    let (set, until) = two_names(alloc, set.text, name)?;
    Ok(Command::Watches(WatchesCommand::WaitUntil { set, until }))
}

/// `wait`, in both forms.
fn of_wait(alloc: Global, rest: &str) -> Result<Command, LineError>
    ensures { IsLineResult (λ c. c) (of_wait rest.now) result }
{
    let set = next_word(rest)?;
    if !set.rest.is_empty() {
        return wait_until(alloc, &set, set.rest);
    }
    let set = name_in(alloc, set.text)?;
    Ok(Command::Watches(WatchesCommand::Wait { set }))
}

/// The command behind its first word, which stands alone or is followed by rows or a question.
fn command_of(reader: &mut DocReader, word: CommandWord, rest: &str) -> Result<Command, LineError>
    ensures { IsLineResult (λ c. c) (command_of word rest.now) result }
{
    let alloc = reader.alloc();
    match word {
        CommandWord::Read => of_read(rest),
        CommandWord::Write => of_write(rest),
        CommandWord::End => of_end(rest),
        CommandWord::Commit => of_commit(rest),
        CommandWord::Abort => of_abort(rest),
        CommandWord::Insert => of_insert(reader, rest),
        CommandWord::Delete => of_delete(reader, rest),
        CommandWord::DeleteAll => of_delete_all(reader, rest),
        CommandWord::DeletePrefix => of_delete_prefix(reader, rest),
        CommandWord::Defer => of_text(alloc, rest),
        CommandWord::Question(ask) => of_question(reader, ask, rest),
        CommandWord::Snapshot => of_keep(alloc, rest),
        CommandWord::In => of_snapshot(reader, rest),
        CommandWord::Watch => of_watch(reader, rest),
        CommandWord::Check => of_check(alloc, rest),
        CommandWord::Add => of_add(alloc, rest),
        CommandWord::AddLimit => of_add_limit(alloc, rest),
        CommandWord::Size => of_size(alloc, rest),
        CommandWord::Wait => of_wait(alloc, rest),
    }
}

/// The command of a line that isn't empty and begins with no blank.
pub(crate) fn command_in(reader: &mut DocReader, line: &str) -> Result<Command, LineError>
    ensures { IsLineResult (λ c. c) (command_in line.now) result }
{
    let word = first_word(line);
    match command_named(word.text) {
        Some(known) => command_of(reader, known, word.rest),
        None => Err(LineError::Broken(LineRule::UnknownWord)),
    }
}
