//! The words of a question.
ghost use Rattle.std.specs.Prelude.{◌≡◌};
ghost use Rattle.std.specs.Result.{result_map_both};
ghost use Rattle.client_script.specs.Parts.{question_of, question_by, question_in, query_in};
ghost use Rattle.client_script.specs.inner.GrammarParts.{query_of};
ghost use Rattle.client_script.specs.inner.LineAnswer.{IsLineResult, rule_of};
ghost use Rattle.client_script.specs.inner.WordView.{word_of, question_view};

use crate::command_word::ask_named;
use crate::line_error::LineError;
use crate::line_rule::LineRule;
use crate::parts::{args_in, index_name_in, name_in, next_word};
use crate::word::Word;
use mdb_datum::{DocReader, Text};
use mdb_schema::{Ask, Query};

/// What stands in a question, before its names and its list are looked at.
#[derive(Clone, Copy)]
pub(crate) struct Question<'a> {
    pub(crate) ask: Ask,
    pub(crate) table: &'a str,
    pub(crate) index: &'a str,
    pub(crate) args: &'a str,
}

/// The question behind its word.
pub(crate) fn question_of(ask: Ask, rest: &str) -> Result<Question<'_>, LineRule>
    ensures { result_map_both question_view rule_of result ≡ question_of ask rest.now }
{
    let table = next_word(rest)?;
    let index = next_word(table.rest)?;
    Ok(Question {
        ask,
        table: table.text,
        index: index.text,
        args: index.rest,
    })
}

/// The question of a word and what follows it.
pub(crate) fn question_by<'a>(word: &Word<'a>) -> Result<Question<'a>, LineRule>
    ensures { result_map_both question_view rule_of result ≡ question_by (word_of word.now) }
{
    match ask_named(word.text) {
        Some(ask) => question_of(ask, word.rest),
        None => Err(LineRule::UnknownWord),
    }
}

/// The question that the rest of a line is.
pub(crate) fn question_in(rest: &str) -> Result<Question<'_>, LineRule>
    ensures { result_map_both question_view rule_of result ≡ question_in rest.now }
{
    let word = next_word(rest)?;
    question_by(&word)
}

/// The question with its names and arguments. It takes memory for both.
pub(crate) fn query_in(reader: &mut DocReader, question: &Question) -> Result<Query, LineError>
    ensures { IsLineResult (λ q. q) (query_in (question_view question.now)) result }
{
    let table = name_in(reader.alloc(), question.table)?;
    let index = index_name_in(reader.alloc(), question.index)?;
    query_of(reader, question, table, index)
}

/// The question with its arguments, of a table and an index of these names.
fn query_of(
    reader: &mut DocReader,
    question: &Question,
    table: Text,
    index: Text,
) -> Result<Query, LineError>
    ensures { IsLineResult (λ q. q) (query_of (question_view question.now) table index) result }
{
    let args = args_in(reader, question.args)?;
    Ok(Query::from_parts(reader.alloc(), question.ask, table, index, args)?)
}
