//! The parts of a line: words, names, documents, lists and limits.
ghost use Rattle.std.specs.Prelude.{◌≡◌};
ghost use Rattle.std.specs.List.{list_all};
ghost use Rattle.std.specs.Result.{result_map_both};
ghost use Rattle.mdb_datum.specs.Datum.{doc_of};
ghost use Rattle.mdb_datum.specs.Reading.{reading, read_as};
ghost use Rattle.mdb_schema.specs.Names.{is_name_byte};
ghost use Rattle.mdb_schema.specs.Shapes.{list_in};
ghost use Rattle.client_script.specs.Parts.{next_word, something, nothing, name_in, is_index_word};
ghost use Rattle.client_script.specs.Parts.{index_name_in, object_in, row_in, is_scalar};
ghost use Rattle.client_script.specs.Parts.{scalars_in, args_in, is_digit, is_limit, limit_in};
ghost use Rattle.client_script.specs.inner.LineAnswer.{IsLineResult, rule_of};
ghost use Rattle.client_script.specs.inner.LineDoc.{doc_in};
ghost use Rattle.client_script.specs.inner.WordView.{word_of};

use crate::line_error::LineError;
use crate::line_rule::LineRule;
use crate::word::{Word, first_word};
use mdb_datum::{Datum, DocError, DocReader, Items, Members, Row, Text};
use mdb_schema::{is_name_byte, is_word};
use std::alloc::Global;

/// The name of an index may have so many bytes: those of a declared name, and `_prefix`.
const INDEX_LENGTH: usize = 71;

/// A limit has at most so many digits.
const LIMIT_LENGTH: usize = 9;

/// One more word, which has to be there.
pub(crate) fn next_word(rest: &str) -> Result<Word<'_>, LineRule>
    ensures { result_map_both word_of rule_of result ≡ next_word rest.now }
{
    if rest.is_empty() {
        return Err(LineRule::BadShape);
    }
    Ok(first_word(rest))
}

/// The rest of the line, which has to be there.
pub(crate) fn something(rest: &str) -> Result<&str, LineRule>
    ensures { result_map_both (λ s. s.now) rule_of result ≡ something rest.now }
{
    if rest.is_empty() {
        return Err(LineRule::BadShape);
    }
    Ok(rest)
}

/// No word may follow.
pub(crate) fn nothing(rest: &str) -> Result<(), LineRule>
    ensures { result_map_both (λ u. u) rule_of result ≡ nothing rest.now }
{
    if rest.is_empty() {
        Ok(())
    } else {
        Err(LineRule::BadShape)
    }
}

/// The name of a table, a snapshot, a watch or a set.
pub(crate) fn name_in(alloc: Global, word: &str) -> Result<Text, LineError>
    ensures { IsLineResult (λ t. t) (name_in word.now) result }
{
    if !is_word(word.as_bytes()) {
        return Err(LineError::Broken(LineRule::BadName));
    }
    Ok(Text::of(alloc, word)?)
}

/// Whether each byte may stand in a name.
fn all_name_bytes(bytes: &[u8]) -> bool
    ensures { result ≡ list_all is_name_byte bytes.now }
{
    bytes.iter().all(|byte| is_name_byte(*byte))
}

/// Whether bytes may name an index in a question.
fn is_index_word(bytes: &[u8]) -> bool
    ensures { result ≡ is_index_word bytes.now }
{
    if bytes.is_empty() || bytes.len() > INDEX_LENGTH {
        return false;
    }
    all_name_bytes(bytes)
}

/// The name of an index, perhaps with `_prefix` at its end.
pub(crate) fn index_name_in(alloc: Global, word: &str) -> Result<Text, LineError>
    ensures { IsLineResult (λ t. t) (index_name_in word.now) result }
{
    if !is_index_word(word.as_bytes()) {
        return Err(LineError::Broken(LineRule::BadName));
    }
    Ok(Text::of(alloc, word)?)
}

/// The document that the rest of a line is.
fn doc_in(reader: &mut DocReader, rest: &str) -> Result<Datum, LineError>
    ensures { IsLineResult doc_of (doc_in (reading rest.now)) result }
{
    match reader.read(rest.as_bytes()) {
        Ok(document) => Ok(document),
        Err(DocError::Memory) => Err(LineError::Memory),
        Err(_) => Err(LineError::Broken(LineRule::BadDoc)),
    }
}

/// The members of an object.
#[tactic(auto, using(crate::proofs::DocParts::object_found))]
fn object_in(document: Datum) -> Option<Members>
    ensures { result ≡ object_in (read_as (doc_of document)) }
{
    match document {
        Datum::Members(members) => Some(members),
        _ => None,
    }
}

/// The row that the rest of a line is.
pub(crate) fn row_in(reader: &mut DocReader, rest: &str) -> Result<Row, LineError>
    ensures { IsLineResult (λ r. r) (row_in rest.now) result }
{
    let document = doc_in(reader, rest)?;
    match object_in(document) {
        Some(members) => Ok(Row::of(reader.alloc(), members)?),
        None => Err(LineError::Broken(LineRule::BadDoc)),
    }
}

/// Whether a document is no list and no object.
fn is_scalar(document: &Datum) -> bool
    ensures { result ≡ is_scalar (doc_of document.now) }
{
    !matches!(document, Datum::Items(_) | Datum::Members(_))
}

/// Whether each item is no list and no object.
fn all_scalars(items: &Items) -> bool
    ensures { result ≡ list_all is_scalar items.now }
{
    for at in 0..items.len() {
        let Some(item) = items.get(at) else {
            unreachable!();
        };
        if !is_scalar(item) {
            return false;
        }
    }
    true
}

/// The items of a list.
#[tactic(auto, using(mdb_schema::proofs::ShapeLemmas::list_found))]
fn list_in(document: Datum) -> Option<Items>
    ensures { result ≡ list_in (doc_of document) }
{
    match document {
        Datum::Items(items) => Some(items),
        _ => None,
    }
}

/// The items of a list of scalars.
fn scalars_in(document: Datum) -> Option<Items>
    ensures { result ≡ scalars_in (read_as (doc_of document)) }
{
    let items = list_in(document)?;
    if all_scalars(&items) {
        Some(items)
    } else {
        None
    }
}

/// The arguments that the rest of a line is: a list of scalars, empty where nothing is left.
pub(crate) fn args_in(reader: &mut DocReader, rest: &str) -> Result<Items, LineError>
    ensures { IsLineResult (λ p. p) (args_in rest.now) result }
{
    if rest.is_empty() {
        return Ok(Items::new(reader.alloc()));
    }
    let document = doc_in(reader, rest)?;
    match scalars_in(document) {
        Some(items) => Ok(items),
        None => Err(LineError::Broken(LineRule::BadDoc)),
    }
}

/// Whether each byte is a decimal digit.
fn all_digits(bytes: &[u8]) -> bool
    ensures { result ≡ list_all is_digit bytes.now }
{
    bytes.iter().all(|byte| byte.is_ascii_digit())
}

/// Whether bytes are a limit.
fn is_limit(bytes: &[u8]) -> bool
    ensures { result ≡ is_limit bytes.now }
{
    if bytes.is_empty() || bytes.len() > LIMIT_LENGTH {
        return false;
    }
    all_digits(bytes)
}

/// The limit that a word is.
pub(crate) fn limit_in(word: &str) -> Result<u32, LineRule>
    ensures { result_map_both (λ n. n) rule_of result ≡ limit_in word.now }
{
    if !is_limit(word.as_bytes()) {
        return Err(LineRule::BadShape);
    }
    let Ok(limit) = word.parse::<u32>() else {
        unreachable!();
    };
    Ok(limit)
}
