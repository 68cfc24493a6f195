//! A schema, from its document.
ghost use Rattle.std.specs.Prelude.{◌≡◌, IfOk, IsTrue, Some, None, option_copied};
ghost use Rattle.std.specs.Result.{result_map_both};
ghost use Rattle.mdb_datum.specs.Canonical.{IsRegular};
ghost use Rattle.mdb_datum.specs.Datum.{doc_of};
ghost use Rattle.mdb_datum.specs.Reading.{reading};
ghost use Rattle.mdb_encode.specs.Kind.{indexer_of};
ghost use Rattle.mdb_schema.specs.Broken.{each};
ghost use Rattle.mdb_schema.specs.LawfulSchema.{IsLawfulIndex, IsLawfulSchema, IsLawfulTable};
ghost use Rattle.mdb_schema.specs.Names.{is_declared_name};
ghost use Rattle.mdb_schema.specs.Reading.{is_multi, id_in, index_rules, index_members, index_kind};
ghost use Rattle.mdb_schema.specs.Reading.{index_in, named_index, index_list};
ghost use Rattle.mdb_schema.specs.Reading.{table_in, table_list, schema_in, schema_of};
ghost use Rattle.mdb_schema.specs.SchemaAnswer.{AnswersSchema};
ghost use Rattle.mdb_schema.specs.inner.IndexerAnswer.{IsIndexerResult};
ghost use Rattle.mdb_schema.specs.inner.ListAnswer.{AnswersList, IsNamed};
ghost use Rattle.mdb_schema.specs.inner.Regular.{EachRegular};

use crate::error::{IndexerError, SchemaError};
use crate::index_def::IndexDef;
use crate::indexer::read_indexer;
use crate::names::is_declared_name;
use crate::schema::Schema;
use crate::schema_rule::SchemaRule;
use crate::shapes::{index_shape, object_in, schema_shape, table_shape};
use crate::table_def::TableDef;
use crate::version::{Version, version_numbered};
use mdb_datum::{Datum, DocError, Members, Text, read_doc};
use mdb_encode::Kind;
use std::alloc::{AllocError, Global};

/// The greatest number of tables of a schema.
const MOST_TABLES: usize = 64;

/// The greatest number of indexes of a table.
const MOST_INDEXES: usize = 32;

/// Whether a row may have several keys.
fn is_multi(kind: &Kind) -> bool
    ensures { result ≡ is_multi (indexer_of kind.now) }
{
    match kind {
        Kind::StrList { .. } | Kind::StrMap { .. } => true,
        _ => false,
    }
}

/// What the index `id` has to be.
fn id_in(unique: bool, allow_missing: bool, kind: &Kind) -> Result<(), SchemaRule>
    ensures { result ≡ id_in unique allow_missing (indexer_of kind.now) }
{
    if is_multi(kind) {
        return Err(SchemaRule::IdMulti);
    }
    if !unique {
        return Err(SchemaRule::IdNotUnique);
    }
    if allow_missing {
        return Err(SchemaRule::IdAllowsMissing);
    }
    Ok(())
}

/// What an index has to be, by its name.
fn index_rules(
    name: &Text,
    unique: bool,
    allow_missing: bool,
    kind: &Kind,
) -> Result<(), SchemaRule>
    ensures { result ≡ index_rules name.now unique allow_missing (indexer_of kind.now) }
{
    if name.as_str() == "id" {
        id_in(unique, allow_missing, kind)
    } else {
        Ok(())
    }
}

/// The members of an index under a name: the indexer, and `unique` and `allow_missing`.
fn index_members<'a>(
    name: &Text,
    document: &'a Datum,
) -> Result<(&'a Datum, (bool, bool)), SchemaRule>
    ensures found { result_map_both (λ p. (doc_of p.0.now, p.1)) (λ r. r) result
        ≡ index_members (name.now, doc_of document.now) }
    ensures declared { IfOk result (λ _. IsTrue (is_declared_name name.now)) }
{
    if !is_declared_name(name.as_str()) {
        return Err(SchemaRule::BadName);
    }
    let Some(members) = object_in(document) else {
        return Err(SchemaRule::BadShape);
    };
    let Some(shape) = index_shape(members) else {
        return Err(SchemaRule::BadShape);
    };
    Ok(shape)
}

/// The kind of an index, where it keeps to what its name asks.
fn index_kind(
    alloc: Global,
    name: &Text,
    unique: bool,
    allow_missing: bool,
    indexer: &Datum,
) -> Result<Kind, IndexerError>
    requires { IsTrue (is_declared_name name.now) }
    ensures answer { IsIndexerResult indexer_of
        (index_kind name.now unique allow_missing (doc_of indexer.now)) result }
    ensures lawful { IfOk result (λ kind. IsLawfulIndex (record {
      name = name.now;
      unique = unique;
      allow_missing = allow_missing;
      indexer = indexer_of kind;
    })) }
{
    let kind = read_indexer(alloc, indexer)?;
    let rules = index_rules(name, unique, allow_missing, &kind);
    Ok(rules.and(Ok(kind))?)
}

/// The index under a name.
fn index_in(alloc: Global, name: &Text, document: &Datum) -> Result<IndexDef, IndexerError>
    ensures { IsIndexerResult (λ index. index) (index_in (name.now, doc_of document.now)) result }
{
    let (indexer, (unique, allow_missing)) = index_members(name, document)?;
    // The name is copied first, so that want of memory for it has no kind to drop.
    let own = Text::of(alloc, name.as_str())?;
    let kind = index_kind(alloc, name, unique, allow_missing, indexer)?;
    Ok(IndexDef::of(own, unique, allow_missing, kind))
}

/// A copy of a name, where there is one.
fn copied(alloc: Global, name: Option<&Text>) -> Result<Option<Text>, AllocError>
    ensures { IfOk result (λ copy. copy ≡ option_copied name.entry) }
{
    match name {
        Some(name) => Ok(Some(Text::of(alloc, name.as_str())?)),
        None => Ok(None),
    }
}

/// A rule that is broken at these names.
fn broken(
    alloc: Global,
    rule: SchemaRule,
    table: Option<&Text>,
    index: Option<&Text>,
) -> Result<SchemaError, AllocError>
    ensures { IfOk result (λ e. IsNamed (IndexerError.Broken rule)
        (option_copied table.entry) (option_copied index.entry) e) }
{
    let table = copied(alloc, table)?;
    let index = copied(alloc, index)?;
    Ok(SchemaError::Broken { rule, table, index })
}

/// An error with the names of a table and an index. It may want memory for the names.
fn named(
    alloc: Global,
    error: IndexerError,
    table: Option<&Text>,
    index: Option<&Text>,
) -> SchemaError
    ensures { IsNamed error
        (option_copied table.entry) (option_copied index.entry) result }
{
    match error {
        IndexerError::Memory => SchemaError::Memory,
        IndexerError::Broken(rule) => match broken(alloc, rule, table, index) {
            Ok(error) => error,
            Err(_) => SchemaError::Memory,
        },
    }
}

/// The index under a name, of a table.
fn named_index(
    alloc: Global,
    table: &Text,
    name: &Text,
    document: &Datum,
) -> Result<IndexDef, SchemaError>
    ensures { AnswersSchema (named_index table.now (name.now, doc_of document.now)) result }
{
    match index_in(alloc, name, document) {
        Ok(index) => Ok(index),
        Err(error) => Err(named(alloc, error, Some(table), Some(name))),
    }
}

/// The members for the indexes of a table, and whether it is tracked.
fn index_list<'a>(
    version: Version,
    name: &Text,
    document: &'a Datum,
) -> Result<(&'a Members, bool), SchemaRule>
    ensures { result_map_both (λ p. (p.0.now, p.1)) (λ r. r) result
        ≡ index_list version (name.now, doc_of document.now) }
{
    if !is_declared_name(name.as_str()) {
        return Err(SchemaRule::BadName);
    }
    let Some(members) = object_in(document) else {
        return Err(SchemaRule::BadShape);
    };
    let Some((indexes, tracked)) = table_shape(version, members) else {
        return Err(SchemaRule::BadShape);
    };
    if indexes.len() == 0 {
        return Err(SchemaRule::NoIndexes);
    }
    if indexes.len() > MOST_INDEXES {
        return Err(SchemaRule::TooManyIndexes);
    }
    if indexes.get("id").is_none() {
        return Err(SchemaRule::NoId);
    }
    Ok((indexes, tracked))
}

/// The indexes of a table, each whole before the next.
fn indexes_in(alloc: Global, table: &Text, members: &Members) -> Result<Vec<IndexDef>, SchemaError>
    ensures { AnswersList (each (named_index table.now) members.now) result }
{
    let mut indexes = Vec::new(alloc);
    for at in 0..members.len() {
        let Some((name, document)) = members.pair(at) else {
            unreachable!();
        };
        match named_index(alloc, table, name, document) {
            Ok(index) => indexes.push(index)?,
            Err(error) => return Err(error),
        }
    }
    Ok(indexes)
}

/// The table of these indexes, under a copy of the name.
fn table_of(
    alloc: Global,
    name: &Text,
    tracked: bool,
    indexes: Vec<IndexDef>,
) -> Result<TableDef, AllocError>
    requires { IsLawfulTable (record {
      name = name.now;
      tracked = tracked;
      indexes = indexes.items;
    }) }
    ensures { IfOk result (λ table. table
        ≡ record { name = name.now; tracked = tracked; indexes = indexes.items }) }
{
    let own = Text::of(alloc, name.as_str())?;
    TableDef::of(alloc, own, tracked, indexes)
}

/// The table under a name.
fn table_in(
    alloc: Global,
    version: Version,
    name: &Text,
    document: &Datum,
) -> Result<TableDef, SchemaError>
    requires { IsRegular (doc_of document.now) }
    ensures { AnswersSchema (table_in version (name.now, doc_of document.now)) result }
{
    let (members, tracked) = match index_list(version, name, document) {
        Ok(listed) => listed,
        Err(rule) => return Err(named(alloc, IndexerError::Broken(rule), Some(name), None)),
    };
    let indexes = indexes_in(alloc, name, members)?;
    Ok(table_of(alloc, name, tracked, indexes)?)
}

/// The version of the format, and the members for the tables of a schema.
fn table_list(document: &Datum) -> Result<(Version, &Members), SchemaRule>
    ensures { result_map_both (λ p. (p.0, p.1.now)) (λ r. r) result
        ≡ table_list (doc_of document.now) }
{
    let Some(members) = object_in(document) else {
        return Err(SchemaRule::BadShape);
    };
    let Some((number, tables)) = schema_shape(members) else {
        return Err(SchemaRule::BadShape);
    };
    let Some(version) = version_numbered(number) else {
        return Err(SchemaRule::BadVersion);
    };
    if tables.len() == 0 {
        return Err(SchemaRule::NoTables);
    }
    if tables.len() > MOST_TABLES {
        return Err(SchemaRule::TooManyTables);
    }
    Ok((version, tables))
}

/// The tables, each whole before the next.
fn tables_in(
    alloc: Global,
    version: Version,
    members: &Members,
) -> Result<Vec<TableDef>, SchemaError>
    requires { EachRegular members.now }
    ensures { AnswersList (each (table_in version) members.now) result }
{
    let mut tables = Vec::new(alloc);
    for at in 0..members.len() {
        let Some((name, document)) = members.pair(at) else {
            unreachable!();
        };
        match table_in(alloc, version, name, document) {
            Ok(table) => tables.push(table)?,
            Err(error) => return Err(error),
        }
    }
    Ok(tables)
}

/// The schema that a document is.
fn schema_in(alloc: Global, document: &Datum) -> Result<Schema, SchemaError>
    requires { IsRegular (doc_of document.now) }
    ensures { AnswersSchema (schema_in (doc_of document.now)) result }
{
    let (version, members) = match table_list(document) {
        Ok(listed) => listed,
        Err(rule) => return Err(named(alloc, IndexerError::Broken(rule), None, None)),
    };
    let tables = tables_in(alloc, version, members)?;
    Ok(Schema::of(tables))
}

/// The schema that a file's bytes are, or the first rule that they break. It takes memory for the
/// document and the schema, and time in proportion to the bytes.
#[tactic(auto, using(crate::proofs::LawfulSchemas::answer_lawful))]
pub fn read_schema(alloc: Global, bytes: &[u8]) -> Result<Schema, SchemaError>
    ensures answer { AnswersSchema (schema_of (reading bytes.now)) result }
    ensures lawful { IfOk result (λ schema. IsLawfulSchema schema) }
{
    match read_doc(alloc, bytes) {
        Ok(document) => schema_in(alloc, &document),
        Err(DocError::Memory) => Err(SchemaError::Memory),
        Err(_) => Err(named(alloc, IndexerError::Broken(SchemaRule::Syntax), None, None)),
    }
}
