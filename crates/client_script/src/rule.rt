//! The rules that a line of a session may break, and their names as they are printed.
ghost use Rattle.std.specs.Prelude.{◌≡◌, ◌++◌, OnOk, codes, length, option_map, take};
ghost use Rattle.mdb_schema.specs.Schema.{DbSchema};
ghost use Rattle.client_script.specs.RuleName.{IsOwnRule, index_at, index_part_at};
ghost use Rattle.client_script.specs.RuleName.{question_name, question_rule, rule_name};
ghost use Rattle.client_script.specs.RuleName.{write_name, write_place};

use mdb_datum::Text;
use mdb_schema::{AskError, Schema, WriteError};
use std::alloc::AllocError;

/// Why a line is refused.
#[derive(Clone, Copy, Debug, PartialEq, Eq)]
pub enum Rule {
    /// A transaction is open already.
    TransactionOpen,
    /// There are as many commits as can be counted.
    CommitsSpent,
    /// There are too few ids of watch cells for the rows that a line writes.
    IdsSpent,
    /// No transaction is open.
    NoTransaction,
    /// The open transaction is a write transaction.
    WriteOpen,
    /// The open transaction is a read transaction.
    ReadOnly,
    /// A snapshot, or a watch, has this name.
    NameTaken,
    /// No snapshot, watch or set has this name.
    UnknownName,
    /// What is asked for a watch isn't committed.
    Uncommitted,
    /// No table has this name.
    UnknownTable,
    /// The question, or that of a wipe, breaks a rule.
    Question(AskError),
    /// The row breaks a rule of the table at this place in the schema.
    Row { table: usize, error: WriteError },
}

impl Rule {
    /// The rule of a question, if it isn't for want of memory.
    pub fn of_question(error: AskError) -> Option<Rule>
        ensures { result ≡ question_rule error }
    {
        match error {
            AskError::Memory => None,
            error => Some(Rule::Question(error)),
        }
    }

    /// Adds `refused`, the rule's name, and that of the index where the rule has one.
    pub fn write(self, schema: &Schema, out: &mut Vec<u8>) -> Result<(), AllocError>
        ensures text { OnOk result (out.new.items
            ≡ out.old.items ++ (codes "refused " ++ rule_name schema.now self)) }
        ensures before { take (length out.old.items) out.new.items ≡ out.old.items }
    {
        out.extend_from_slice(b"refused ")?;
        self.write_name(schema, out)
    }

    /// Adds the rule's name, and that of the index where the rule has one.
    fn write_name(self, schema: &Schema, out: &mut Vec<u8>) -> Result<(), AllocError>
        ensures text { OnOk result (out.new.items ≡ out.old.items ++ rule_name schema.now self) }
        ensures before { take (length out.old.items) out.new.items ≡ out.old.items }
    {
        match self {
            Rule::Question(error) => out.extend_from_slice(question_name(error)),
            Rule::Row { table, error } => write_row_rule(schema, table, error, out),
            rule => out.extend_from_slice(rule.word()),
        }
    }

    /// The name of a rule that is no question's and no row's.
    fn word(self) -> &'static [u8]
        requires { IsOwnRule self }
        ensures { (schema : DbSchema) → result.now ≡ rule_name schema self }
    {
        match self {
            Rule::TransactionOpen => b"transaction-open",
            Rule::CommitsSpent => b"commits-spent",
            Rule::IdsSpent => b"ids-spent",
            Rule::NoTransaction => b"no-transaction",
            Rule::WriteOpen => b"write-open",
            Rule::ReadOnly => b"read-only",
            Rule::NameTaken => b"name-taken",
            Rule::UnknownName => b"unknown-name",
            Rule::Uncommitted => b"uncommitted",
            Rule::UnknownTable => b"unknown-table",
            _ => unreachable!(),
        }
    }
}

/// The name of a question's rule.
pub fn question_name(error: AskError) -> &'static [u8]
    ensures { result.now ≡ question_name error }
{
    match error {
        AskError::Memory => b"memory",
        AskError::UnknownTable => b"unknown-table",
        AskError::Unwatchable => b"unwatchable",
        AskError::NoPrefixName => b"no-prefix-name",
        AskError::UnknownIndex => b"unknown-index",
        AskError::NotUnique => b"not-unique",
        AskError::NoPrefixForm => b"no-prefix-form",
        AskError::ArgCount => b"arg-count",
        AskError::ArgKind => b"arg-kind",
        AskError::OutOfRange => b"out-of-range",
        AskError::BadUuid => b"bad-uuid",
        AskError::TooLong => b"too-long",
    }
}

/// The name of a write's rule.
fn write_name(error: WriteError) -> &'static [u8]
    ensures { result.now ≡ write_name error }
{
    match error {
        WriteError::Memory => b"memory",
        WriteError::NoId => b"no-id",
        WriteError::WrongKind { .. } => b"wrong-kind",
        WriteError::OutOfRange { .. } => b"out-of-range",
        WriteError::BadUuid { .. } => b"bad-uuid",
        WriteError::TooMany { .. } => b"too-many",
        WriteError::TooLong { .. } => b"too-long",
        WriteError::Missing { .. } => b"missing",
        WriteError::KeyTaken { .. } => b"key-taken",
        WriteError::NotFound => b"not-found",
        WriteError::IdsSpent => b"ids-spent",
    }
}

/// The place of the index whose rule it is.
fn write_place(error: WriteError) -> Option<u32>
    ensures { result ≡ write_place error }
{
    match error {
        WriteError::WrongKind { index }
        | WriteError::OutOfRange { index }
        | WriteError::BadUuid { index }
        | WriteError::TooMany { index }
        | WriteError::TooLong { index }
        | WriteError::Missing { index }
        | WriteError::KeyTaken { index } => Some(index),
        WriteError::Memory | WriteError::NoId | WriteError::NotFound | WriteError::IdsSpent => None,
    }
}

/// The name of an index of a table, both by their places.
fn index_name(schema: &Schema, table: usize, index: u32) -> Option<&Text>
    ensures { option_map (λ t. t.now) result ≡ index_at schema.now table index }
{
    let def = schema.table(table)?.index(index as usize)?;
    Some(def.name())
}

/// Adds the name of a write's rule, and that of its index after a blank.
fn write_row_rule(
    schema: &Schema,
    table: usize,
    error: WriteError,
    out: &mut Vec<u8>,
) -> Result<(), AllocError>
    ensures text { OnOk result (out.new.items ≡ out.old.items
        ++ (write_name error ++ index_part_at schema.now table (write_place error))) }
    ensures before { take (length out.old.items) out.new.items ≡ out.old.items }
{
    out.extend_from_slice(write_name(error))?;
    let Some(index) = write_place(error) else {
        return Ok(());
    };
    let Some(name) = index_name(schema, table, index) else {
        return Ok(());
    };
    out.push(b' ')?;
    out.extend_from_slice(name.as_str().as_bytes())?;
    Ok(())
}
