//! The rules behind the errors of a write transaction.
ghost use Rattle.std.specs.Prelude.{◌≡◌, IsErr, MatchOption, Ok};
ghost use Rattle.client_session.specs.declared.reply.Reply.TheVariants as replies;
ghost use Rattle.client_session.specs.inner.Refusal.{txn_question_rule, wipe_rule, write_rule};

use crate::reply::Reply;
use client_script::Rule;
use mdb_datum::Text;
use mdb_schema::{Schema, WriteError};
use mem_txn::{TxnAskError, TxnWipeError, TxnWriteError};
use std::alloc::AllocError;
use table_index::WipeError;

/// The reply to a line that breaks a rule; without a rule there was not enough memory.
pub(crate) fn refused(rule: Option<Rule>) -> Result<Reply, AllocError>
    ensures { MatchOption rule (IsErr result) (λ rule. result ≡ Ok (replies.Refused rule)) }
{
    match rule {
        Some(rule) => Ok(Reply::Refused(rule)),
        None => Err(AllocError),
    }
}

/// The rule of a question of a transaction.
pub(crate) fn txn_question_rule(error: TxnAskError) -> Option<Rule>
    ensures { result ≡ txn_question_rule error }
{
    match error {
        TxnAskError::Spoiled => None,
        TxnAskError::Refused(error) => Rule::of_question(error),
    }
}

/// The rule of a write to the table of a name.
pub(crate) fn write_rule(schema: &Schema, table: &Text, error: TxnWriteError) -> Option<Rule>
    ensures { result ≡ write_rule schema.now table.now error }
{
    match error {
        TxnWriteError::Spoiled | TxnWriteError::Refused(WriteError::Memory) => None,
        TxnWriteError::UnknownTable => Some(Rule::UnknownTable),
        TxnWriteError::Refused(error) => match schema.find(table.as_str()) {
            Some(table) => Some(Rule::Row { table, error }),
            None => Some(Rule::UnknownTable),
        },
    }
}

/// The rule of a wipe.
pub(crate) fn wipe_rule(error: TxnWipeError) -> Option<Rule>
    ensures { result ≡ wipe_rule error }
{
    match error {
        TxnWipeError::Spoiled => None,
        TxnWipeError::UnknownTable => Some(Rule::UnknownTable),
        TxnWipeError::Refused(WipeError::Memory) => None,
        TxnWipeError::Refused(WipeError::IdsSpent) => Some(Rule::IdsSpent),
        TxnWipeError::Refused(WipeError::Refused(error)) => Rule::of_question(error),
    }
}
