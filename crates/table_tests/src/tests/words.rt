//! Refusals and questions in the words of client files.
use mdb_schema::{Ask, AskError, WriteError};
use table_index::WipeError;

/// The question of a word. A wipe takes the rows that its question lists, whatever is asked.
pub fn ask_of(word: &str) -> Ask {
    match word {
        "first" => Ask::First,
        "last" => Ask::Last,
        "get" => Ask::Get,
        "get-reverse" => Ask::GetReverse,
        "lower" => Ask::Lower,
        "reverse-lower" => Ask::ReverseLower,
        "longest" | "check-all" | "check-prefix" => Ask::Longest,
        "delete-all" | "delete-prefix" => Ask::Get,
        _ => Ask::First,
    }
}

/// The word of a refused question.
pub fn ask_word(error: AskError) -> &'static str {
    match error {
        AskError::Memory => "memory",
        AskError::UnknownTable => "unknown-table",
        AskError::Unwatchable => "unwatchable",
        AskError::NoPrefixName => "no-prefix-name",
        AskError::UnknownIndex => "unknown-index",
        AskError::NotUnique => "not-unique",
        AskError::NoPrefixForm => "no-prefix-form",
        AskError::ArgCount => "arg-count",
        AskError::ArgKind => "arg-kind",
        AskError::OutOfRange => "out-of-range",
        AskError::BadUuid => "bad-uuid",
        AskError::TooLong => "too-long",
    }
}

/// The word of a refused wipe.
pub fn wipe_word(error: WipeError) -> &'static str {
    match error {
        WipeError::Memory => "memory",
        WipeError::IdsSpent => "ids-spent",
        WipeError::Refused(error) => ask_word(error),
    }
}

/// The word of a refused write.
pub fn write_word(error: WriteError) -> &'static str {
    match error {
        WriteError::Memory => "memory",
        WriteError::NoId => "no-id",
        WriteError::WrongKind { .. } => "wrong-kind",
        WriteError::OutOfRange { .. } => "out-of-range",
        WriteError::BadUuid { .. } => "bad-uuid",
        WriteError::TooMany { .. } => "too-many",
        WriteError::TooLong { .. } => "too-long",
        WriteError::Missing { .. } => "missing",
        WriteError::KeyTaken { .. } => "key-taken",
        WriteError::NotFound => "not-found",
        WriteError::IdsSpent => "ids-spent",
    }
}

/// The place of the index that a refused write tells.
pub fn told_index(error: WriteError) -> Option<u32> {
    match error {
        WriteError::WrongKind { index } => Some(index),
        WriteError::OutOfRange { index } => Some(index),
        WriteError::BadUuid { index } => Some(index),
        WriteError::TooMany { index } => Some(index),
        WriteError::TooLong { index } => Some(index),
        WriteError::Missing { index } => Some(index),
        WriteError::KeyTaken { index } => Some(index),
        _ => None,
    }
}
