//! The words that commands begin with.
ghost use Rattle.std.specs.Prelude.{◌≡◌, option_map};
ghost use Rattle.client_script.specs.CommandWord.{ask_named, command_named};
ghost use Rattle.client_script.specs.inner.LaterWord.{later_named, row_named};
ghost use Rattle.client_script.specs.declared.command_word.CommandWord.TheVariants as command_word;

use mdb_schema::Ask;

/// The first word of a command.
#[derive(Clone, Copy)]
pub(crate) enum CommandWord {
    /// `read`.
    Read,
    /// `write`.
    Write,
    /// `end`.
    End,
    /// `commit`.
    Commit,
    /// `abort`.
    Abort,
    /// `insert`.
    Insert,
    /// `delete`.
    Delete,
    /// `delete-all`.
    DeleteAll,
    /// `delete-prefix`.
    DeletePrefix,
    /// `defer`.
    Defer,
    /// The word of a question.
    Question(Ask),
    /// `snapshot`.
    Snapshot,
    /// `in`.
    In,
    /// `watch`.
    Watch,
    /// `check`.
    Check,
    /// `add`.
    Add,
    /// `add-limit`.
    AddLimit,
    /// `size`.
    Size,
    /// `wait`.
    Wait,
}

/// The question of this word.
pub(crate) fn ask_named(word: &str) -> Option<Ask>
    ensures { result ≡ ask_named word.now }
{
    match word {
        "first" => Some(Ask::First),
        "last" => Some(Ask::Last),
        "get" => Some(Ask::Get),
        "get-reverse" => Some(Ask::GetReverse),
        "lower" => Some(Ask::Lower),
        "reverse-lower" => Some(Ask::ReverseLower),
        "longest" => Some(Ask::Longest),
        _ => None,
    }
}

/// The question of this word, as the first word of a command.
fn question_named(word: &str) -> Option<CommandWord>
    ensures { result ≡ option_map command_word.Question (ask_named word.now) }
{
    Some(CommandWord::Question(ask_named(word)?))
}

/// The command of this word, which is of snapshots, watches or sets, or of a question.
fn later_named(word: &str) -> Option<CommandWord>
    ensures { result ≡ later_named word.now }
{
    match word {
        "snapshot" => Some(CommandWord::Snapshot),
        "in" => Some(CommandWord::In),
        "watch" => Some(CommandWord::Watch),
        "check" => Some(CommandWord::Check),
        "add" => Some(CommandWord::Add),
        "add-limit" => Some(CommandWord::AddLimit),
        "size" => Some(CommandWord::Size),
        "wait" => Some(CommandWord::Wait),
        _ => question_named(word),
    }
}

/// The command of this word, which is of rows or deferred texts, or comes later.
fn row_named(word: &str) -> Option<CommandWord>
    ensures { result ≡ row_named word.now }
{
    match word {
        "insert" => Some(CommandWord::Insert),
        "delete" => Some(CommandWord::Delete),
        "delete-all" => Some(CommandWord::DeleteAll),
        "delete-prefix" => Some(CommandWord::DeletePrefix),
        "defer" => Some(CommandWord::Defer),
        _ => later_named(word),
    }
}

/// The command of this word.
pub(crate) fn command_named(word: &str) -> Option<CommandWord>
    ensures { result ≡ command_named word.now }
{
    match word {
        "read" => Some(CommandWord::Read),
        "write" => Some(CommandWord::Write),
        "end" => Some(CommandWord::End),
        "commit" => Some(CommandWord::Commit),
        "abort" => Some(CommandWord::Abort),
        _ => row_named(word),
    }
}
