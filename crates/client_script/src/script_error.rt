//! Why bytes are no script.
ghost use Rattle.std.specs.Prelude.{◌≡◌};
ghost use Rattle.client_script.specs.Refusal.{error_word, error_line};
ghost use Rattle.client_script.specs.declared.script_error.ScriptError.TheVariants as script_error;

use std::alloc::{AllocError, AllocFailed};

/// Why bytes are no script: the first rule that they break, and where it is a rule of a line, the
/// number of that line, counted from 1.
#[derive(Clone, Copy, Debug, PartialEq, Eq)]
pub enum ScriptError {
    /// There was not enough memory.
    Memory,
    /// The bytes aren't UTF-8.
    NotText,
    /// There are more than 100,000 lines.
    TooManyLines,
    /// The first word of a line, or the word of its question, is none of the commands.
    UnknownWord { line: u32 },
    /// A line has too few or too many words, another word than `until`, or a limit of another form.
    BadShape { line: u32 },
    /// A name has another form.
    BadName { line: u32 },
    /// A document or a list can't be read, or has another form.
    BadDoc { line: u32 },
}

impl From<AllocError> for ScriptError {
    ghost from_gives = { λ _ e. e ≡ script_error.Memory };

    /// Want of memory.
    fn from(_: AllocError) -> Self {
        ScriptError::Memory
    }
}

impl<T: Drop> From<AllocFailed<T>> for ScriptError {
    ghost from_gives = { λ _ e. e ≡ script_error.Memory };

    /// Want of memory.
    fn from(_: AllocFailed<T>) -> Self {
        ScriptError::Memory
    }
}

impl ScriptError {
    /// The name of the rule as it is printed: lower case, its words joined by dashes. That of want
    /// of memory is `memory`.
    pub fn word(&self) -> &'static str
        ensures { result.now ≡ error_word self.now }
    {
        match self {
            ScriptError::Memory => "memory",
            ScriptError::NotText => "not-text",
            ScriptError::TooManyLines => "too-many-lines",
            ScriptError::UnknownWord { .. } => "unknown-word",
            ScriptError::BadShape { .. } => "bad-shape",
            ScriptError::BadName { .. } => "bad-name",
            ScriptError::BadDoc { .. } => "bad-doc",
        }
    }

    /// The number of the line that breaks the rule, where it is a rule of a line.
    pub fn line(&self) -> Option<u32>
        ensures { result ≡ error_line self.now }
    {
        match self {
            ScriptError::UnknownWord { line }
            | ScriptError::BadShape { line }
            | ScriptError::BadName { line }
            | ScriptError::BadDoc { line } => Some(*line),
            _ => None,
        }
    }
}
