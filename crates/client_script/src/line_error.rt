//! Why a line has no command.
ghost use Rattle.std.specs.Prelude.{◌≡◌};
ghost use Rattle.client_script.specs.inner.LineAnswer.{at_number};
ghost use Rattle.client_script.specs.declared.line_error.LineError.TheVariants as line_error;

use crate::line_rule::LineRule;
use crate::script_error::ScriptError;
use std::alloc::AllocError;

/// Why a line has no command, before its number is known.
#[derive(Clone, Copy)]
pub(crate) enum LineError {
    /// There was not enough memory.
    Memory,
    /// The rule that it breaks.
    Broken(LineRule),
}

impl From<AllocError> for LineError {
    ghost from_gives = { λ _ e. e ≡ line_error.Memory };

    /// Want of memory.
    fn from(_: AllocError) -> Self {
        LineError::Memory
    }
}

impl From<LineRule> for LineError {
    ghost from_gives = { λ r e. e ≡ line_error.Broken r };

    /// The error that tells the rule.
    fn from(rule: LineRule) -> Self {
        LineError::Broken(rule)
    }
}

impl LineError {
    /// The error of the line of this number.
    pub(crate) fn at(self, line: u32) -> ScriptError
        ensures { result ≡ at_number line self }
    {
        match self {
            LineError::Memory => ScriptError::Memory,
            LineError::Broken(LineRule::UnknownWord) => ScriptError::UnknownWord { line },
            LineError::Broken(LineRule::BadShape) => ScriptError::BadShape { line },
            LineError::Broken(LineRule::BadName) => ScriptError::BadName { line },
            LineError::Broken(LineRule::BadDoc) => ScriptError::BadDoc { line },
        }
    }
}
