//! The rules that a row or arguments break. What only reads answers with one of these, since it
//! takes no memory.
ghost use Rattle.std.specs.Prelude.{◌≡◌};
ghost use Rattle.mdb_encode.specs.KeyAnswers.{key_error, arg_error};
ghost use Rattle.mdb_encode.specs.inner.Refusals.{key_refusal, arg_refusal};

use crate::{ArgError, KeyError};

/// The rule that a row breaks, as `KeyError` tells it.
#[derive(Clone, Copy)]
pub(crate) enum KeyRefusal {
    /// A member that isn't null has another form than the index reads.
    WrongKind,
    /// A number is outside its width.
    OutOfRange,
    /// A text is no hyphenated UUID.
    BadUuid,
    /// There are more than 256 keys.
    TooMany,
    /// A key has more than 1,024 bytes.
    TooLong,
}

impl From<KeyRefusal> for KeyError {
    ghost from_gives = { λ refusal error. error ≡ key_error (key_refusal refusal) };

    /// The error that tells the rule.
    fn from(refusal: KeyRefusal) -> Self {
        match refusal {
            KeyRefusal::WrongKind => KeyError::WrongKind,
            KeyRefusal::OutOfRange => KeyError::OutOfRange,
            KeyRefusal::BadUuid => KeyError::BadUuid,
            KeyRefusal::TooMany => KeyError::TooMany,
            KeyRefusal::TooLong => KeyError::TooLong,
        }
    }
}

/// The rule that arguments break, as `ArgError` tells it.
#[derive(Clone, Copy)]
pub(crate) enum ArgRefusal {
    /// The index takes another number of arguments.
    ArgCount,
    /// An argument has another form than the index reads. Null has none.
    ArgKind,
    /// A number is outside its width.
    OutOfRange,
    /// A text is no hyphenated UUID, or in the prefix form no start of one.
    BadUuid,
    /// The key has more than 1,024 bytes.
    TooLong,
    /// The index has no prefix form.
    NoPrefixForm,
}

impl From<ArgRefusal> for ArgError {
    ghost from_gives = { λ refusal error. error ≡ arg_error (arg_refusal refusal) };

    /// The error that tells the rule.
    fn from(refusal: ArgRefusal) -> Self {
        match refusal {
            ArgRefusal::ArgCount => ArgError::ArgCount,
            ArgRefusal::ArgKind => ArgError::ArgKind,
            ArgRefusal::OutOfRange => ArgError::OutOfRange,
            ArgRefusal::BadUuid => ArgError::BadUuid,
            ArgRefusal::TooLong => ArgError::TooLong,
            ArgRefusal::NoPrefixForm => ArgError::NoPrefixForm,
        }
    }
}
