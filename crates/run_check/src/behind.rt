//! What bytes begin with.
ghost use Rattle.std.specs.Prelude.{◌≡◌, ◌++◌, option_map};
ghost use Rattle.std.specs.Str.{bytes_eq};
ghost use Rattle.run_check.specs.Forms.{alone, fits};
ghost use Rattle.run_check.specs.TextLines.{behind};

/// What follows a word, where the bytes begin with that.
pub(crate) fn behind<'a>(word: &[u8], bytes: &'a [u8]) -> Option<&'a [u8]>
    ensures { option_map (λ rest. rest.now) result ≡ behind word.now bytes.now }
{
    bytes.strip_prefix(word)
}

/// Whether the bytes are a word alone.
pub(crate) fn is_alone(word: &[u8], bytes: &[u8]) -> bool
    ensures { result ≡ fits (alone word.now) bytes.now }
{
    bytes == word
}

/// Whether the bytes are a word and these behind it.
pub(crate) fn is_two_words(word: &[u8], rest: &[u8], bytes: &[u8]) -> bool
    ensures { result ≡ bytes_eq bytes.now (word.now ++ rest.now) }
{
    match behind(word, bytes) {
        Some(found) => found == rest,
        None => false,
    }
}
