//! Names that a schema may declare, and the words that other formats name things by.
ghost use Rattle.std.specs.Prelude.{◌≡◌};
ghost use Rattle.std.specs.List.{list_all};
ghost use Rattle.mdb_schema.specs.Names.{is_name_byte, is_word, is_declared_name};

/// Whether a byte may stand in a name: a letter, a digit, `_` or `-`.
pub fn is_name_byte(byte: u8) -> bool
    ensures { result ≡ is_name_byte byte }
{
    matches!(byte, b'a'..=b'z' | b'A'..=b'Z' | b'0'..=b'9' | b'_' | b'-')
}

/// Whether each byte may stand in a name.
fn all_name_bytes(bytes: &[u8]) -> bool
    ensures { result ≡ list_all is_name_byte bytes.now }
{
    bytes.iter().all(|byte| is_name_byte(*byte))
}

/// Whether bytes are a word that may name something: 1 to 64 letters, digits, `_` and `-`. A name
/// that a schema declares is such a word, and doesn't end in `_prefix`.
pub fn is_word(bytes: &[u8]) -> bool
    ensures { result ≡ is_word bytes.now }
{
    if bytes.is_empty() || bytes.len() > 64 {
        return false;
    }
    all_name_bytes(bytes)
}

/// Whether a name may be declared: a word that doesn't end in `_prefix`.
pub(crate) fn is_declared_name(name: &str) -> bool
    ensures { result ≡ is_declared_name name.now }
{
    let bytes = name.as_bytes();
    is_word(bytes) && !bytes.ends_with(b"_prefix")
}
