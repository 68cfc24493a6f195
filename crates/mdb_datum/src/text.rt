//! Texts.
ghost use Rattle.std.specs.Prelude.{◌≡◌, IfOk, string_bytes};

use std::alloc::{AllocError, Global};
use std::marker::Model;

/// A text of its own, seen as its UTF-8 bytes.
#[derive(Drop)]
pub struct Text {
    text: String,
}

impl Model for Text {
    ghost use Rattle.std.specs.Prelude.{List, ℕ};
    ghost use Rattle.std.specs.String.{string_bytes};

    ghost Value = { List ℕ };

    ghost view = { λ t. string_bytes t.text };
}

impl Text {
    /// A copy of `s`.
    pub fn of(alloc: Global, s: &str) -> Result<Text, AllocError>
        ensures { IfOk result (λ t. t ≡ s.now) }
    {
        Ok(Text {
            text: String::from_str(alloc, s)?,
        })
    }

    /// A text that takes over `text`, with no copy.
    pub(crate) fn from_string(text: String) -> Text
        ensures { result ≡ string_bytes text }
    {
        Text { text }
    }

    /// The text itself.
    pub fn as_str(&self) -> &str
        ensures { result.now ≡ self.now }
    {
        self.text.as_str()
    }
}
