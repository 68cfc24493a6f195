//! The lines of a text, cut one after the other.
ghost use Rattle.std.specs.Prelude.{◌≡◌, ◌<◌, ◌+◌, ◌^◌, ◌++◌, ◌∷◌, IfOk, length, nat_eq};
ghost use Rattle.std.specs.Prelude.{take, drop};
ghost use Rattle.std.specs.List.{prefix_len};
ghost use Rattle.std.specs.Result.{result_map_both};
ghost use Rattle.run_check.specs.Shape.{take_line};
ghost use Rattle.run_check.specs.Views.{bad_line, is_text, line_of, place_of};

use crate::bad::BadLine;
use crate::place::Place;

/// A line without its line feed, and the place behind it.
pub(crate) type Cut<'a> = (&'a [u8], Place<'a>);

/// Whether a byte stands in a line.
fn is_text(byte: u8) -> bool
    ensures { result ≡ is_text byte }
{
    byte != b'\n'
}

/// How many bytes stand before the first line feed.
fn line_len(bytes: &[u8]) -> usize
    ensures { result ≡ prefix_len is_text bytes.now }
{
    bytes.iter().take_while(|byte| is_text(**byte)).count()
}

/// The place before the first line.
pub(crate) fn start(text: &[u8]) -> Place<'_>
    requires { length text.now < 2 ^ 31 }
    ensures next { result.next ≡ 1 }
    ensures rest { result.rest.now ≡ text.now }
{
    Place {
        next: 1,
        rest: text,
    }
}

impl<'a> Place<'a> {
    /// That the next line is bad.
    pub(crate) fn bad(self) -> BadLine
        ensures { result.line ≡ self.entry.next }
    {
        BadLine { line: self.next }
    }

    /// Whether nothing is left.
    pub(crate) fn is_end(self) -> bool
        ensures { result ≡ nat_eq (length self.entry.rest.now) 0 }
    {
        self.rest.is_empty()
    }

    /// The next line without its line feed, and the place behind it. A line that is missing, or that
    /// no line feed ends, is bad.
    pub(crate) fn line(self) -> Result<Cut<'a>, BadLine>
        ensures taken { result_map_both line_of bad_line result ≡ take_line (place_of self.entry) }
        ensures cut { IfOk result (λ p. self.entry.rest.now ≡ p.0.now ++ 10 ∷ p.1.rest.now) }
    {
        let len = line_len(self.rest);
        if len < self.rest.len() {
            Ok(self.cut(len))
        } else {
            Err(self.bad())
        }
    }

    /// So many bytes, which a line feed follows, and the place behind it.
    fn cut(self, len: usize) -> Cut<'a>
        requires { len < length self.rest.now }
        ensures line { result.0.now ≡ take len self.entry.rest.now }
        ensures next { result.1.next ≡ self.entry.next + 1 }
        ensures rest { result.1.rest.now ≡ drop (len + 1) self.entry.rest.now }
    {
        let (line, rest) = self.rest.split_at(len);
        let behind = Place {
            next: self.next + 1,
            rest: &rest[1..],
        };
        (line, behind)
    }
}
