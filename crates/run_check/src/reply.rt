//! The texts of replies.
ghost use Rattle.std.specs.Prelude.{◌≡◌, ◌++◌, OnOk, codes, decimal, map, reverse};
ghost use Rattle.client_script.specs.Reply.{did_lines, further};

use mdb_datum::Text;
use run_io::write_number;
use std::alloc::AllocError;

/// Adds a word and a number.
pub(crate) fn write_numbered(word: &[u8], number: u64, out: &mut Vec<u8>) -> Result<(), AllocError>
    ensures { OnOk result (out.new.items ≡ out.old.items ++ (word.now ++ decimal number)) }
{
    out.extend_from_slice(word)?;
    write_number(number, out)
}

/// Adds a line for each of these deferred texts, the last first.
pub(crate) fn write_deferred(texts: &[&Text], out: &mut Vec<u8>) -> Result<(), AllocError>
    ensures { OnOk result (out.new.items ≡ out.old.items
        ++ did_lines (reverse (map (λ text. text.now) texts.now))) }
{
    let mut left = texts.len();
    while left > 0 {
        left -= 1;
        write_did(texts[left], out)?;
    }
    Ok(())
}

/// Adds a line for a deferred text.
fn write_did(text: &Text, out: &mut Vec<u8>) -> Result<(), AllocError>
    ensures { OnOk result (out.new.items ≡ out.old.items ++ further (codes "did " ++ text.now)) }
{
    out.extend_from_slice(b"\n  did ")?;
    out.extend_from_slice(text.as_str().as_bytes())
}
