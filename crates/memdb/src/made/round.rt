//! The text of a client's rounds.
ghost use Rattle.std.specs.Prelude.{◌≡◌, ◌<◌, ◌++◌, ◌∷◌, [], OnOk, decimal};
ghost use Rattle.memdb.specs.Made.{drawn, item_of, items_behind};
ghost use Rattle.memdb.specs.inner.MadeText.{lines_text, insert_text, first_text, round_text};
ghost use Rattle.memdb.specs.inner.MadeText.{rounds_text};

use crate::made::drawing::Drawing;
use crate::output;
use std::alloc::AllocError;

/// Adds a number in decimal.
fn write_number(number: u32, out: &mut Vec<u8>) -> Result<(), AllocError>
    ensures { OnOk result (out.new.items ≡ out.old.items ++ decimal number) }
{
    output::write_number(u64::from(number), out)
}

/// Adds the name of the row that a client writes where `value` is drawn.
fn write_name(client: u32, value: u32, out: &mut Vec<u8>) -> Result<(), AllocError>
    ensures { OnOk result (out.new.items ≡ out.old.items ++ (item_of client value).name) }
{
    out.extend_from_slice(b"k")?;
    write_number(client, out)?;
    out.extend_from_slice(b"-")?;
    write_number(value % 100, out)
}

/// Adds the line that writes this row.
fn write_insert(client: u32, value: u32, out: &mut Vec<u8>) -> Result<(), AllocError>
    ensures { OnOk result
        (out.new.items ≡ out.old.items ++ (insert_text (item_of client value) ++ 10 ∷ [])) }
{
    out.extend_from_slice(b"insert items {\"age\":")?;
    write_number(value % 65_536, out)?;
    out.extend_from_slice(b",\"name\":\"")?;
    write_name(client, value, out)?;
    out.extend_from_slice(b"\"}\n")
}

/// Adds the line that asks for this row.
fn write_first(client: u32, value: u32, out: &mut Vec<u8>) -> Result<(), AllocError>
    ensures { OnOk result
        (out.new.items ≡ out.old.items ++ (first_text (item_of client value) ++ 10 ∷ [])) }
{
    out.extend_from_slice(b"first items id [\"")?;
    write_name(client, value, out)?;
    out.extend_from_slice(b"\"]\n")
}

/// Adds the lines of the round in which a client writes this row.
fn write_round(client: u32, value: u32, out: &mut Vec<u8>) -> Result<(), AllocError>
    ensures { OnOk result
        (out.new.items ≡ out.old.items ++ lines_text (round_text (item_of client value))) }
{
    out.extend_from_slice(b"write\n")?;
    write_insert(client, value, out)?;
    out.extend_from_slice(b"commit\nread\n")?;
    write_first(client, value, out)?;
    out.extend_from_slice(b"end\n")
}

/// Adds so many rounds of a client, and draws a number for each.
pub(crate) fn write_rounds(
    client: u32,
    rounds: u32,
    drawing: &mut Drawing,
    out: &mut Vec<u8>,
) -> Result<(), AllocError>
    ensures text { OnOk result (out.new.items
        ≡ out.old.items ++ lines_text (rounds_text (items_behind drawing.old client 0 rounds))) }
    ensures last { OnOk result (drawing.new ≡ drawn drawing.old rounds) }
{
    for _ in 0..rounds {
        write_round(client, drawing.next(), out)?;
    }
    Ok(())
}
