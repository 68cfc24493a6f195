//! The scripts of made inputs.
ghost use Rattle.std.specs.Prelude.{◌≡◌, ◌≤◌, IfOk, OnOk};
ghost use Rattle.memdb.specs.Made.{AreInRange, drawn, items_behind};
ghost use Rattle.memdb.specs.inner.MadeInputs.{made_scripts, rounds_behind};

use crate::made::drawing::Drawing;
use crate::made::round::write_rounds;
use client_script::{Script, ScriptError, Scripts, read_script};
use std::alloc::{AllocError, Global};

/// The script that the text of a client is read as. Its only error is want of memory.
fn made_script(
    alloc: Global,
    client: u32,
    count: u32,
    drawing: &mut Drawing,
) -> Result<Script, AllocError>
    requires few_rounds { count ≤ 1000 }
    ensures script { IfOk result
        (λ s. s ≡ rounds_behind 0 (items_behind drawing.old client 0 count)) }
    ensures last { OnOk result (drawing.new ≡ drawn drawing.old count) }
{
    let mut text = Vec::new(alloc);
    write_rounds(client, count, drawing, &mut text)?;
    match read_script(alloc, &text) {
        Ok(script) => Ok(script),
        Err(error) => Err(want_of_memory(error)),
    }
}

/// Want of memory, where an error is nothing else.
fn want_of_memory(error: ScriptError) -> AllocError
    requires { error ≡ ScriptError.Memory }
{
    match error {
        ScriptError::Memory => AllocError,
        _ => unreachable!(),
    }
}

/// The scripts of all clients, the first one's first.
pub(crate) fn made_scripts(
    alloc: Global,
    number: u32,
    clients: u32,
    count: u32,
) -> Result<Scripts, AllocError>
    requires { AreInRange (record { number = number; clients = clients; count = count }) }
    ensures { IfOk result
        (λ s. s ≡ made_scripts (record { number = number; clients = clients; count = count })) }
{
    let mut drawing = Drawing::new(number);
    let mut scripts = Scripts::new(alloc);
    for before in 0..clients {
        let script = made_script(alloc, before + 1, count, &mut drawing)?;
        scripts.push(script)?;
    }
    Ok(scripts)
}
