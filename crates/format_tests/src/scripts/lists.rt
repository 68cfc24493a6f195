//! A script's lines by their places, and lists of scripts.
use super::told::script_of;
use crate::tables::{Told, holds};
use client_script::{Script, Scripts};
use std::alloc::{AllocError, Global};
use std::test::Fail;

/// The number of the line at a place.
fn number_at(script: &Script, at: usize) -> Option<u32> {
    Some(script.get(at)?.number)
}

/// Whether the lines of a script stand at their places.
fn stand_in_order(alloc: Global) -> Told {
    let script = script_of(alloc, b"\nread\n# x\nend\n")?;
    Ok(
        script.len() == 2
            && number_at(&script, 0) == Some(2)
            && number_at(&script, 1) == Some(4)
            && number_at(&script, 2).is_none(),
    )
}

#[test]
fn a_line_is_found_at_its_place(rt: HostRuntime) -> Result<(), Fail> {
    holds(stand_in_order(rt.alloc()))
}

/// Scripts of one, two and no commands.
static FILES: [&[u8]; 3] = [b"read", b"read\nend", b""];

/// Adds the script of a file at the end.
fn add(alloc: Global, scripts: &mut Scripts, file: &[u8]) -> Result<(), AllocError> {
    scripts.push(script_of(alloc, file)?)
}

/// Those scripts.
fn three_scripts(alloc: Global) -> Result<Scripts, AllocError> {
    let mut scripts = Scripts::new(alloc);
    for file in &FILES {
        add(alloc, &mut scripts, file)?;
    }
    Ok(scripts)
}

/// How many commands the first script has, which is taken out.
fn taken(scripts: &mut Scripts) -> Option<usize> {
    Some(scripts.take()?.len())
}

/// How many commands the script at a place has.
fn len_at(scripts: &Scripts, at: usize) -> Option<usize> {
    Some(scripts.get(at)?.len())
}

/// Whether the scripts leave in the order in which they came.
fn leave_in_order(scripts: &mut Scripts) -> bool {
    taken(scripts) == Some(1)
        && scripts.len() == 2
        && len_at(scripts, 0) == Some(2)
        && taken(scripts) == Some(2)
        && taken(scripts) == Some(0)
        && taken(scripts).is_none()
}

/// Whether those three do.
fn do_leave_in_order(alloc: Global) -> Told {
    let mut scripts = three_scripts(alloc)?;
    Ok(leave_in_order(&mut scripts))
}

#[test]
fn the_first_script_is_taken_out(rt: HostRuntime) -> Result<(), Fail> {
    holds(do_leave_in_order(rt.alloc()))
}
