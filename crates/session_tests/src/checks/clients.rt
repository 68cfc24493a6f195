//! The names and the scripts of clients, as a check asks for them.
ghost use Rattle.std.specs.Prelude.{All, Decides, IfOk, OnOk};
ghost use Rattle.run_check.specs.Checked.{HasNoFeed, IsRead};

use crate::worked::{File, joined};
use client_script::{Scripts, read_script};
use mdb_datum::Text;
use run_io::Texts;
use std::alloc::{AllocError, Global};

/// Whether a name has no line feed.
fn is_plain(name: &Text) -> bool
    ensures { Decides result (HasNoFeed name.now) }
{
    name.as_str().as_bytes().iter().all(|byte| *byte != b'\n')
}

/// Adds a name. One with a line feed counts as want of memory, which ends a test.
fn add_word(words: &mut Texts, name: Text) -> Result<(), AllocError>
    ensures { OnOk result (All HasNoFeed words.old → All HasNoFeed words.new) }
{
    if !is_plain(&name) {
        return Err(AllocError);
    }
    words.push(name)
}

/// The words of clients.
pub(super) fn words_of(alloc: Global, clients: &[File]) -> Result<Texts, AllocError>
    ensures { IfOk result (λ words. All HasNoFeed words) }
{
    let mut words = Texts::new(alloc);
    for at in 0..clients.len() {
        add_word(&mut words, Text::of(alloc, clients[at].0)?)?;
    }
    Ok(words)
}

/// Adds the script that a text reads as. One that can't be read counts as want of memory.
fn add_script(alloc: Global, scripts: &mut Scripts, text: &str) -> Result<(), AllocError>
    ensures { OnOk result (All IsRead scripts.old → All IsRead scripts.new) }
{
    match read_script(alloc, text.as_bytes()) {
        Ok(script) => scripts.push(script),
        Err(_) => Err(AllocError),
    }
}

/// The scripts of clients.
pub(super) fn scripts_of(alloc: Global, clients: &[File]) -> Result<Scripts, AllocError>
    ensures { IfOk result (λ scripts. All IsRead scripts) }
{
    let mut scripts = Scripts::new(alloc);
    for at in 0..clients.len() {
        add_script(alloc, &mut scripts, &joined(alloc, clients[at].1)?)?;
    }
    Ok(scripts)
}
