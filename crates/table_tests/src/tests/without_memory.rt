//! Each allocation may fail: a write that finds no memory spoils its change, and the table that the
//! change began with answers as before.
use super::drawn::{Random, SCHEMA};
use super::played::Play;
use super::told::NO_MEMORY;
use super::{Told, Wrong, none_wrong};
use std::alloc::Global;
use std::test::Fail;

/// What is told where a write was refused, and left what it should.
const REFUSED: &str = "a write was refused, and all is kept";

/// What is told where it didn't.
const LOST: &str = "a write left something else";

/// Makes a drawn write, and tells whether it finds no memory just where it spoils the change.
fn spoils_so(alloc: Global, random: &mut Random, play: &mut Play) -> Told {
    let command = random.write(alloc, &["take-all", "take-prefix"])?;
    let told = play.answer(&command)?;
    Ok((told.as_str() == NO_MEMORY) == play.spoiled())
}

/// Makes drawn writes until one finds no memory, and tells whether that one alone spoils the
/// change.
fn one_spoils(alloc: Global, random: &mut Random, play: &mut Play) -> Told {
    for _ in 0..40 {
        if !spoils_so(alloc, random, play)? {
            return Ok(false);
        }
        if play.spoiled() {
            return Ok(true);
        }
    }
    Ok(true)
}

/// What is told of a change, and of whether all is kept that should be.
fn told_of(kept: bool, spoiled: bool) -> Option<&'static str> {
    match (kept, spoiled) {
        (true, false) => None,
        (true, true) => Some(REFUSED),
        _ => Some(LOST),
    }
}

/// What is told of the change, and of whether each index of the table lists the same rows as before
/// it.
fn told_of_change(alloc: Global, random: &mut Random, play: &mut Play) -> Wrong {
    let before = play.listing("old get")?;
    let right = one_spoils(alloc, random, play)?;
    let spoiled = play.spoiled();
    Ok(told_of(right && play.lists("old get", &before)?, spoiled))
}

/// The same of a change of what the change before it made. Where that is spoiled, a write was
/// refused.
fn told_of_next(alloc: Global, random: &mut Random, play: &mut Play) -> Wrong {
    if play.spoiled() {
        return Ok(Some(REFUSED));
    }
    play.stand()?;
    play.back()?;
    told_of_change(alloc, random, play)
}

/// The same after drawn writes in the change before, of which one alone may spoil it.
fn told_of_both(alloc: Global, random: &mut Random, play: &mut Play) -> Wrong {
    if one_spoils(alloc, random, play)? {
        told_of_next(alloc, random, play)
    } else {
        Ok(Some(LOST))
    }
}

/// The same on a new table.
fn told_of_all(alloc: Global) -> Wrong {
    let mut play = Play::new(alloc, SCHEMA)?;
    told_of_both(alloc, &mut Random::from(2), &mut play)
}

// Where an allocation fails it ends in an error, which tells a refused write.
#[test]
fn a_refused_write_leaves_the_table(rt: HostRuntime) -> Result<(), Fail> {
    none_wrong(told_of_all(rt.alloc()))
}
