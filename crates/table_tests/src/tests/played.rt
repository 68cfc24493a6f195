//! Scripts of writes and questions, played on a table and a change of it.
//!
//! A line is `WORD ROW => ANSWER` or `WORD INDEX ARGUMENTS => ANSWER`, in the words of client files
//! without the table's name; `docs/FORMATS.md` has the words. A `delete` gives its row. Further words
//! are:
//!
//! - `take-all` and `take-prefix`, the wipes that give their rows.
//! - `stand`: from here on the table is that of the change. `back`: a new change of the table. `end`
//!   ends the change before such a new one. `ids`: a table without rows that has so many ids left.
//! - `old` before a question asks the table, and `walk` gives its rows one at a time. `watch` tells
//!   whether the table's answer may be watched, and `moved` whether its watch is another one in the
//!   table of the change that ended. `check-all` and `check-prefix` tell whether a wipe is allowed.
//! - `cells` tells how many cells the notices of the change that ended have; `left` whether as many
//!   ids are left as at the `left` before.
//! - `<name>` stands for a name of 1,023 letters, and `<tags>` for 255 tags.
//! - `try` before a line tells `another listing` where that changes what an index lists.
use super::long::with_long;
use super::told::{
    NO_MEMORY, index_name, tell_answer, tell_cells, tell_checked, tell_put, tell_removed,
    tell_taken, tell_walked, tell_watched, tell_wipe,
};
use super::words::ask_of;
use super::work::{Base, Work};
use super::{Done, Told, Wrong, asked, none_wrong, row_of, table_of};
use mdb_datum::Row;
use mdb_schema::{Query, TableDef};
use std::alloc::{AllocError, Global};
use std::mem;
use std::test::Fail;
use table_index::{Notices, Table, WipeError};

/// A table, a change of it, what the change before it ended with, and how many ids were left.
#[derive(Drop)]
pub struct Play {
    alloc: Global,
    base: Base,
    work: Work,
    ended: Option<(Table, Notices)>,
    left: u64,
}

/// A question of a word, an index and arguments.
pub fn query_of(alloc: Global, word: &str, rest: &str) -> Result<Query, AllocError> {
    let (index, args) = rest.split_once(' ').unwrap_or((rest, ""));
    asked(alloc, ask_of(word), index, args)
}

/// The same where the word stands in the text.
pub fn question_of(alloc: Global, text: &str) -> Result<Query, AllocError> {
    let (word, rest) = text.split_once(' ').unwrap_or((text, ""));
    query_of(alloc, word, rest)
}

/// A table without rows that has so many ids.
fn table_with(alloc: Global, def: &TableDef, count: u64) -> Result<Base, AllocError> {
    if count < 32 || count > 1 << 63 {
        return Err(AllocError);
    }
    Base::from_id(alloc, def, (1 << 63) - count)
}

/// Why a wipe is refused, as a table tells it before a change.
fn checked(table: &Table, by_prefix: bool, query: &Query) -> Option<WipeError> {
    if by_prefix {
        table.check_take_prefix(query).err()
    } else {
        table.check_take_all(query).err()
    }
}

/// Why a wipe is refused in a change.
fn taken(work: &mut Work, by_prefix: bool, query: &Query) -> Option<WipeError> {
    if by_prefix {
        work.take_prefix(query).err()
    } else {
        work.take_all(query).err()
    }
}

/// The place of an index, and the id of a cell that is watched there.
type Place = (u32, u64);

/// What a question is watched by. One that is refused counts as want of memory, which ends a test.
fn watch_of(table: &Table, query: &Query) -> Result<Place, AllocError> {
    match table.ask_watch(query) {
        Ok(watched) => Ok((watched.spot.index(), watched.spot.watch().id())),
        Err(_) => Err(AllocError),
    }
}

/// Whether the notice of an index has a cell.
fn is_noticed(notices: &Notices, place: Place) -> bool {
    match notices.get(place.0 as usize) {
        Some(notice) => notice.cells().iter().any(|cell| cell.id() == place.1),
        None => false,
    }
}

/// Whether another cell is watched in a later table, and whether the notices tell it.
fn movement(notices: &Notices, place: Place, later: Place) -> &'static str {
    match (later.1 != place.1, is_noticed(notices, place)) {
        (true, true) => "moved",
        (false, false) => "kept",
        (true, false) => "moved without notice",
        (false, true) => "noticed, but kept",
    }
}

/// The same of a question that is asked of both tables.
fn movement_of(
    table: &Table,
    later: &Table,
    notices: &Notices,
    query: &Query,
) -> Result<&'static str, AllocError> {
    let place = watch_of(table, query)?;
    Ok(movement(notices, place, watch_of(later, query)?))
}

impl Play {
    /// A table without rows, and a change of it.
    pub fn new(alloc: Global, schema: &str) -> Result<Play, AllocError> {
        let base = table_of(alloc, schema)?;
        let work = base.txn()?;
        Ok(Play {
            alloc,
            base,
            work,
            ended: None,
            left: 0,
        })
    }

    /// Whether an earlier write found no memory.
    pub fn spoiled(&self) -> bool {
        self.work.spoiled()
    }

    /// The present table is that of the change.
    pub fn stand(&mut self) -> Done {
        self.base = self.work.stand()?;
        Ok(())
    }

    /// Begins a new change of the table.
    pub fn back(&mut self) -> Done {
        self.work = self.base.txn()?;
        Ok(())
    }

    /// Ends the change, and begins a new one of the table.
    fn end(&mut self) -> Done {
        let next = self.base.txn()?;
        let work = mem::replace(&mut self.work, next);
        self.ended = Some(work.freeze()?);
        Ok(())
    }

    /// Begins anew with a table without rows that has so many ids.
    fn restart(&mut self, count: &str) -> Done {
        let count = count.parse::<u64>().unwrap_or(0);
        self.base = table_with(self.alloc, self.work.def(), count)?;
        self.back()
    }

    /// Adds whether as many ids are left as before.
    fn tell_left(&mut self, out: &mut String) -> Done {
        let before = mem::replace(&mut self.left, self.work.left());
        out.push_str(if before == self.left {
            "as before"
        } else {
            "fewer"
        })
    }

    /// Adds how many cells the notices of the change that ended have.
    fn tell_cells(&self, out: &mut String) -> Done {
        match &self.ended {
            Some((_, notices)) => tell_cells(notices, out),
            None => out.push_str("no change"),
        }
    }

    /// Adds whether the watch of a question moved by that change.
    fn tell_moved(&self, query: &Query, out: &mut String) -> Done {
        match &self.ended {
            Some((later, notices)) => {
                out.push_str(movement_of(self.base.table(), later, notices, query)?)
            }
            None => out.push_str("no change"),
        }
    }

    /// Adds whether a wipe is allowed, before a change and in one.
    fn tell_check(&mut self, by_prefix: bool, query: &Query, out: &mut String) -> Done {
        let before = checked(self.base.table(), by_prefix, query);
        if taken(&mut self.work, by_prefix, query) == before {
            tell_checked(before, out)
        } else {
            out.push_str("another answer in the change")
        }
    }

    /// Adds what the write of a row answers.
    fn tell_write(&mut self, word: &str, row: &Row, out: &mut String) -> Done {
        match word {
            "insert" => tell_put(self.work.put(row), self.work.def(), out),
            _ => tell_removed(self.work.remove(row), self.work.def(), out),
        }
    }

    /// Adds what the table answers.
    fn tell_old(&self, word: &str, query: &Query, out: &mut String) -> Done {
        match word {
            "old" => tell_answer(self.base.ask(query), out),
            "walk" => tell_walked(self.alloc, query.ask(), self.base.walk(query), out),
            "watch" => tell_watched(self.base.table().ask_watch(query).err(), out),
            _ => self.tell_moved(query, out),
        }
    }

    /// Adds what the change answers to a wipe or a question.
    fn tell_query(&mut self, word: &str, query: &Query, out: &mut String) -> Done {
        match word {
            "delete-all" => tell_wipe(self.work.remove_all(query), out),
            "delete-prefix" => tell_wipe(self.work.remove_prefix(query), out),
            "take-all" => tell_taken(self.work.take_all(query), out),
            "take-prefix" => tell_taken(self.work.take_prefix(query), out),
            "check-all" => self.tell_check(false, query, out),
            "check-prefix" => self.tell_check(true, query, out),
            _ => tell_answer(self.work.ask(query), out),
        }
    }

    /// Does what a single word says, and adds the answer, if there is one.
    fn tell_step(&mut self, word: &str, out: &mut String) -> Done {
        match word {
            "stand" => self.stand(),
            "back" => self.back(),
            "end" => self.end(),
            "left" => self.tell_left(out),
            "cells" => self.tell_cells(out),
            _ => out.push_str("no command"),
        }
    }

    /// Does what a word and the rest of a line say, and adds the answer, if there is one.
    fn tell_by_word(&mut self, word: &str, rest: &str, out: &mut String) -> Done {
        match word {
            "insert" | "delete" => self.tell_write(word, &row_of(self.alloc, rest)?, out),
            "ids" => self.restart(rest),
            "old" | "walk" | "watch" | "moved" => {
                self.tell_old(word, &question_of(self.alloc, rest)?, out)
            }
            _ => self.tell_query(word, &query_of(self.alloc, word, rest)?, out),
        }
    }

    /// Does what a command says, and adds the answer, if there is one.
    fn tell(&mut self, command: &str, out: &mut String) -> Done {
        match command.split_once(' ') {
            Some((word, rest)) => self.tell_by_word(word, rest, out),
            None => self.tell_step(command, out),
        }
    }

    /// What a command answers. Want of memory in a write or a question is told as such.
    pub fn answer(&mut self, command: &str) -> Result<String, AllocError> {
        let mut out = String::new(self.alloc);
        self.tell(command, &mut out)?;
        Ok(out)
    }

    /// Adds what an index lists, by a question that begins with this word.
    fn tell_whole(&mut self, word: &str, at: usize, out: &mut String) -> Done {
        let index = index_name(self.work.def(), at);
        let command = format!(in self.alloc; "{word} {index} []")?;
        self.tell(&command, out)
    }

    /// What each index lists, by questions that begin with this word.
    pub fn listing(&mut self, word: &str) -> Result<String, AllocError> {
        let mut out = String::new(self.alloc);
        for at in 0..self.work.def().len() {
            self.tell_whole(word, at, &mut out)?;
        }
        Ok(out)
    }

    /// Whether each index lists this.
    pub fn lists(&mut self, word: &str, listing: &str) -> Told {
        Ok(self.listing(word)?.as_str() == listing)
    }

    /// What a command answers, where each index lists the same before and after it.
    fn tried(&mut self, command: &str) -> Result<String, AllocError> {
        let before = self.listing("get")?;
        let told = self.answer(command)?;
        match self.lists("get", &before)? {
            true => Ok(told),
            false => String::from_str(self.alloc, "another listing"),
        }
    }

    /// What a command answers. Want of memory is no answer.
    pub fn told(&mut self, command: &str) -> Result<String, AllocError> {
        let told = match command.strip_prefix("try ") {
            Some(command) => self.tried(command)?,
            None => self.answer(command)?,
        };
        match told.as_str() {
            NO_MEMORY => Err(AllocError),
            _ => Ok(told),
        }
    }

    /// Whether a line is answered as it says, and spoils nothing.
    fn is_answered(&mut self, line: &str) -> Told {
        let (command, want) = line.split_once(" => ").unwrap_or((line, ""));
        let command = with_long(self.alloc, command)?;
        Ok(self.told(&command)?.as_str() == want && !self.spoiled())
    }

    /// The first line of a script that is answered otherwise.
    fn first_wrong(&mut self, script: &'static str) -> Wrong {
        for line in script.lines() {
            if !self.is_answered(line)? {
                return Ok(Some(line));
            }
        }
        Ok(None)
    }
}

/// Plays a script on a table without rows, and gives the first line that is answered otherwise.
pub fn first_wrong_of(alloc: Global, schema: &str, script: &'static str) -> Wrong {
    let mut play = Play::new(alloc, schema)?;
    play.first_wrong(script)
}

/// Fails with the first line of a script that is answered otherwise on a table without rows.
pub fn answers(alloc: Global, schema: &str, script: &'static str) -> Result<(), Fail> {
    none_wrong(first_wrong_of(alloc, schema, script))
}

/// The table of a change after a script. One that is answered otherwise counts as want of memory,
/// which ends a test.
fn stood(play: &mut Play, script: &'static str) -> Result<Base, AllocError> {
    match play.first_wrong(script)? {
        None => play.work.stand(),
        Some(_) => Err(AllocError),
    }
}

/// The same of a new table.
pub fn filled(alloc: Global, schema: &str, script: &'static str) -> Result<Base, AllocError> {
    let mut play = Play::new(alloc, schema)?;
    stood(&mut play, script)
}
