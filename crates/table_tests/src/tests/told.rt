//! Answers in the words of client files. The rows of an answer follow its number.
use super::Done;
use super::words::{ask_word, told_index, wipe_word, write_word};
use mdb_datum::Row;
use mdb_schema::{Answer, Ask, AskError, Rows, TableDef, WriteError};
use radix_iter::Walk;
use std::alloc::{AllocError, Global};
use std::str;
use table_index::{Notices, WipeError};

/// Want of memory, which is no answer.
pub const NO_MEMORY: &str = "refused memory";

/// Adds a word behind a blank.
fn tell_word(word: &str, out: &mut String) -> Done {
    out.push(' ')?;
    out.push_str(word)
}

/// Adds a refusal.
fn tell_refused(word: &str, out: &mut String) -> Done {
    out.push_str("refused")?;
    tell_word(word, out)
}

/// Adds a word and a number.
fn tell_count(word: &str, count: u64, out: &mut String) -> Done {
    Ok(write!(out, "{word} {count}")?)
}

/// Adds a row's text, behind a blank.
fn tell_row(row: &Row, out: &mut String) -> Done {
    let doc = row.doc()?;
    tell_word(str::from_utf8(&doc).unwrap_or("no text"), out)
}

/// Adds a row, or that there is none.
pub fn tell_one(row: Option<&Row>, out: &mut String) -> Done {
    match row {
        Some(row) => {
            out.push_str("row")?;
            tell_row(row, out)
        }
        None => out.push_str("none"),
    }
}

/// Adds the number of rows, and each row.
pub fn tell_rows(rows: &Rows, out: &mut String) -> Done {
    tell_count("rows", rows.len() as u64, out)?;
    for row in rows.iter() {
        tell_row(row, out)?;
    }
    Ok(())
}

/// The name of the index at a place.
pub fn index_name(def: &TableDef, place: usize) -> &str {
    match def.index(place) {
        Some(index) => index.name().as_str(),
        None => "no index",
    }
}

/// Adds a refusal of a write, with the name of its index.
fn tell_refused_write(error: WriteError, def: &TableDef, out: &mut String) -> Done {
    tell_refused(write_word(error), out)?;
    match told_index(error) {
        Some(place) => tell_word(index_name(def, place as usize), out),
        None => Ok(()),
    }
}

/// Adds what the put of a row answers.
pub fn tell_put(answer: Result<bool, WriteError>, def: &TableDef, out: &mut String) -> Done {
    match answer {
        Ok(true) => out.push_str("replaced"),
        Ok(false) => out.push_str("inserted"),
        Err(error) => tell_refused_write(error, def, out),
    }
}

/// Adds what the removal of a row answers.
pub fn tell_removed(answer: Result<Row, WriteError>, def: &TableDef, out: &mut String) -> Done {
    match answer {
        Ok(row) => tell_one(Some(&row), out),
        Err(error) => tell_refused_write(error, def, out),
    }
}

/// Adds what a wipe answers that counts its rows.
pub fn tell_wipe(answer: Result<u64, WipeError>, out: &mut String) -> Done {
    match answer {
        Ok(count) => tell_count("deleted", count, out),
        Err(error) => tell_refused(wipe_word(error), out),
    }
}

/// Adds what a wipe answers that gives its rows.
pub fn tell_taken(answer: Result<Rows, WipeError>, out: &mut String) -> Done {
    match answer {
        Ok(rows) => tell_rows(&rows, out),
        Err(error) => tell_refused(wipe_word(error), out),
    }
}

/// Adds why a wipe is refused, or that it is not.
pub fn tell_checked(refusal: Option<WipeError>, out: &mut String) -> Done {
    match refusal {
        Some(error) => tell_refused(wipe_word(error), out),
        None => out.push_str("allowed"),
    }
}

/// Adds the answer to a question.
pub fn tell_answer(answer: Result<Answer, AskError>, out: &mut String) -> Done {
    match answer {
        Ok(Answer::One(row)) => tell_one(row.as_ref(), out),
        Ok(Answer::Many(rows)) => tell_rows(&rows, out),
        Err(error) => tell_refused(ask_word(error), out),
    }
}

/// Adds why a question is not watched, or that it is.
pub fn tell_watched(refusal: Option<AskError>, out: &mut String) -> Done {
    match refusal {
        Some(error) => tell_refused(ask_word(error), out),
        None => out.push_str("watched"),
    }
}

/// The rows of a walk.
fn rows_of(alloc: Global, walk: &mut Walk<'_>) -> Result<Rows, AllocError> {
    let mut rows = Rows::new(alloc);
    while let Some(row) = walk.next()? {
        rows.push(row)?;
    }
    Ok(rows)
}

/// Adds rows as the answer to a question that is asked for one or for all.
pub fn tell_as(ask: Ask, rows: &Rows, out: &mut String) -> Done {
    match ask {
        Ask::First | Ask::Last | Ask::Longest if rows.len() < 2 => tell_one(rows.get(0), out),
        _ => tell_rows(rows, out),
    }
}

/// Adds the rows of a walk in that way.
fn tell_walk(alloc: Global, ask: Ask, walk: &mut Walk<'_>, out: &mut String) -> Done {
    let rows = rows_of(alloc, walk)?;
    tell_as(ask, &rows, out)
}

/// Adds the rows that a question gives one at a time, or its refusal.
pub fn tell_walked(
    alloc: Global,
    ask: Ask,
    walk: Result<Walk<'_>, AskError>,
    out: &mut String,
) -> Done {
    match walk {
        Ok(mut walk) => tell_walk(alloc, ask, &mut walk, out),
        Err(error) => tell_refused(ask_word(error), out),
    }
}

/// Adds how many cells a notice has, if it lists them, and `none` where there is no notice.
fn tell_cells_at(notices: &Notices, at: usize, out: &mut String) -> Done {
    match notices.get(at) {
        Some(notice) => match notice.listed() {
            Some(count) => tell_count("", u64::from(count), out),
            None => out.push_str(" all"),
        },
        None => out.push_str(" none"),
    }
}

/// Adds the number of notices, and the cells of the first two, and of a third.
pub fn tell_cells(notices: &Notices, out: &mut String) -> Done {
    write!(out, "{} with", notices.len())?;
    for at in 0..3usize {
        tell_cells_at(notices, at, out)?;
    }
    Ok(())
}
