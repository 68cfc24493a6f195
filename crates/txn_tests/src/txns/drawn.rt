//! Rows drawn from a fixed sequence, and tables as plain lists of them.
ghost use Rattle.std.specs.Prelude.{◌<◌};

use super::steps::{Asked, Line};
use mdb_schema::Ask;
use rand_core::{Rng, SeedableRng};
use rand_xoshiro::Xoshiro256PlusPlus;
use std::alloc::{AllocError, Global};

/// Six names, each at three ages.
static ROWS: [&str; 18] = [
    r#"{"age":1,"name":"a"}"#,
    r#"{"age":2,"name":"a"}"#,
    r#"{"age":3,"name":"a"}"#,
    r#"{"age":1,"name":"ab"}"#,
    r#"{"age":2,"name":"ab"}"#,
    r#"{"age":3,"name":"ab"}"#,
    r#"{"age":1,"name":"abc"}"#,
    r#"{"age":2,"name":"abc"}"#,
    r#"{"age":3,"name":"abc"}"#,
    r#"{"age":1,"name":"b"}"#,
    r#"{"age":2,"name":"b"}"#,
    r#"{"age":3,"name":"b"}"#,
    r#"{"age":1,"name":"ba"}"#,
    r#"{"age":2,"name":"ba"}"#,
    r#"{"age":3,"name":"ba"}"#,
    r#"{"age":1,"name":"c"}"#,
    r#"{"age":2,"name":"c"}"#,
    r#"{"age":3,"name":"c"}"#,
];

/// The row of each name that is there, in the users and then in the notes.
pub type Plain = [Option<usize>; 12];

/// The rows that are there, and the sequence from which the next one is drawn.
#[derive(Drop)]
pub struct Drawn {
    pub random: Random,
    pub plain: Plain,
}

impl Drawn {
    /// No rows, before a sequence.
    pub fn from(seed: u64) -> Drawn {
        Drawn {
            random: Random(Xoshiro256PlusPlus::seed_from_u64(seed)),
            plain: [None; 12],
        }
    }

    /// The write of a drawn row at a drawn place, which is there afterwards or not, and its answer.
    pub fn line(&mut self, is_there: bool) -> Line<'static> {
        let place = self.random.below(12) as usize;
        let row = self.random.row(place);
        let held = self.plain[place];
        self.plain[place] = if is_there { Some(row) } else { None };
        (table_of(place), text_of(row), write_told(is_there, held))
    }
}

/// What the insert of a row is answered, or its delete, where the row of its name is this one.
fn write_told(is_insert: bool, held: Option<usize>) -> &'static str {
    match held {
        Some(_) if is_insert => "replaced",
        Some(row) => text_of(row),
        None if is_insert => "inserted",
        None => "not-found",
    }
}

/// Questions for all rows, or for the users of an age, and how the texts of their rows begin.
pub static QUESTIONS: [Asked; 5] = [
    ((Ask::Get, "users", "id", "[]"), "{"),
    ((Ask::Get, "users", "age", "[1]"), "{\"age\":1"),
    ((Ask::Get, "users", "age", "[2]"), "{\"age\":2"),
    ((Ask::Get, "users", "age", "[3]"), "{\"age\":3"),
    ((Ask::Get, "notes", "id", "[]"), "{"),
];

/// Drawn numbers, the same in each run.
#[derive(Drop)]
pub struct Random(Xoshiro256PlusPlus);

impl Random {
    /// A number below a bound.
    pub fn below(&mut self, bound: u64) -> u64
        requires { 0 < bound }
        ensures { result < bound }
    {
        self.0.next_u64() % bound
    }

    /// A question.
    pub fn question(&mut self) -> &'static Asked {
        &QUESTIONS[self.below(5) as usize]
    }

    /// A row of the name at a place.
    pub fn row(&mut self, place: usize) -> usize
        requires { place < 12 }
        ensures { result < 18 }
    {
        let name = if place < 6 { place } else { place - 6 };
        name * 3 + self.below(3) as usize
    }
}

/// The table of a place.
pub fn table_of(place: usize) -> &'static str {
    if place < 6 { "users" } else { "notes" }
}

/// The text of a row.
pub fn text_of(row: usize) -> &'static str {
    match ROWS.get(row) {
        Some(text) => text,
        None => "",
    }
}

/// Whether a question lists the row at a place.
fn is_asked(place: usize, row: usize, asked: &Asked) -> bool {
    table_of(place) == asked.0.1 && text_of(row).starts_with(asked.1)
}

/// Takes out the rows that a question lists, and gives their number.
pub fn wipe_plain(plain: &mut Plain, asked: &Asked) -> u64 {
    let mut count = 0u64;
    for place in 0..12 {
        if let Some(row) = plain[place] {
            if is_asked(place, row, asked) {
                plain[place] = None;
                count = count.saturating_add(1);
            }
        }
    }
    count
}

/// Adds the line of the row at a place, where a question lists it.
fn add_asked(
    lines: &mut String,
    place: usize,
    held: Option<usize>,
    asked: &Asked,
) -> Result<(), AllocError> {
    match held {
        Some(row) if is_asked(place, row, asked) => {
            lines.push_str(text_of(row))?;
            lines.push('\n')
        }
        _ => Ok(()),
    }
}

/// The lines of the rows that a question lists.
pub fn listed(alloc: Global, plain: &Plain, asked: &Asked) -> Result<String, AllocError> {
    let mut lines = String::new(alloc);
    for (place, held) in plain.iter().enumerate() {
        add_asked(&mut lines, place, *held, asked)?;
    }
    Ok(lines)
}
