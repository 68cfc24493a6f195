//! Rows of the longest keys and of the most, and of one too many.
use super::USERS;
use super::played::answers;
use std::alloc::{AllocError, Global};
use std::str;
use std::test::Fail;

/// A name of 1,023 letters.
static NAME: [u8; 1_023] = [b'a'; 1_023];

/// The numbers from 1 to 255 as texts, each with a comma behind it.
fn tags(alloc: Global) -> Result<String, AllocError> {
    let mut text = String::new(alloc);
    for number in 1..256u32 {
        write!(text, "\"{number}\",")?;
    }
    Ok(text)
}

/// A text with those at the place of `<tags>`.
fn with_tags(alloc: Global, text: &str) -> Result<String, AllocError> {
    let tags = tags(alloc)?;
    text.replace(alloc, "<tags>", &tags)
}

/// The same of a text with such a place, and another one with the name at the place of `<name>`.
pub fn with_long(alloc: Global, text: &str) -> Result<String, AllocError> {
    match text.split_once("<tags>") {
        Some(_) => with_tags(alloc, text),
        None => text.replace(alloc, "<name>", str::from_utf8(&NAME).unwrap_or("no text")),
    }
}

/// A key has one byte more than the letters.
static LONGEST: &str = r#"get id ["<name>"] => rows 0
get id ["<name>a"] => refused too-long
insert {"age":1,"name":"<name>"} => inserted
insert {"age":1,"name":"<name>a"} => refused too-long id
insert {"age":1,"name":"n","tags":[<tags>"last"]} => inserted
insert {"age":1,"name":"n","tags":[<tags>"256","last"]} => refused too-many tags
"#;

#[test]
fn a_name_has_at_most_1023_letters_and_a_row_256_tags(rt: HostRuntime) -> Result<(), Fail> {
    answers(rt.alloc(), USERS, LONGEST)
}

/// With the names behind them the last tags of both rows are the same. The row that is refused
/// leaves nothing.
static TAKEN: &str = r#"insert {"name":"z\u0000n","age":1,"tags":["last"]} => inserted
insert {"age":1,"name":"n","tags":[<tags>"last\u0000z"]} => refused key-taken tags
first tags ["1"] => none
first tags ["255"] => none
first id ["n"] => none
get tags [] => rows 1 {"age":1,"name":"z\u0000n","tags":["last"]}
"#;

#[test]
fn the_last_of_256_tags_may_be_taken(rt: HostRuntime) -> Result<(), Fail> {
    answers(rt.alloc(), USERS, TAKEN)
}
