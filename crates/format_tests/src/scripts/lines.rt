//! Lines, blanks, comments, and their numbers.
use super::told::script_told;
use crate::tables::{Case, Form, are_told, holds, is_so};
use std::test::Fail;

static LINES: [Case; 21] = [
    ("", ""),
    ("\n", ""),
    ("read", "1 read;"),
    ("read\n", "1 read;"),
    ("\n\nread", "3 read;"),
    ("read\n\nwrite\n", "1 read;3 write;"),
    ("# x\nread", "2 read;"),
    ("  # x\n\t#\n #read\nread", "4 read;"),
    ("#", ""),
    ("   \n\t\nread", "3 read;"),
    ("read\r\nwrite\r\n", "1 read;2 write;"),
    ("\r\nread\r", "2 read;"),
    ("  read", "1 read;"),
    ("\tread\t ", "1 read;"),
    ("\t check \t w \t", "1 check w;"),
    ("check\tw", "1 check w;"),
    ("defer a \r", "1 defer a;"),
    ("defer a\rb", "1 defer a\rb;"),
    ("defer #", "1 defer #;"),
    ("defer a  b\tc", "1 defer a  b\tc;"),
    (
        "insert t { \"b\" : 1 , \"a\" : [ 2 ] } \t ",
        r#"1 insert t {"a":[2],"b":1};"#,
    ),
];

#[test]
fn lines_are_numbered_from_one(rt: HostRuntime) -> Result<(), Fail> {
    are_told(rt.alloc(), Form::Script, &LINES)
}

/// What is no blank and no end of a line.
static OTHER_BYTES: [Case; 10] = [
    ("read\r\r\n", "unknown-word 1"),
    ("read\r ", "unknown-word 1"),
    ("read\rwrite", "unknown-word 1"),
    ("\u{feff}read", "unknown-word 1"),
    ("read\0", "unknown-word 1"),
    ("\0", "unknown-word 1"),
    ("read\u{b}", "unknown-word 1"),
    ("read\u{a0}", "unknown-word 1"),
    ("write\n\u{feff}# x", "unknown-word 2"),
    ("check \u{7f}", "bad-name 1"),
];

#[test]
fn other_bytes_belong_to_words(rt: HostRuntime) -> Result<(), Fail> {
    are_told(rt.alloc(), Form::Script, &OTHER_BYTES)
}

/// The first line that breaks a rule is told.
static TWO_LINES: [Case; 4] = [
    ("read\nreads\ncheck", "unknown-word 2"),
    ("check\nreads", "bad-shape 1"),
    ("# a\r\n\r\n# b\r\ncheck ,", "bad-name 4"),
    ("insert t {\nreads", "bad-doc 1"),
];

#[test]
fn the_first_broken_line_is_told(rt: HostRuntime) -> Result<(), Fail> {
    are_told(rt.alloc(), Form::Script, &TWO_LINES)
}

#[test]
fn bytes_that_are_no_text_are_told_first(rt: HostRuntime) -> Result<(), Fail> {
    holds(is_so(script_told(rt.alloc(), b"reads\n# \xff"), "not-text"))
}

/// Line feeds, and what follows them.
static LONG_FILES: [Case; 5] = [
    ("~100000 \n~", ""),
    ("~100001 \n~", "too-many-lines"),
    ("~99999 \n~read", "100000 read;"),
    ("~99999 \n~read\n", "100000 read;"),
    ("~100000 \n~#", "too-many-lines"),
];

#[test]
fn a_file_has_at_most_so_many_lines(rt: HostRuntime) -> Result<(), Fail> {
    are_told(rt.alloc(), Form::Script, &LONG_FILES)
}
