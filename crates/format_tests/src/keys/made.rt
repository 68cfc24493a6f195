//! What a kind is made of: an empty name, a number that is no width, a list or an object as a
//! scalar and no parts at all make none.

use crate::tables::{Case, Form, Told, are_told, holds};
use mdb_datum::Text;
use mdb_encode::{Field, Part, Parts, Width};
use std::alloc::{AllocError, Global};
use std::test::Fail;

static NAMES: [Case; 2] = [("a", "a"), ("", "none")];

#[test]
fn a_name_is_not_empty(rt: HostRuntime) -> Result<(), Fail> {
    are_told(rt.alloc(), Form::Field, &NAMES)
}

/// Numbers, and how many bytes the width of so many has, or 0 where there is none.
static WIDTHS: [(i128, u8); 15] = [
    (1, 1),
    (2, 2),
    (4, 4),
    (8, 8),
    (-1, 0),
    (0, 0),
    (3, 0),
    (5, 0),
    (6, 0),
    (7, 0),
    (9, 0),
    (16, 0),
    (256, 0),
    (257, 0),
    (i128::MAX, 0),
];

/// How many bytes the width of a number of bytes has, or 0.
fn width_bytes(number: i128) -> u8 {
    match Width::of(number) {
        Some(width) => width.bytes(),
        None => 0,
    }
}

/// Whether each width has so many bytes.
fn have_bytes() -> bool {
    for (number, bytes) in &WIDTHS {
        if width_bytes(*number) != *bytes {
            return false;
        }
    }
    true
}

#[test]
fn widths_are_four() -> Result<(), Fail> {
    holds(Ok(have_bytes()))
}

/// Texts of scalars, and of what is none.
static SCALARS: [Case; 6] = [
    ("null", "scalar"),
    ("false", "scalar"),
    ("-1", "scalar"),
    ("\"on\"", "scalar"),
    ("[1]", "none"),
    ("{}", "none"),
];

#[test]
fn scalars_are_no_lists(rt: HostRuntime) -> Result<(), Fail> {
    are_told(rt.alloc(), Form::Scalar, &SCALARS)
}

/// A truth value as a part, or none where the name makes no field.
fn part_of(alloc: Global, name: &str) -> Result<Option<Part>, AllocError> {
    match Field::of(Text::of(alloc, name)?) {
        Some(field) => Ok(Some(Part::Flag { field })),
        None => Ok(None),
    }
}

/// Whether one part makes parts.
fn is_one_enough(alloc: Global) -> Told {
    match part_of(alloc, "a")? {
        Some(part) => Ok(Parts::of(vec![in alloc; part]?).is_some()),
        None => Ok(false),
    }
}

/// Whether that is so, and none makes none.
fn is_a_part_wanted(alloc: Global) -> Told {
    Ok(Parts::of(Vec::new(alloc)).is_none() && is_one_enough(alloc)?)
}

#[test]
fn there_is_a_part(rt: HostRuntime) -> Result<(), Fail> {
    holds(is_a_part_wanted(rt.alloc()))
}
