//! Arguments and their keys, exact and in the prefix form.

use super::told::key_told;
use crate::tables::{Form, Told, are_lines_told, holds, is_so};
use mdb_datum::{Datum, Items};
use std::alloc::{AllocError, Global};
use std::test::Fail;

/// The name of an index and arguments, and their exact key in hexadecimal or the refusal.
static EXACT: &str = r#"folded ["Ann"] => 616e6e00
text [""] => 00
text [] => ArgCount
text ["a","b"] => ArgCount
text [null] => ArgKind
list ["b"] => 6200
folded-map ["A"] => 6100
folded-map ["A","X"] => 61007800
map ["a",1] => ArgKind
map [] => ArgCount
map ["a","b","c"] => ArgCount
uint2 [258] => 0102
uint1 [256] => OutOfRange
int1 [-1] => 7f
int1 [-129] => OutOfRange
int1 ["1"] => ArgKind
bool [false] => 00
set [true] => 01
set [0] => ArgKind
is-one [true] => 01
uuid ["12345678-9abc-def0-1234-56789abcdef0"] => 123456789abcdef0123456789abcdef0
uuid [""] => BadUuid
uuid ["12345678-9abc-def0-1234-56789abcdef"] => BadUuid
open-pair ["a","b"] => 61006200
open-pair ["a"] => ArgCount
mixed ["a",7] => 610007
mixed [1,256] => ArgKind
mixed ["a",256] => OutOfRange
text ["~1023 x~"] => ~1023 78~00
text ["~1024 x~"] => TooLong
"#;

#[test]
fn arguments_give_their_keys(rt: HostRuntime) -> Result<(), Fail> {
    are_lines_told(rt.alloc(), Form::Args, EXACT)
}

/// The same of their key in the prefix form, which has no end byte.
static PREFIXES: &str = r#"text ["ann"] => 616e6e
text [""] => none
text [1] => ArgKind
text [] => ArgCount
folded-list ["AN"] => 616e
map [] => NoPrefixForm
uint1 ["x"] => NoPrefixForm
set [true] => NoPrefixForm
uuid ["12-34"] => 1234
uuid ["-1-2-aB-"] => 12ab
uuid [""] => none
uuid ["12-3"] => BadUuid
uuid ["123"] => BadUuid
uuid ["-----"] => BadUuid
uuid ["1g"] => BadUuid
uuid ["123456789012345678901234567890123456"] => 123456789012345678901234567890123456
uuid ["1234567890123456789012345678901234567"] => BadUuid
pair ["a"] => 61
pair ["a","b"] => 610062
pair [] => ArgCount
pair ["a","b","c"] => ArgCount
mixed ["a",256] => NoPrefixForm
mixed [1,256] => ArgKind
text ["~1024 x~"] => ~1024 78~
text ["~1025 x~"] => TooLong
"#;

#[test]
fn prefixes_give_their_keys(rt: HostRuntime) -> Result<(), Fail> {
    are_lines_told(rt.alloc(), Form::Prefix, PREFIXES)
}

/// Numbers that no text can give: one past the numbers of 8 bytes, and the ends of `i128`.
static PAST: [(&str, i128); 6] = [
    ("uint8", 18_446_744_073_709_551_616),
    ("uint8", i128::MAX),
    ("uint8", i128::MIN),
    ("int8", -9_223_372_036_854_775_809),
    ("int8", i128::MAX),
    ("int8", i128::MIN),
];

/// A list of one number.
fn list_of(alloc: Global, number: i128) -> Result<Items, AllocError> {
    let mut args = Items::new(alloc);
    args.push(Datum::Whole(number))?;
    Ok(args)
}

/// Whether a number is refused as outside the width.
fn is_past(alloc: Global, index: &str, number: i128) -> Told {
    let args = list_of(alloc, number)?;
    is_so(key_told(alloc, index, false, &args), "OutOfRange")
}

/// Whether each of those is.
fn are_past(alloc: Global) -> Told {
    for (index, number) in &PAST {
        if !is_past(alloc, index, *number)? {
            return Ok(false);
        }
    }
    Ok(true)
}

#[test]
fn numbers_past_eight_bytes_are_refused(rt: HostRuntime) -> Result<(), Fail> {
    holds(are_past(rt.alloc()))
}
