//! A refused write leaves what each index lists.
use super::USERS;
use super::played::answers;
use std::test::Fail;

/// Some of the refused rows have the `id` of a row that is there, and keys before the refused one
/// that no row has.
static SCRIPT: &str = r#"insert {"name":"ann","age":1,"mail":"a","tags":["x","y"]} => inserted
insert {"name":"b\u0000c","age":2,"mail":"b","tags":["x"]} => inserted
get tags ["x"] => rows 2 {"age":1,"mail":"a","name":"ann","tags":["x","y"]} {"age":2,"mail":"b","name":"b\u0000c","tags":["x"]}
try insert {"age":9} => refused no-id
try insert {"name":1,"age":9} => refused wrong-kind id
try insert {"name":"ann"} => refused missing age
try insert {"name":"ann","age":"x"} => refused wrong-kind age
try insert {"name":"ann","age":65536} => refused out-of-range age
try insert {"name":"ann","age":9,"tags":["z",1]} => refused wrong-kind tags
try insert {"name":"ann","age":9,"mail":"b","tags":["z"]} => refused key-taken mail
try insert {"name":"cy","age":9,"mail":"a","tags":["z"]} => refused key-taken mail
try insert {"name":"c","age":9,"mail":"c","tags":["z","x\u0000b"]} => refused key-taken tags
try delete {"name":"cy"} => refused not-found
try delete {"age":1} => refused no-id
try delete {"name":["ann"]} => refused wrong-kind id
try delete-all ids [] => refused unknown-index
try delete-all age ["x"] => refused arg-kind
try delete-all age [1,2] => refused arg-count
try delete-all age [65536] => refused out-of-range
try delete-prefix id ["a"] => refused no-prefix-name
try delete-prefix age_prefix [1] => refused no-prefix-form
try insert {"name":"cy","age":9} => another listing
"#;

// The last line is a write that is none of those.
#[test]
fn a_refused_write_leaves_each_index(rt: HostRuntime) -> Result<(), Fail> {
    answers(rt.alloc(), USERS, SCRIPT)
}
