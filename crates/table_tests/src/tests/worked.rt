//! Worked examples of what a table answers.
use super::played::first_wrong_of;
use super::{KEYS, RULES, USERS, Wrong, none_wrong};
use std::alloc::Global;
use std::test::Fail;

/// Scripts, each on a table without rows.
static SCRIPTS: [(&str, &str); 14] = [
    // Rows come in the order of their keys.
    (
        USERS,
        r#"get id [] => rows 0
insert {"name":"cy","age":1} => inserted
insert {"name":"bob","age":2} => inserted
insert {"name":"ann","age":3} => inserted
get id [] => rows 3 {"age":3,"name":"ann"} {"age":2,"name":"bob"} {"age":1,"name":"cy"}
last id [] => row {"age":1,"name":"cy"}
"#,
    ),
    // A text key has an end byte, and its prefix form has none.
    (
        USERS,
        r#"insert {"name":"ann","age":1} => inserted
insert {"name":"anna","age":2} => inserted
get id ["ann"] => rows 1 {"age":1,"name":"ann"}
get id_prefix ["ann"] => rows 2 {"age":1,"name":"ann"} {"age":2,"name":"anna"}
first id ["an"] => none
get-reverse id_prefix ["an"] => rows 2 {"age":2,"name":"anna"} {"age":1,"name":"ann"}
"#,
    ),
    // The full keys are `00 ff 78 00` and `01 00 79 00`; a bound is compared with the whole of
    // them.
    (
        USERS,
        r#"insert {"name":"x","age":255} => inserted
insert {"name":"y","age":256} => inserted
lower age [256] => rows 1 {"age":256,"name":"y"}
lower age [65536] => refused out-of-range
reverse-lower age [256] => rows 1 {"age":255,"name":"x"}
reverse-lower age [257] => rows 2 {"age":256,"name":"y"} {"age":255,"name":"x"}
reverse-lower age [] => refused arg-count
"#,
    ),
    // A unique key has one row.
    (
        USERS,
        r#"insert {"name":"ann","age":1,"mail":"m"} => inserted
insert {"name":"bob","age":2,"mail":"m"} => refused key-taken mail
insert {"name":"bob","age":2} => inserted
get mail [] => rows 1 {"age":1,"mail":"m","name":"ann"}
delete {"name":"bob"} => row {"age":2,"name":"bob"}
delete {"name":"bob"} => refused not-found
"#,
    ),
    // A UUID is found by whole bytes.
    (
        KEYS,
        r#"insert {"key":"12345678-9abc-def0-1234-56789abcdef0"} => inserted
get id_prefix ["12-34"] => rows 1 {"key":"12345678-9abc-def0-1234-56789abcdef0"}
get id_prefix ["123"] => refused bad-uuid
first id ["12345678-9abc-def0-1234-56789abcdef"] => refused bad-uuid
lower id_prefix ["13"] => rows 0
"#,
    ),
    // One line for each refusal of a question.
    (
        USERS,
        r#"get ids [] => refused unknown-index
get age_prefix [1] => refused no-prefix-form
get age ["1"] => refused arg-kind
get age [1,2] => refused arg-count
get age [65536] => refused out-of-range
longest id ["a"] => refused no-prefix-name
longest tags_prefix ["a"] => refused not-unique
"#,
    ),
    // A table without rows answers with none.
    (
        USERS,
        r#"first id ["a"] => none
first id_prefix [""] => none
last tags [] => none
get tags_prefix ["a"] => rows 0
get-reverse age [] => rows 0
lower age [] => rows 0
reverse-lower id ["a"] => rows 0
longest id_prefix ["a"] => none
"#,
    ),
    // Of a row that breaks two rules the first is told.
    (
        USERS,
        r#"insert {"name":"ann","age":1,"mail":"x"} => inserted
insert {"mail":"x","tags":1} => refused no-id
insert {"name":"bob","age":1,"mail":"x","tags":1} => refused wrong-kind tags
insert {"name":"bob","age":1,"mail":"x"} => refused key-taken mail
delete {"name":"bob"} => refused not-found
"#,
    ),
    // The keys of `path` are `east 00 00` and `east 00 web 00`. The last argument has no end byte,
    // so the key of `b` is no prefix of the second question.
    (
        RULES,
        r#"insert {"dc":"east","name":"a"} => inserted
insert {"dc":"east","name":"b","svc":"web"} => inserted
longest path_prefix ["east","db"] => row {"dc":"east","name":"a"}
longest path_prefix ["east","web"] => row {"dc":"east","name":"a"}
longest path_prefix ["west"] => none
"#,
    ),
    // The new row has the mail and the tag `b` of the old one, and neither its age nor its tag `a`.
    (
        USERS,
        r#"insert {"name":"ann","age":1,"mail":"m","tags":["a","b"]} => inserted
insert {"name":"ann","age":2,"mail":"m","tags":["b","c"]} => replaced
get age [1] => rows 0
get age [2] => rows 1 {"age":2,"mail":"m","name":"ann","tags":["b","c"]}
first mail ["m"] => row {"age":2,"mail":"m","name":"ann","tags":["b","c"]}
first tags ["a"] => none
first tags ["b"] => row {"age":2,"mail":"m","name":"ann","tags":["b","c"]}
first tags ["c"] => row {"age":2,"mail":"m","name":"ann","tags":["b","c"]}
insert {"name":"ann","age":2} => replaced
insert {"name":"bob","age":3,"mail":"m"} => inserted
get tags [] => rows 0
get id ["ann"] => rows 1 {"age":2,"name":"ann"}
"#,
    ),
    // A tag is stored with the name behind it: that of both rows is `a 00 b 00 c 00`.
    (
        USERS,
        r#"insert {"name":"b\u0000c","age":1,"tags":["a"]} => inserted
insert {"name":"c","age":2,"tags":["d","a\u0000b"]} => refused key-taken tags
get tags [] => rows 1 {"age":1,"name":"b\u0000c","tags":["a"]}
get age [2] => rows 0
delete {"name":"b\u0000c"} => row {"age":1,"name":"b\u0000c","tags":["a"]}
insert {"name":"c","age":2,"tags":["d","a\u0000b"]} => inserted
first tags ["a\u0000b"] => row {"age":2,"name":"c","tags":["d","a\u0000b"]}
"#,
    ),
    // The row stands once under each tag, and is counted once by a wipe.
    (
        USERS,
        r#"insert {"name":"ann","age":1,"tags":["b","a","b"]} => inserted
get tags [] => rows 2 {"age":1,"name":"ann","tags":["b","a","b"]} {"age":1,"name":"ann","tags":["b","a","b"]}
get tags ["b"] => rows 1 {"age":1,"name":"ann","tags":["b","a","b"]}
insert {"name":"ann","age":1,"tags":["b","b"]} => replaced
get tags [] => rows 1 {"age":1,"name":"ann","tags":["b","b"]}
insert {"name":"bob","age":1,"tags":["bb","b"]} => inserted
insert {"name":"cy","age":1,"tags":["c"]} => inserted
delete-prefix tags_prefix ["b"] => deleted 2
get tags [] => rows 1 {"age":1,"name":"cy","tags":["c"]}
get id [] => rows 1 {"age":1,"name":"cy","tags":["c"]}
get age [1] => rows 1 {"age":1,"name":"cy","tags":["c"]}
delete-all tags [] => deleted 1
get id [] => rows 0
"#,
    ),
    // Of a table with the index `id` alone.
    (
        KEYS,
        r#"insert {"key":"11111111-1111-1111-1111-111111111111"} => inserted
insert {"key":"12121212-1212-1212-1212-121212121212"} => inserted
insert {"key":"11110000-0000-0000-0000-000000000000"} => inserted
take-prefix id_prefix ["11"] => rows 2 {"key":"11110000-0000-0000-0000-000000000000"} {"key":"11111111-1111-1111-1111-111111111111"}
take-prefix id_prefix ["11"] => rows 0
get id [] => rows 1 {"key":"12121212-1212-1212-1212-121212121212"}
insert {"key":"11111111-1111-1111-1111-111111111111"} => inserted
take-all id ["12121212-1212-1212-1212-121212121212"] => rows 1 {"key":"12121212-1212-1212-1212-121212121212"}
take-all id [] => rows 1 {"key":"11111111-1111-1111-1111-111111111111"}
get id [] => rows 0
"#,
    ),
    // The rows of a wipe come in the order of their first listing, each once.
    (
        USERS,
        r#"insert {"name":"ann","age":2,"tags":["c","b"]} => inserted
insert {"name":"bob","age":1,"tags":["a","ab","d"]} => inserted
insert {"name":"cy","age":1,"tags":["ab"]} => inserted
insert {"name":"dan","age":1} => inserted
take-prefix tags_prefix ["b"] => rows 1 {"age":2,"name":"ann","tags":["c","b"]}
take-prefix tags ["a"] => refused no-prefix-name
take-all tags ["x"] => rows 0
take-all tags [] => rows 2 {"age":1,"name":"bob","tags":["a","ab","d"]} {"age":1,"name":"cy","tags":["ab"]}
insert {"name":"ann","age":2} => inserted
insert {"name":"eve","age":1} => inserted
get age [] => rows 3 {"age":1,"name":"dan"} {"age":1,"name":"eve"} {"age":2,"name":"ann"}
take-all age [] => rows 3 {"age":1,"name":"dan"} {"age":1,"name":"eve"} {"age":2,"name":"ann"}
get id [] => rows 0
"#,
    ),
];

/// The first line of all scripts that is answered otherwise.
fn first_wrong_line(alloc: Global) -> Wrong {
    for (schema, script) in &SCRIPTS {
        let wrong = first_wrong_of(alloc, schema, script)?;
        if wrong.is_some() {
            return Ok(wrong);
        }
    }
    Ok(None)
}

#[test]
fn each_line_of_a_script_is_answered_as_it_says(rt: HostRuntime) -> Result<(), Fail> {
    none_wrong(first_wrong_line(rt.alloc()))
}
