//! What a change may do in place.
use super::TAGS;
use super::played::answers;
use std::test::Fail;

/// The second put of a row draws no id, where a question is asked between both.
static SCRIPT: &str = r#"insert {"name":"ann","tags":["a","b"]} => inserted
get id [] => rows 1 {"name":"ann","tags":["a","b"]}
left => fewer
insert {"name":"ann","tags":["a","b"]} => replaced
left => as before
back
insert {"name":"ann","tags":["a","b"]} => inserted
get tags [] => rows 2 {"name":"ann","tags":["a","b"]} {"name":"ann","tags":["a","b"]}
left => as before
insert {"name":"ann","tags":["a","b"]} => replaced
left => as before
"#;

// No clause says it: a question that is answered from a tree that was given ends what a change owns,
// and all proofs pass.
#[test]
fn a_question_leaves_a_change_its_own_nodes(rt: HostRuntime) -> Result<(), Fail> {
    answers(rt.alloc(), TAGS, SCRIPT)
}
