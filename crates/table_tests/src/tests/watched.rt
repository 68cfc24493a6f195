//! The watch of a question moves exactly where a change copies or drops what it guards.
use super::USERS;
use super::played::answers;
use std::test::Fail;

/// The rows stand at the paths `foo` and `football`, each with its end byte. A look-up of a missing
/// key is guarded by the node where the key leaves the tree: that of the common prefix `foo`, or of
/// `football` where the key goes on towards it. A list by a whole key is guarded by a node, and not
/// by the key's leaf.
static MOVED: &str = r#"insert {"age":1,"name":"foo"} => inserted
insert {"age":2,"name":"football"} => inserted
stand
back
insert {"age":3,"name":"fool"} => inserted
end
moved first id ["fool"] => moved
moved first id ["foo"] => kept
insert {"age":3,"name":"foot"} => inserted
end
moved first id ["foot"] => moved
moved last id ["foo"] => kept
delete {"name":"football"} => row {"age":2,"name":"football"}
end
moved get id_prefix ["fo"] => moved
moved first id ["foo"] => kept
moved first id ["football"] => moved
insert {"age":3,"name":"foop"} => inserted
end
moved first id ["fool"] => moved
moved first id ["foot"] => kept
moved get id ["football"] => kept
moved get-reverse id [] => moved
"#;

#[test]
fn a_watch_moves_with_what_it_guards(rt: HostRuntime) -> Result<(), Fail> {
    answers(rt.alloc(), USERS, MOVED)
}

/// Questions that aren't watched, whatever other rule they break, and one that is.
static UNWATCHED: &str = r#"insert {"age":1,"name":"foo"} => inserted
insert {"age":2,"name":"football"} => inserted
stand
watch lower id ["foo"] => refused unwatchable
watch reverse-lower none [] => refused unwatchable
watch longest id ["foo"] => refused unwatchable
watch first id ["foo"] => watched
"#;

#[test]
fn a_question_for_bounds_is_not_watched(rt: HostRuntime) -> Result<(), Fail> {
    answers(rt.alloc(), USERS, UNWATCHED)
}
