//! Wipes, told by their counts and by those of the wipes that come after them.
use super::TAGS;
use super::played::answers;
use std::test::Fail;

/// Rows of which one has two tags that begin with `a`, and one has none; wipes of them; and after
/// each how many rows with tags are left, and how many others.
static WIPES: &str = r#"insert {"name":"abe","tags":[]} => inserted
insert {"name":"ann","tags":["ab","ac","b"]} => inserted
insert {"name":"bob","tags":["ab"]} => inserted
insert {"name":"cy","tags":["b"]} => inserted
stand
back
delete-prefix tags_prefix ["a"] => deleted 2
delete-all tags [] => deleted 1
delete-all id [] => deleted 1
back
delete-all tags ["b"] => deleted 2
delete-all tags [] => deleted 1
delete-all id [] => deleted 1
back
delete-prefix id_prefix ["a"] => deleted 2
delete-all tags [] => deleted 2
delete-all id [] => deleted 0
back
delete-all id [] => deleted 4
delete-all tags [] => deleted 0
delete-all id [] => deleted 0
back
delete-all tags ["zz"] => deleted 0
delete-all tags [] => deleted 3
delete-all id [] => deleted 1
"#;

#[test]
fn each_listed_row_goes_once(rt: HostRuntime) -> Result<(), Fail> {
    answers(rt.alloc(), TAGS, WIPES)
}

/// Wipes of a table without rows, and the rules that they break. The same questions are asked for
/// the longest key, but what is asked is no part of a wipe.
static CHECKS: &str = r#"check-all age [] => refused unknown-index
check-prefix id [1] => refused no-prefix-name
check-prefix age_prefix [] => refused unknown-index
check-all tags [1] => refused arg-kind
check-all id ["a","b"] => refused arg-count
check-all tags [] => allowed
check-prefix tags_prefix [] => allowed
"#;

#[test]
fn a_broken_rule_is_told_before_a_change(rt: HostRuntime) -> Result<(), Fail> {
    answers(rt.alloc(), TAGS, CHECKS)
}
