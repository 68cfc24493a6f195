//! Writes near the end of the ids, and the notices of a change.
use super::TAGS;
use super::played::answers;
use std::test::Fail;

/// A row may draw 67108864 ids, and the trees of a table draw two. A refusal that the row itself
/// gives comes first.
static PUTS: &str = r#"ids 67108866
insert {"name":"ann"} => inserted
ids 67108865
insert {"name":"ann"} => refused ids-spent
ids 5000
insert {"name":"ann"} => refused ids-spent
ids 5000
insert {"tags":["a"]} => refused no-id
"#;

#[test]
fn a_put_without_ids_is_refused_last(rt: HostRuntime) -> Result<(), Fail> {
    answers(rt.alloc(), TAGS, PUTS)
}

/// The rows draw fewer than 100 ids. Three entries are listed of two rows.
static WIPES: &str = r#"ids 134217828
insert {"name":"ann","tags":["ab","ac","b"]} => inserted
insert {"name":"bob","tags":["ab"]} => inserted
delete-all tags_prefix ["a"] => deleted 2
ids 134217728
insert {"name":"ann","tags":["ab","ac","b"]} => inserted
insert {"name":"bob","tags":["ab"]} => inserted
delete-all tags_prefix ["a"] => refused ids-spent
ids 134217728
insert {"name":"ann","tags":["ab","ac","b"]} => inserted
insert {"name":"bob","tags":["ab"]} => inserted
delete-all tags_prefix ["b"] => deleted 1
ids 134217728
insert {"name":"ann","tags":["ab","ac","b"]} => inserted
insert {"name":"bob","tags":["ab"]} => inserted
delete-all tags_prefix ["c"] => deleted 0
"#;

#[test]
fn a_wipe_wants_ids_for_each_row_once(rt: HostRuntime) -> Result<(), Fail> {
    answers(rt.alloc(), TAGS, WIPES)
}

/// In the tree of names the root goes, whose edges are `ann` and `bob`; a tag `d` is a new edge of
/// the root of the other, and a name with the first letters of another splits its node, which keeps
/// its leaf.
static NOTICES: &str = r#"insert {"name":"ann","tags":["ab","ac","b"]} => inserted
insert {"name":"bob","tags":["ab"]} => inserted
stand
back
end
cells => 2 with 0 0 none
insert {"name":"cy"} => inserted
end
cells => 2 with 1 0 none
insert {"name":"cy","tags":["d"]} => inserted
end
cells => 2 with 1 1 none
insert {"name":"anna"} => inserted
end
cells => 2 with 2 0 none
"#;

#[test]
fn each_index_has_a_notice(rt: HostRuntime) -> Result<(), Fail> {
    answers(rt.alloc(), TAGS, NOTICES)
}
