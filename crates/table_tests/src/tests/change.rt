//! A change is asked of its own rows, and the table that it began with of the old ones.
use super::RULES;
use super::played::answers;
use std::test::Fail;

static SCRIPT: &str = r#"insert {"dc":"east","name":"ann"} => inserted
insert {"dc":"west","name":"bob"} => inserted
stand
back
delete {"name":"ann"} => row {"dc":"east","name":"ann"}
insert {"dc":"east","name":"cy","svc":"web"} => inserted
insert {"dc":"north","name":"bob"} => replaced
old first id_prefix [] => row {"dc":"east","name":"ann"}
first id_prefix [] => row {"dc":"north","name":"bob"}
old get id ["ann"] => rows 1 {"dc":"east","name":"ann"}
get id ["ann"] => rows 0
old get-reverse path_prefix ["east","web"] => rows 0
get-reverse path_prefix ["east","web"] => rows 1 {"dc":"east","name":"cy","svc":"web"}
old longest path_prefix ["west","web"] => row {"dc":"west","name":"bob"}
longest path_prefix ["west","web"] => none
old get age [] => refused unknown-index
get age [] => refused unknown-index
"#;

#[test]
fn a_change_answers_of_its_own_rows(rt: HostRuntime) -> Result<(), Fail> {
    answers(rt.alloc(), RULES, SCRIPT)
}
