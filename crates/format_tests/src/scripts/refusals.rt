//! Lines that break a rule, and which rule is told where they break several.
use crate::tables::{Form, are_lines_told};
use std::test::Fail;

static REFUSALS: &str = r#"// Unknown words.
reads => unknown-word 1
Read => unknown-word 1
until => unknown-word 1
firsts t id => unknown-word 1
delete_all t id => unknown-word 1
x , { => unknown-word 1
in s firsts t => unknown-word 1
in s insert t id => unknown-word 1
watch w firsts t id => unknown-word 1
watch w read t id => unknown-word 1
watch w in first t id => unknown-word 1
watch w in s in t id => unknown-word 1
watch , in s firsts => unknown-word 1
// Other shapes.
read x => bad-shape 1
write # => bad-shape 1
end end => bad-shape 1
commit 1 => bad-shape 1
abort {} => bad-shape 1
insert => bad-shape 1
insert t => bad-shape 1
insert , => bad-shape 1
delete => bad-shape 1
delete t => bad-shape 1
delete-all => bad-shape 1
delete-all t => bad-shape 1
delete-prefix t => bad-shape 1
defer => bad-shape 1
defer   => bad-shape 1
first => bad-shape 1
first t => bad-shape 1
longest , => bad-shape 1
snapshot => bad-shape 1
snapshot a b => bad-shape 1
snapshot , b => bad-shape 1
in => bad-shape 1
in s => bad-shape 1
in s first => bad-shape 1
in , first t => bad-shape 1
watch => bad-shape 1
watch w => bad-shape 1
watch w first t => bad-shape 1
watch w in => bad-shape 1
watch w in s => bad-shape 1
watch w in s first t => bad-shape 1
check => bad-shape 1
add s => bad-shape 1
add s w x => bad-shape 1
add-limit s 1 a => bad-shape 1
add-limit s 1 a b c => bad-shape 1
add-limit s 1000000000 a b => bad-shape 1
add-limit s -1 a b => bad-shape 1
add-limit , +1 a b => bad-shape 1
size => bad-shape 1
wait => bad-shape 1
wait s until => bad-shape 1
wait , Until w => bad-shape 1
wait s until w x => bad-shape 1
// Other names.
insert , {} => bad-name 1
insert t.u { => bad-name 1
delete ä {} => bad-name 1
delete-all , id => bad-name 1
delete-all t , => bad-name 1
delete-prefix t , [ => bad-name 1
first t, id { => bad-name 1
snapshot a.b => bad-name 1
in , first t id => bad-name 1
in s first , id { => bad-name 1
watch , first t id => bad-name 1
watch w first t , [ => bad-name 1
watch w in , first t id => bad-name 1
watch , in s first t id { => bad-name 1
add , w => bad-name 1
add s , => bad-name 1
add-limit , 1 a b => bad-name 1
add-limit s 1 , b => bad-name 1
add-limit s 1 a , => bad-name 1
size , => bad-name 1
wait , => bad-name 1
wait , until w => bad-name 1
wait s until , => bad-name 1
check 12345678901234567890123456789012345678901234567890123456789012345 => bad-name 1
get t 12345678901234567890123456789012345678901234567890123456789012345_prefix => bad-name 1
// Other documents.
insert t { => bad-doc 1
insert t [] => bad-doc 1
insert t null => bad-doc 1
insert t {} {} => bad-doc 1
insert t {"a":1.0} => bad-doc 1
insert t {"a":18446744073709551616} => bad-doc 1
delete t "a" => bad-doc 1
delete-all t id {} => bad-doc 1
delete-prefix t id 1 => bad-doc 1
get t id x => bad-doc 1
get t id [1.0] => bad-doc 1
get t id [[]] => bad-doc 1
get t id [1,{}] => bad-doc 1
get t id [] [] => bad-doc 1
get t id [1,] => bad-doc 1
in s get t id { => bad-doc 1
watch w get t id null => bad-doc 1
watch w in s get t id "a" => bad-doc 1
"#;

#[test]
fn broken_rules_are_told(rt: HostRuntime) -> Result<(), Fail> {
    are_lines_told(rt.alloc(), Form::Script, REFUSALS)
}
