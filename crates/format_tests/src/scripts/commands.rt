//! Lawful lines.
use crate::tables::{Form, are_lines_told};
use std::test::Fail;

static COMMANDS: &str = r#"// Each command.
read => 1 read;
write => 1 write;
end => 1 end;
commit => 1 commit;
abort => 1 abort;
insert t {"id":1} => 1 insert t {"id":1};
delete t {"id":1} => 1 delete t {"id":1};
delete-all t id => 1 delete-all get t id 0;
delete-all t id ["a"] => 1 delete-all get t id 1;
delete-prefix t id_prefix ["a"] => 1 delete-prefix get t id_prefix 1;
first t id => 1 first t id 0;
last t id [] => 1 last t id 0;
get t id [null] => 1 get t id 1;
get-reverse t id [true,false] => 1 get-reverse t id 2;
lower t id [-1, 18446744073709551615] => 1 lower t id 2;
reverse-lower t id ["a", "b", 3] => 1 reverse-lower t id 3;
longest t id_prefix ["\u0000"] => 1 longest t id_prefix 1;
snapshot s => 1 snapshot s;
in s get t id [1] => 1 in s get t id 1;
in in first in in => 1 in in first in in 0;
watch w first t id => 1 watch w first t id 0;
watch w in s first t id => 1 watch w in s first t id 0;
watch in in in last t id [1] => 1 watch in in in last t id 1;
check w => 1 check w;
add s w => 1 add s w;
add-limit s 0 a b => 1 add-limit s 0 a b;
add-limit s 999999999 a b => 1 add-limit s 999999999 a b;
size s => 1 size s;
wait s => 1 wait s;
wait s until w => 1 wait-until s w;
// Names of 1 and of 64 bytes, and an index's name of 71.
check _ => 1 check _;
check - => 1 check -;
check Az09_- => 1 check Az09_-;
check 1234567890123456789012345678901234567890123456789012345678901234 => 1 check 1234567890123456789012345678901234567890123456789012345678901234;
get t 1234567890123456789012345678901234567890123456789012345678901234_prefix => 1 get t 1234567890123456789012345678901234567890123456789012345678901234_prefix 0;
// A document is the rest of the line; of several members of one name the last counts.
insert t {} => 1 insert t {};
insert t {"a":1,"a":"\u00e4"} => 1 insert t {"a":"ä"};
insert t {"a":{"b":[null,{}]}} => 1 insert t {"a":{"b":[null,{}]}};
"#;

#[test]
fn each_command_is_read(rt: HostRuntime) -> Result<(), Fail> {
    are_lines_told(rt.alloc(), Form::Script, COMMANDS)
}
