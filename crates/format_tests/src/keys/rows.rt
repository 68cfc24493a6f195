//! Rows and their keys.

use crate::tables::{Form, are_lines_told};
use std::test::Fail;

/// The name of an index and a row, and its keys in hexadecimal or the refusal.
static ROWS: &str = r#"text {"f":"ann"} => 616e6e00;
text {"f":"Ann"} => 416e6e00;
folded {"f":"Ann@[Z"} => 616e6e405b7a00;
folded {"f":"Ä"} => c38400;
text {"f":"\u0000"} => 0000;
text {"f":""} => none
text {"f":null} => none
text {"g":"ann"} => none
text {"f":1} => WrongKind
text {"f":["ann"]} => WrongKind
list {"f":["b","","a","b"]} => 6200;6100;6200;
folded-list {"f":["B"]} => 6200;
list {"f":[""]} => none
list {"f":[]} => none
list {} => none
list {"f":"b"} => WrongKind
list {"f":["b",null]} => WrongKind
map {"f":{"":"y","a":"x"}} => 61007800;
folded-map {"f":{"B":"Y","A":"X"}} => 61007800;62007900;
map {"f":{"a":""}} => 610000;
map {"f":{"":"y"}} => none
map {"f":{}} => none
map {"f":{"":1}} => WrongKind
map {"f":[]} => WrongKind
uint1 {"f":0} => 00;
uint1 {"f":255} => ff;
uint1 {"f":256} => OutOfRange
uint1 {"f":-1} => OutOfRange
uint2 {"f":256} => 0100;
uint2 {"f":65535} => ffff;
uint2 {"f":65536} => OutOfRange
uint4 {"f":258} => 00000102;
uint4 {"f":4294967295} => ffffffff;
uint4 {"f":4294967296} => OutOfRange
uint8 {"f":1} => 0000000000000001;
uint8 {"f":18446744073709551615} => ffffffffffffffff;
uint2 {"f":null} => none
uint2 {"f":"1"} => WrongKind
int1 {"f":-128} => 00;
int1 {"f":-129} => OutOfRange
int1 {"f":-1} => 7f;
int1 {"f":0} => 80;
int1 {"f":127} => ff;
int1 {"f":128} => OutOfRange
int2 {"f":-32768} => 0000;
int2 {"f":-32769} => OutOfRange
int2 {"f":1} => 8001;
int2 {"f":32767} => ffff;
int2 {"f":32768} => OutOfRange
int4 {"f":-2147483648} => 00000000;
int4 {"f":-2147483649} => OutOfRange
int4 {"f":2147483647} => ffffffff;
int4 {"f":2147483648} => OutOfRange
int8 {"f":-9223372036854775808} => 0000000000000000;
int8 {"f":9223372036854775807} => ffffffffffffffff;
int8 {"f":9223372036854775808} => OutOfRange
int8 {} => none
int8 {"f":true} => WrongKind
uuid {"f":"12345678-9abc-def0-1234-56789ABCDEF0"} => 123456789abcdef0123456789abcdef0;
uuid {"f":""} => none
uuid {"f":"123456789abcdef0123456789abcdef0"} => BadUuid
uuid {"f":"{12345678-9abc-def0-1234-56789abcdef0}"} => BadUuid
uuid {"f":"12345678-9abc-def0-1234-56789abcdefg"} => BadUuid
uuid {"f":"123456789-abc-def0-1234-56789abcdef0"} => BadUuid
uuid {"f":7} => WrongKind
bool {"f":true} => 01;
bool {"f":false} => 00;
bool {} => none
bool {"f":0} => WrongKind
set {} => 00;
set {"f":null} => 00;
set {"f":false} => 00;
set {"f":0} => 00;
set {"f":""} => 00;
set {"f":[]} => 00;
set {"f":{}} => 00;
set {"f":true} => 01;
set {"f":-1} => 01;
set {"f":[null]} => 01;
set {"f":{"":0}} => 01;
is-null {} => 01;
is-null {"f":false} => 00;
is-one {"f":1} => 01;
is-one {"f":"1"} => 00;
is-on {"f":"on"} => 01;
is-on {"f":"On"} => 00;
is-on {"f":["on"]} => 00;
pair {"a":"east","b":"web"} => 656173740077656200;
pair {"a":"east"} => none
pair {"a":"x\u0000","b":"y"} => 7800007900;
pair {"a":"x","b":"\u0000y"} => 7800007900;
open-pair {"a":"east"} => 6561737400;
open-pair {"b":"web"} => ;
open-pair {"b":1} => ;
open-pair {"a":1} => WrongKind
mixed {"a":"x","b":256} => OutOfRange
mixed {"a":1,"b":256} => WrongKind
mixed {"b":256} => none
// At most 256 keys of a row, and 1,024 bytes of a key.
text {"f":"~1023 x~"} => ~1023 78~00;
text {"f":"~1024 x~"} => TooLong
list {"f":["x"~255 ,"x"~]} => ~256 7800;~
list {"f":["x"~256 ,"x"~]} => TooMany
pair {"b":"z","a":"~1021 x~"} => ~1021 78~007a00;
pair {"b":"z","a":"~1022 x~"} => TooLong
"#;

#[test]
fn rows_give_their_keys(rt: HostRuntime) -> Result<(), Fail> {
    are_lines_told(rt.alloc(), Form::Row, ROWS)
}
