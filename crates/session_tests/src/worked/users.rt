//! Worked sessions over keys, notes, rules and users.
use super::session::Session;

/// Keys, which are tracked, notes, rules and users: each kind of index but those of a catalogue.
pub(crate) const USERS: &str = r#"{"memdb":2,"tables":{
"keys":{"tracked":true,"indexes":{"id":{"unique":true,"indexer":{"kind":"uuid","field":"key"}}}},
"notes":{"indexes":{"id":{"unique":true,"indexer":{"kind":"text","field":"name"}}}},
"rules":{"indexes":{"id":{"unique":true,"indexer":{"kind":"text","field":"name"}},
"path":{"unique":true,"indexer":{"kind":"compound","allow_missing":true,"parts":[
{"kind":"text","field":"dc"},{"kind":"text","field":"svc"}]}}}},
"users":{"indexes":{"age":{"indexer":{"kind":"uint","field":"age","width":2}},
"id":{"unique":true,"indexer":{"kind":"text","field":"name"}},
"mail":{"unique":true,"allow_missing":true,"indexer":{"kind":"text","field":"mail"}},
"tags":{"allow_missing":true,"indexer":{"kind":"text_list","field":"tags"}}}}}}"#;

/// A row is committed, read, replaced, and read again.
pub(crate) static OWN_COMMIT: Session = Session {
    schema: USERS,
    clients: &[(
        "c1",
        &[(
            r#"write
insert users {"name":"ann","age":3}
commit
read
first users id ["ann"]
end
write
insert users {"name":"ann","age":4}
commit
read
get users age [3]
get users age [4]
"#,
            1,
        )],
    )],
    output: &[(
        r#"client 1 c1
1: write @0
2: inserted
3: commit @1
4: read @1
5: row {"age":3,"name":"ann"}
6: ended
7: write @1
8: replaced
9: commit @2
10: read @2
11: rows 0
12: rows 1
  {"age":4,"name":"ann"}
"#,
        1,
    )],
};

/// A transaction sees its own writes, in the order of their keys; a snapshot keeps its rows.
pub(crate) static ORDER_BY_KEY: Session = Session {
    schema: USERS,
    clients: &[(
        "c1",
        &[(
            r#"read
get users id []
snapshot s
in s get users id
end
write
insert users {"name":"cy","age":1}
insert users {"name":"bob","age":2}
insert users {"name":"ann","age":3}
get users id
last users id
in s get users id
commit
in s get users id
"#,
            1,
        )],
    )],
    output: &[(
        r#"client 1 c1
1: read @0
2: rows 0
3: snapshot @0
4: rows 0
5: ended
6: write @0
7: inserted
8: inserted
9: inserted
10: rows 3
  {"age":3,"name":"ann"}
  {"age":2,"name":"bob"}
  {"age":1,"name":"cy"}
11: row {"age":1,"name":"cy"}
12: rows 0
13: commit @1
14: rows 0
"#,
        1,
    )],
};

/// A text ends where it ends, unless the index is asked by its name with `_prefix`.
pub(crate) static END_BYTE: Session = Session {
    schema: USERS,
    clients: &[(
        "c1",
        &[(
            r#"write
insert users {"name":"ann","age":1}
insert users {"name":"anna","age":2}
commit
read
get users id ["ann"]
get users id_prefix ["ann"]
first users id ["an"]
get-reverse users id_prefix ["an"]
"#,
            1,
        )],
    )],
    output: &[(
        r#"client 1 c1
1: write @0
2: inserted
3: inserted
4: commit @1
5: read @1
6: rows 1
  {"age":1,"name":"ann"}
7: rows 2
  {"age":1,"name":"ann"}
  {"age":2,"name":"anna"}
8: none
9: rows 2
  {"age":2,"name":"anna"}
  {"age":1,"name":"ann"}
"#,
        1,
    )],
};

/// Numbers of two bytes, from a bound on and down to one.
pub(crate) static BOUNDS: Session = Session {
    schema: USERS,
    clients: &[(
        "c1",
        &[(
            r#"write
insert users {"name":"x","age":255}
insert users {"name":"y","age":256}
lower users age [256]
lower users age [65536]
reverse-lower users age [256]
reverse-lower users age [257]
reverse-lower users age []
"#,
            1,
        )],
    )],
    output: &[(
        r#"client 1 c1
1: write @0
2: inserted
3: inserted
4: rows 1
  {"age":256,"name":"y"}
5: refused out-of-range
6: rows 1
  {"age":255,"name":"x"}
7: rows 2
  {"age":256,"name":"y"}
  {"age":255,"name":"x"}
8: refused arg-count
"#,
        1,
    )],
};

/// A full key that another row has.
pub(crate) static TAKEN_KEY: Session = Session {
    schema: USERS,
    clients: &[(
        "c1",
        &[(
            r#"write
insert users {"name":"ann","age":1,"mail":"m"}
insert users {"name":"bob","age":2,"mail":"m"}
insert users {"name":"bob","age":2}
get users mail
commit
"#,
            1,
        )],
    )],
    output: &[(
        r#"client 1 c1
1: write @0
2: inserted
3: refused key-taken mail
4: inserted
5: rows 1
  {"age":1,"mail":"m","name":"ann"}
6: commit @1
"#,
        1,
    )],
};

/// A key that is a UUID, and prefixes of it.
pub(crate) static UUID: Session = Session {
    schema: USERS,
    clients: &[(
        "c1",
        &[(
            r#"write
insert keys {"key":"12345678-9abc-def0-1234-56789abcdef0"}
get keys id_prefix ["12-34"]
get keys id_prefix ["123"]
first keys id ["12345678-9abc-def0-1234-56789abcdef"]
"#,
            1,
        )],
    )],
    output: &[(
        r#"client 1 c1
1: write @0
2: inserted
3: rows 1
  {"key":"12345678-9abc-def0-1234-56789abcdef0"}
4: refused bad-uuid
5: refused bad-uuid
"#,
        1,
    )],
};

/// A row can be deleted once, and a watch that was refused isn't there.
pub(crate) static REPEATED: Session = Session {
    schema: USERS,
    clients: &[(
        "c1",
        &[(
            r#"write
insert users {"name":"bob","age":2}
delete users {"name":"bob"}
delete users {"name":"bob"}
commit
read
watch w lower users age [1]
check w
"#,
            1,
        )],
    )],
    output: &[(
        r#"client 1 c1
1: write @0
2: inserted
3: deleted
4: refused not-found
5: commit @1
6: read @1
7: refused unwatchable
8: refused unknown-name
"#,
        1,
    )],
};

/// Rows are written, committed, and asked for in each way.
pub(crate) static EACH_QUESTION: Session = Session {
    schema: USERS,
    clients: &[(
        "c1",
        &[(
            r#"write
insert users {"name":"ann","age":255}
insert users {"name":"anna","age":1}
insert users {"name":"anna","age":256}
insert rules {"dc":"east","name":"a"}
insert rules {"dc":"east","name":"b","svc":"web"}
commit
read
first users id ["ann"]
last users id
get users age [1]
get users id_prefix ["ann"]
get-reverse users id_prefix ["an"]
lower users age [256]
reverse-lower users age [256]
longest rules path_prefix ["east","db"]
end
"#,
            1,
        )],
    )],
    output: &[(
        r#"client 1 c1
1: write @0
2: inserted
3: inserted
4: replaced
5: inserted
6: inserted
7: commit @1
8: read @1
9: row {"age":255,"name":"ann"}
10: row {"age":256,"name":"anna"}
11: rows 0
12: rows 2
  {"age":255,"name":"ann"}
  {"age":256,"name":"anna"}
13: rows 2
  {"age":256,"name":"anna"}
  {"age":255,"name":"ann"}
14: rows 1
  {"age":256,"name":"anna"}
15: rows 1
  {"age":255,"name":"ann"}
16: row {"dc":"east","name":"a"}
17: ended
"#,
        1,
    )],
};

/// Each rule that a line may break, but those of watches.
pub(crate) static EACH_RULE: Session = Session {
    schema: USERS,
    clients: &[(
        "c1",
        &[(
            r#"insert users {"name":"a","age":1}
read
write
insert users {"name":"a","age":1}
get user id
get users ids
get users age_prefix [1]
get users age ["1"]
get users age [1,2]
longest users id ["a"]
longest users tags_prefix ["a"]
commit
end
end
write
end
insert users {"age":1}
insert users {"name":5,"age":1}
insert users {"name":"a"}
insert users {"name":"a","age":70000}
insert users {"name":"a","age":1,"tags":"x"}
insert users {"name":"","age":1}
insert user {"name":"a"}
delete-prefix users id ["a"]
insert users {"name":"a","age":1,"mail":"m"}
insert users {"name":"b","age":1,"mail":"m"}
delete users {"name":"b"}
get keys id_prefix ["123"]
snapshot s
snapshot s
in u get users id
abort
abort
"#,
            1,
        )],
    )],
    output: &[(
        r#"client 1 c1
1: refused no-transaction
2: read @0
3: refused transaction-open
4: refused read-only
5: refused unknown-table
6: refused unknown-index
7: refused no-prefix-form
8: refused arg-kind
9: refused arg-count
10: refused no-prefix-name
11: refused not-unique
12: refused read-only
13: ended
14: refused no-transaction
15: write @0
16: refused write-open
17: refused no-id
18: refused wrong-kind id
19: refused missing age
20: refused out-of-range age
21: refused wrong-kind tags
22: refused no-id
23: refused unknown-table
24: refused no-prefix-name
25: inserted
26: refused key-taken mail
27: refused not-found
28: refused bad-uuid
29: snapshot @0+
30: refused name-taken
31: refused unknown-name
32: aborted
33: refused no-transaction
"#,
        1,
    )],
};

/// A snapshot keeps the writes so far, and has no watch; an abort leaves nothing.
pub(crate) static UNCOMMITTED_SNAPSHOT: Session = Session {
    schema: USERS,
    clients: &[(
        "c1",
        &[(
            r#"write
insert users {"name":"a","age":1}
snapshot s
delete users {"name":"a"}
in s get users id
get users id
abort
in s first users id ["a"]
watch w in s first users id ["a"]
read
get users id
"#,
            1,
        )],
    )],
    output: &[(
        r#"client 1 c1
1: write @0
2: inserted
3: snapshot @0+
4: deleted
5: rows 1
  {"age":1,"name":"a"}
6: rows 0
7: aborted
8: row {"age":1,"name":"a"}
9: refused uncommitted
10: read @0
11: rows 0
"#,
        1,
    )],
};

/// The row of the longest key that is a prefix.
pub(crate) static LONGEST_PREFIX: Session = Session {
    schema: USERS,
    clients: &[(
        "c1",
        &[(
            r#"write
insert rules {"dc":"east","name":"a"}
insert rules {"dc":"east","name":"b","svc":"web"}
longest rules path_prefix ["east","db"]
longest rules path_prefix ["east","web"]
longest rules path_prefix ["west"]
"#,
            1,
        )],
    )],
    output: &[(
        r#"client 1 c1
1: write @0
2: inserted
3: inserted
4: row {"dc":"east","name":"a"}
5: row {"dc":"east","name":"a"}
6: none
"#,
        1,
    )],
};

/// Wipes tell how many rows they took out; deferred texts are handed out once, the last first.
pub(crate) static WIPES: Session = Session {
    schema: USERS,
    clients: &[(
        "c1",
        &[(
            r#"write
insert users {"name":"ann","age":1}
insert users {"name":"anna","age":2}
insert users {"name":"bob","age":1}
defer the first
defer the second
delete-prefix users id_prefix ["ann"]
delete-all users age [1]
get users id
commit
write
commit
"#,
            1,
        )],
    )],
    output: &[(
        r#"client 1 c1
1: write @0
2: inserted
3: inserted
4: inserted
5: deferred
6: deferred
7: deleted 2
8: deleted 1
9: rows 0
10: commit @1
  did the second
  did the first
11: write @1
12: commit @2
"#,
        1,
    )],
};

/// A name is taken for the whole session, and the snapshot that has it stays.
pub(crate) static NAMES: Session = Session {
    schema: USERS,
    clients: &[(
        "c1",
        &[(
            r#"in s get notes id
snapshot s
read
snapshot s
end
write
insert notes {"name":"n"}
snapshot s
snapshot t
in s get notes id
in t get notes id
in u get notes id
"#,
            1,
        )],
    )],
    output: &[(
        r#"client 1 c1
1: refused unknown-name
2: refused no-transaction
3: read @0
4: snapshot @0
5: ended
6: write @0
7: inserted
8: refused name-taken
9: snapshot @0+
10: rows 0
11: rows 1
  {"name":"n"}
12: refused unknown-name
"#,
        1,
    )],
};

/// Lines without a command are counted; the transaction at the end stays open.
pub(crate) static SILENT_LINES: Session = Session {
    schema: USERS,
    clients: &[(
        "c1",
        &[(
            "# a comment\n\nwrite\r\n \t\n  insert notes {\"name\":\"n\"}\n#commit\nget notes id",
            1,
        )],
    )],
    output: &[(
        "client 1 c1\n3: write @0\n5: inserted\n7: rows 1\n  {\"name\":\"n\"}\n",
        1,
    )],
};

/// A commit tells its changes of the one tracked table by their keys, before its texts: no row that
/// an equal one has replaced, none that came and went, and none of another table.
pub(crate) static TRACKED_KEYS: Session = Session {
    schema: USERS,
    clients: &[(
        "c1",
        &[(
            r#"write
insert keys {"key":"00000000-0000-0000-0000-00000000000b","of":"b"}
insert keys {"key":"00000000-0000-0000-0000-00000000000a"}
insert notes {"name":"n"}
defer told
commit
write
insert keys {"key":"00000000-0000-0000-0000-00000000000a"}
insert keys {"key":"00000000-0000-0000-0000-00000000000b","of":"c"}
insert keys {"key":"00000000-0000-0000-0000-00000000000c"}
delete keys {"key":"00000000-0000-0000-0000-00000000000c"}
commit
write
delete keys {"key":"00000000-0000-0000-0000-00000000000a"}
commit
"#,
            1,
        )],
    )],
    output: &[(
        r#"client 1 c1
1: write @0
2: inserted
3: inserted
4: inserted
5: deferred
6: commit @1
  changed keys none {"key":"00000000-0000-0000-0000-00000000000a"}
  changed keys none {"key":"00000000-0000-0000-0000-00000000000b","of":"b"}
  did told
7: write @1
8: replaced
9: replaced
10: inserted
11: deleted
12: commit @2
  changed keys {"key":"00000000-0000-0000-0000-00000000000b","of":"b"} {"key":"00000000-0000-0000-0000-00000000000b","of":"c"}
13: write @2
14: deleted
15: commit @3
  changed keys {"key":"00000000-0000-0000-0000-00000000000a"} none
"#,
        1,
    )],
};
