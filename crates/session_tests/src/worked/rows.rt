//! Worked sessions of one table, of one client and of two.
use super::session::Session;

/// One table `t`, whose one index is `id`, over the text `name`.
pub(crate) const ONE_TABLE: &str = r#"{"memdb":1,"tables":{"t":{"indexes":{
"id":{"unique":true,"indexer":{"kind":"text","field":"name"}}}}}}"#;

/// A client that writes a row and reads it back.
const ANN: &str = r#"write
insert t {"name":"ann","age":3}
commit
read
first t id ["ann"]
first t id ["bob"]
"#;

/// What that client is told.
pub(crate) const ANN_OUT: &str = r#"client 1 c1
1: write @0
2: inserted
3: commit @1
4: read @1
5: row {"age":3,"name":"ann"}
6: none
"#;

pub(crate) static WRITE_AND_READ: Session = Session {
    schema: ONE_TABLE,
    clients: &[("c1", &[(ANN, 1)])],
    output: &[(ANN_OUT, 1)],
};

/// The second insert of a row in a transaction replaces the first one's.
pub(crate) static INSERTED_TWICE: Session = Session {
    schema: ONE_TABLE,
    clients: &[(
        "c1",
        &[(
            r#"write
insert t {"name":"ann","age":3}
insert t {"name":"ann"}
commit
read
first t id ["ann"]
"#,
            1,
        )],
    )],
    output: &[(
        r#"client 1 c1
1: write @0
2: inserted
3: replaced
4: commit @1
5: read @1
6: row {"name":"ann"}
"#,
        1,
    )],
};

/// A client without a line.
pub(crate) static NO_LINES: Session = Session {
    schema: ONE_TABLE,
    clients: &[("c 1", &[("# nothing\n", 1)])],
    output: &[("client 1 c 1\n", 1)],
};

/// A client whose file is empty.
pub(crate) static EMPTY: Session = Session {
    schema: ONE_TABLE,
    clients: &[("c1", &[])],
    output: &[("client 1 c1\n", 1)],
};

/// Two clients that write a row each, one after the other.
pub(crate) static BOTH_WRITE: Session = Session {
    schema: ONE_TABLE,
    clients: &[
        ("c1", &[("write\ninsert t {\"name\":\"a\"}\ncommit\n", 1)]),
        ("c2", &[("write\ninsert t {\"name\":\"b\"}\ncommit\n", 1)]),
    ],
    output: &[(
        "client 1 c1\n1: write @0\n2: inserted\n3: commit @1\n\
client 2 c2\n1: write @1\n2: inserted\n3: commit @2\n",
        1,
    )],
};

/// A client that watches a table, and waits until a row of it is put.
const WAITS: &str = r#"read
watch w get t id
end
add s w
wait s
"#;

/// A client that puts a row at its fourth line and commits it at its fifth.
const COMMITS: &str = r#"write
abort
write
insert t {"name":"a"}
commit
"#;

/// What the two are told, where the first begins first.
const PARKED_OUT: &str = r#"client 1 c1
1: read @0
2: rows 0
3: ended
4: size 1
5: fired w @1
client 2 c2
1: write @0
2: aborted
3: write @0
4: inserted
5: commit @1
"#;

pub(crate) static PARKED: Session = Session {
    schema: ONE_TABLE,
    clients: &[("c1", &[(WAITS, 1)]), ("c2", &[(COMMITS, 1)])],
    output: &[(PARKED_OUT, 1)],
};
