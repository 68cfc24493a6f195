//! Worked sessions that watch.
use super::session::Session;
use super::users::USERS;

/// Two rows are committed whose names begin with the same letters, and a read transaction begins.
const TWO_ROWS: &str = r#"write
insert users {"name":"foo","age":1}
insert users {"name":"football","age":2}
commit
read
"#;

const TWO_ROWS_OUT: &str = r#"client 1 c1
1: write @0
2: inserted
3: inserted
4: commit @1
5: read @1
"#;

/// The question that most of these sessions watch.
const WATCH_FOOL: &str = r#"watch w first users id ["fool"]
"#;

/// A row that is there is watched beside it, and a write begins.
const WATCH_FOO_AND_WRITE: &str = r#"watch k first users id ["foo"]
end
write
"#;

/// The write is committed, and both watches are looked at.
const COMMIT_AND_CHECK: &str = r#"commit
check w
check k
"#;

/// One key is missing and the other is there, and then the first watch has fired alone.
const ONE_FIRES: &str = r#"6: none
7: row {"age":1,"name":"foo"}
8: ended
9: write @1
10: inserted
11: commit @2
12: fired @2
13: quiet @2
"#;

/// A watch of a key that isn't there fires when the key is put, and one of another key stays quiet.
pub(crate) static MISSING_KEY: Session = Session {
    schema: USERS,
    clients: &[(
        "c1",
        &[
            (TWO_ROWS, 1),
            (WATCH_FOOL, 1),
            (WATCH_FOO_AND_WRITE, 1),
            (
                r#"insert users {"name":"fool","age":3}
"#,
                1,
            ),
            (COMMIT_AND_CHECK, 1),
        ],
    )],
    output: &[(TWO_ROWS_OUT, 1), (ONE_FIRES, 1)],
};

/// The same where the new key splits a prefix.
pub(crate) static SPLIT: Session = Session {
    schema: USERS,
    clients: &[(
        "c1",
        &[
            (TWO_ROWS, 1),
            (
                r#"watch w first users id ["foot"]
"#,
                1,
            ),
            (WATCH_FOO_AND_WRITE, 1),
            (
                r#"insert users {"name":"foot","age":3}
"#,
                1,
            ),
            (COMMIT_AND_CHECK, 1),
        ],
    )],
    output: &[(TWO_ROWS_OUT, 1), (ONE_FIRES, 1)],
};

/// A delete that merges a node fires the watch of what begins with its path.
pub(crate) static MERGE: Session = Session {
    schema: USERS,
    clients: &[(
        "c1",
        &[
            (TWO_ROWS, 1),
            (
                r#"watch w get users id_prefix ["fo"]
"#,
                1,
            ),
            (WATCH_FOO_AND_WRITE, 1),
            (
                r#"delete users {"name":"football"}
"#,
                1,
            ),
            (COMMIT_AND_CHECK, 1),
        ],
    )],
    output: &[
        (TWO_ROWS_OUT, 1),
        (
            r#"6: rows 2
  {"age":1,"name":"foo"}
  {"age":2,"name":"football"}
7: row {"age":1,"name":"foo"}
8: ended
9: write @1
10: deleted
11: commit @2
12: fired @2
13: quiet @2
"#,
            1,
        ),
    ],
};

/// Another table's commit fires nothing.
pub(crate) static OTHER_TABLE: Session = Session {
    schema: USERS,
    clients: &[(
        "c1",
        &[
            (TWO_ROWS, 1),
            (WATCH_FOOL, 1),
            (WATCH_FOO_AND_WRITE, 1),
            (
                r#"insert notes {"name":"n"}
commit
check w
"#,
                1,
            ),
        ],
    )],
    output: &[
        (TWO_ROWS_OUT, 1),
        (
            r#"6: none
7: row {"age":1,"name":"foo"}
8: ended
9: write @1
10: inserted
11: commit @2
12: quiet @2
"#,
            1,
        ),
    ],
};

/// A watch fires where the node beside its key was copied, though its answer is as before.
pub(crate) static NEIGHBOURS: Session = Session {
    schema: USERS,
    clients: &[(
        "c1",
        &[
            (TWO_ROWS, 1),
            (WATCH_FOOL, 1),
            (
                r#"watch f first users id ["foot"]
end
write
insert users {"name":"foop","age":3}
commit
check w
check f
"#,
                1,
            ),
        ],
    )],
    output: &[
        (TWO_ROWS_OUT, 1),
        (
            r#"6: none
7: none
8: ended
9: write @1
10: inserted
11: commit @2
12: fired @2
13: quiet @2
"#,
            1,
        ),
    ],
};

/// What is aborted fires nothing.
pub(crate) static ABORT: Session = Session {
    schema: USERS,
    clients: &[(
        "c1",
        &[
            (TWO_ROWS, 1),
            (WATCH_FOOL, 1),
            (WATCH_FOO_AND_WRITE, 1),
            (
                r#"insert users {"name":"fool","age":3}
abort
check w
write
commit
check w
"#,
                1,
            ),
        ],
    )],
    output: &[
        (TWO_ROWS_OUT, 1),
        (
            r#"6: none
7: row {"age":1,"name":"foo"}
8: ended
9: write @1
10: inserted
11: aborted
12: quiet @1
13: write @1
14: commit @2
15: quiet @2
"#,
            1,
        ),
    ],
};

/// A set has each cell once, and a wait tells its first member that has fired, or what cancels it.
pub(crate) static SET_WAITS: Session = Session {
    schema: USERS,
    clients: &[(
        "c1",
        &[(
            r#"write
insert users {"name":"ann","age":1}
commit
read
watch a first users id ["ann"]
watch b get users id_prefix ["b"]
watch c get notes id
end
add s a
add-limit s 1 b a
add t a
add s b
size s
write
insert users {"name":"bob","age":2}
commit
wait s
write
insert notes {"name":"n"}
wait t
commit
wait t until c
add-limit r 1 b a
wait r until c
"#,
            1,
        )],
    )],
    output: &[(
        r#"client 1 c1
1: write @0
2: inserted
3: commit @1
4: read @1
5: row {"age":1,"name":"ann"}
6: rows 0
7: rows 0
8: ended
9: size 1
10: size 1
11: size 1
12: size 2
13: size 2
14: write @1
15: inserted
16: commit @2
17: fired b @2
18: write @2
19: inserted
20: refused write-open
21: commit @3
22: stopped @3
23: size 1
24: fired b @3
"#,
        1,
    )],
};

/// Each rule of the lines of watches, and the order in which they are told.
pub(crate) static WATCH_RULES: Session = Session {
    schema: USERS,
    clients: &[(
        "c1",
        &[(
            r#"watch w get users id
read
snapshot s
watch w get user id
watch w lower user age
watch w lower users age [1]
watch w get users ids
check w
watch w get users id
watch w get users ids
watch w in t get users id
watch w in s get users id
watch x in s get users id
check x
end
add t y
add-limit t 1 w y
add-limit t 1 y w
size t
wait t
add t w
add t x
wait t until y
write
snapshot u
check y
wait t until y
wait y
watch w get users ids
watch y get users ids
watch y in u get users ids
watch w in u get users ids
watch y in s get users id
abort
check y
"#,
            1,
        )],
    )],
    output: &[(
        r#"client 1 c1
1: refused no-transaction
2: read @0
3: snapshot @0
4: refused unknown-table
5: refused unknown-table
6: refused unwatchable
7: refused unknown-index
8: refused unknown-name
9: rows 0
10: refused name-taken
11: refused unknown-name
12: refused name-taken
13: rows 0
14: quiet @0
15: ended
16: refused unknown-name
17: refused unknown-name
18: refused unknown-name
19: refused unknown-name
20: refused unknown-name
21: size 1
22: size 1
23: refused unknown-name
24: write @0
25: snapshot @0+
26: refused write-open
27: refused write-open
28: refused write-open
29: refused name-taken
30: refused uncommitted
31: refused uncommitted
32: refused name-taken
33: rows 0
34: aborted
35: quiet @0
"#,
        1,
    )],
};
