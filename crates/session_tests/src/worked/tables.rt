//! Worked sessions over tables of their own: a catalogue of nodes and services, and two tables of
//! which one is tracked.
use super::session::Session;

const CATALOGUE_SCHEMA: &str = r#"{"memdb":1,"tables":{
"nodes":{"indexes":{"id":{"unique":true,"indexer":{"kind":"text","field":"node","lowercase":true}},
"meta":{"allow_missing":true,"indexer":{"kind":"text_map","field":"meta"}},
"uuid":{"unique":true,"allow_missing":true,"indexer":{"kind":"uuid","field":"uuid"}}}},
"services":{"indexes":{"id":{"unique":true,"indexer":{"kind":"compound","parts":[
{"kind":"text","field":"node","lowercase":true},{"kind":"text","field":"sid","lowercase":true}]}},
"service":{"allow_missing":true,"indexer":{"kind":"text","field":"name","lowercase":true}},
"up":{"indexer":{"kind":"conditional","field":"status","equals":"passing"}}}}}}"#;

const CATALOGUE_SCRIPT: &str = r#"write
insert nodes {"node":"Web-1","uuid":"11111111-2222-3333-4444-555555555555","meta":{"rack":"r1"}}
insert services {"node":"web-1","sid":"api1","name":"api","status":"passing"}
insert services {"node":"web-1","sid":"api2","name":"api","status":"critical"}
defer registered web-1
defer told the ring
commit
read
first nodes id ["WEB-1"]
get nodes meta ["rack"]
get services id_prefix ["web-1","api2"]
watch up get services up [true]
end
write
insert services {"node":"web-1","sid":"api2","name":"api","status":"passing"}
commit
check up
write
delete-prefix services id_prefix ["web-1"]
delete-all nodes id
commit
read
get services service ["API"]
"#;

/// What its client is told.
const CATALOGUE_OUT: &str = r#"client 1 c1
1: write @0
2: inserted
3: inserted
4: inserted
5: deferred
6: deferred
7: commit @1
  did told the ring
  did registered web-1
8: read @1
9: row {"meta":{"rack":"r1"},"node":"Web-1","uuid":"11111111-2222-3333-4444-555555555555"}
10: rows 1
  {"meta":{"rack":"r1"},"node":"Web-1","uuid":"11111111-2222-3333-4444-555555555555"}
11: rows 1
  {"name":"api","node":"web-1","sid":"api2","status":"critical"}
12: rows 1
  {"name":"api","node":"web-1","sid":"api1","status":"passing"}
13: ended
14: write @1
15: replaced
16: commit @2
17: fired @2
18: write @2
19: deleted 2
20: deleted 1
21: commit @3
22: read @3
23: rows 0
"#;

/// Keys in lower case, of two parts, of each member of a map, and of a test.
pub(crate) static CATALOGUE: Session = Session {
    schema: CATALOGUE_SCHEMA,
    clients: &[("c1", &[(CATALOGUE_SCRIPT, 1)])],
    output: &[(CATALOGUE_OUT, 1)],
};

/// A commit tells the changes of the one table that is tracked, by their keys, before its texts: no
/// row that an equal one has replaced, none that came and went, and none of the other table.
pub(crate) static TRACKED: Session = Session {
    schema: r#"{"memdb":2,"tables":{
"t":{"tracked":true,"indexes":{"id":{"unique":true,"indexer":{"kind":"text","field":"name"}}}},
"u":{"indexes":{"id":{"unique":true,"indexer":{"kind":"text","field":"name"}}}}}}"#,
    clients: &[(
        "c1",
        &[(
            r#"write
insert t {"name":"b","n":1}
insert t {"name":"a"}
insert u {"name":"z"}
commit
write
insert t {"name":"b","n":2}
insert t {"name":"c"}
delete t {"name":"c"}
insert t {"name":"a"}
defer x
commit
write
delete t {"name":"a"}
commit
"#,
            1,
        )],
    )],
    output: &[(
        r#"client 1 c1
1: write @0
2: inserted
3: inserted
4: inserted
5: commit @1
  changed t none {"name":"a"}
  changed t none {"n":1,"name":"b"}
6: write @1
7: replaced
8: inserted
9: deleted
10: replaced
11: deferred
12: commit @2
  changed t {"n":1,"name":"b"} {"n":2,"name":"b"}
  did x
13: write @2
14: deleted
15: commit @3
  changed t {"name":"a"} none
"#,
        1,
    )],
};
