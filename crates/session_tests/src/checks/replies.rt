//! Outputs with a reply that its client can't be told.
use super::{Near, first_other};
use crate::worked::Worked;
use std::test::Fail;

static TRANSACTIONS: [Near; 11] = [
    (Worked::WriteAndRead, 3, "2: replaced", 3),
    (Worked::WriteAndRead, 3, "2: refused read-only x", 3),
    (Worked::WriteAndRead, 3, "2: refused ", 3),
    (Worked::WriteAndRead, 5, "4: read @0", 5),
    (Worked::WriteAndRead, 5, "4: read @2", 5),
    (
        Worked::WriteAndRead,
        6,
        "5: row {\"age\":4,\"name\":\"ann\"}",
        6,
    ),
    (Worked::WriteAndRead, 6, "5: none", 6),
    (Worked::WriteAndRead, 7, "6: row ", 7),
    (Worked::EachRule, 8, "7: refused missing", 8),
    (Worked::Wipes, 10, "9: deleted 3", 10),
    (Worked::UncommittedSnapshot, 4, "3: snapshot @0", 4),
];

#[test]
fn a_transaction_answers_from_its_rows(rt: HostRuntime) -> Result<(), Fail> {
    assert!(rt; first_other(rt.alloc(), &TRANSACTIONS)?.is_none());
    Ok(())
}

static FURTHER_LINES: [Near; 6] = [
    (Worked::OrderByKey, 12, "  {}", 11),
    (Worked::Catalogue, 9, "  did registered web-1", 8),
    (Worked::Tracked, 7, "  changed t none {}", 6),
    (
        Worked::Tracked,
        16,
        "  changed t none {\"n\":2,\"name\":\"b\"}",
        15,
    ),
    (Worked::Tracked, 17, "  did y", 15),
    (Worked::Tracked, 20, "15: commit @3\n  did x", 20),
];

#[test]
fn a_wrong_further_line_is_told_by_the_first_line_of_its_reply(
    rt: HostRuntime,
) -> Result<(), Fail> {
    assert!(rt; first_other(rt.alloc(), &FURTHER_LINES)?.is_none());
    Ok(())
}

static WATCHES: [Near; 12] = [
    (Worked::MissingKey, 13, "12: quiet @2", 13),
    (Worked::MissingKey, 14, "13: fired @2", 14),
    (Worked::MissingKey, 13, "12: fired @1", 13),
    (Worked::Neighbours, 14, "13: quiet @1", 14),
    (Worked::SetWaits, 11, "10: size 2", 11),
    (Worked::SetWaits, 13, "12: size 1", 14),
    (Worked::SetWaits, 18, "17: fired a @2", 18),
    // It may be told so, but then the client may not begin on commit 2.
    (Worked::SetWaits, 18, "17: fired b @3", 19),
    (Worked::SetWaits, 23, "22: fired a @3", 23),
    (Worked::SetWaits, 25, "24: stopped @2", 25),
    (Worked::Parked, 6, "5: fired w @0", 6),
    (Worked::Parked, 6, "5: fired v @1", 6),
];

#[test]
fn a_watch_is_quiet_or_fired_as_the_history_says(rt: HostRuntime) -> Result<(), Fail> {
    assert!(rt; first_other(rt.alloc(), &WATCHES)?.is_none());
    Ok(())
}
