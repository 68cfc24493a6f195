//! Outputs of another shape.
use super::{Near, first_other};
use crate::worked::Worked;
use std::test::Fail;

static LINES: [Near; 18] = [
    (Worked::WriteAndRead, 1, "client 2 c1", 1),
    (Worked::WriteAndRead, 1, "client 1 c2", 1),
    (Worked::WriteAndRead, 1, "client 1 c1 ", 1),
    (Worked::WriteAndRead, 1, "client 01 c1", 1),
    (Worked::BothWrite, 5, "client 1 c2", 5),
    (Worked::WriteAndRead, 3, "3: inserted", 3),
    (Worked::WriteAndRead, 3, "2:inserted", 3),
    (Worked::WriteAndRead, 3, "02: inserted", 3),
    (Worked::WriteAndRead, 3, "2: inserted ", 3),
    (Worked::WriteAndRead, 3, "2: deleted", 3),
    (Worked::WriteAndRead, 4, "3: commit @01", 4),
    (
        Worked::WriteAndRead,
        4,
        "3: commit @18446744073709551616",
        4,
    ),
    (Worked::WriteAndRead, 4, "3: commit @", 4),
    (Worked::WriteAndRead, 5, "4: read @1+", 5),
    (Worked::WriteAndRead, 7, "6: rows 0", 7),
    (Worked::WriteAndRead, 7, "6: none\n  {}", 8),
    (Worked::WriteAndRead, 7, "6: none\n7: none", 8),
    (Worked::WriteAndRead, 7, "6: none\n", 8),
];

#[test]
fn each_line_has_its_form(rt: HostRuntime) -> Result<(), Fail> {
    assert!(rt; first_other(rt.alloc(), &LINES)?.is_none());
    Ok(())
}

static REFUSALS: [Near; 6] = [
    (Worked::WriteAndRead, 3, "2: refused read-only", 3),
    (Worked::WriteAndRead, 3, "2: refused ids-spent", 3),
    (Worked::WriteAndRead, 3, "2: refused spoiled", 3),
    (Worked::WriteAndRead, 2, "1: refused commits-spent", 2),
    (Worked::WriteAndRead, 5, "4: refused transaction-open", 5),
    // It passes here, and falls where sessions are looked at, on the commit that it leaves.
    (Worked::WriteAndRead, 3, "2: refused read-only x", 3),
];

#[test]
fn the_order_of_the_lines_decides_four_refusals(rt: HostRuntime) -> Result<(), Fail> {
    assert!(rt; first_other(rt.alloc(), &REFUSALS)?.is_none());
    Ok(())
}
