//! Outputs whose commits are none of one history.
use super::{Near, first_other};
use crate::worked::Worked;
use std::test::Fail;

static COMMITS: [Near; 9] = [
    (Worked::WriteAndRead, 4, "3: commit @2", 4),
    (Worked::WriteAndRead, 4, "3: commit @0", 4),
    (Worked::BothWrite, 8, "3: commit @1", 8),
    (Worked::BothWrite, 8, "3: commit @3", 8),
    (Worked::BothWrite, 4, "3: commit @2", 8),
    (Worked::BothWrite, 6, "1: write @0", 8),
    (Worked::BothWrite, 2, "1: write @1", 4),
    (Worked::BothWrite, 6, "1: write @18446744073709551615", 8),
    // The number is there, but the client may not begin so: the history passes it.
    (Worked::BothWrite, 6, "1: refused whatever", 6),
];

#[test]
fn numbers_and_what_they_stand_on_are_those_of_a_history(rt: HostRuntime) -> Result<(), Fail> {
    assert!(rt; first_other(rt.alloc(), &COMMITS)?.is_none());
    Ok(())
}
