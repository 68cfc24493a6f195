//! Which words name files.
use crate::worked::parted;
use run_io::Named;
use std::alloc::{AllocError, Global};
use std::test::Fail;

/// The words, parted by bars, the most clients, and how many there are where they name files.
type Case = (&'static str, usize, Option<usize>);

static CASES: [Case; 14] = [
    ("s.json|c1", 64, Some(1)),
    ("c1|c1", 1, Some(1)),
    ("a-b|c 1|ä|run", 3, Some(3)),
    ("s|c|c|c", 2, None),
    ("s|c", 0, None),
    ("", 64, None),
    ("s.json", 64, None),
    ("-x|c1", 64, None),
    ("s.json|-", 64, None),
    ("|c1", 64, None),
    ("s.json|", 64, None),
    ("s.json|c1||c2", 64, None),
    ("s\n|c1", 64, None),
    ("s.json|\nc1", 64, None),
];

/// How many clients the words of a text name, where there are at most so many.
fn count_named(alloc: Global, text: &str, most: usize) -> Result<Option<usize>, AllocError> {
    let named = Named::of(alloc, &parted(alloc, text, '|')?, most.min(64))?;
    Ok(named.map(|named| named.names().len()))
}

/// Whether the words name as many clients as the case says.
fn comes(alloc: Global, case: &Case) -> Result<bool, AllocError> {
    Ok(count_named(alloc, case.0, case.1)? == case.2)
}

#[test]
fn words_name_a_schema_and_clients(rt: HostRuntime) -> Result<(), Fail> {
    for at in 0..CASES.len() {
        assert!(rt; comes(rt.alloc(), &CASES[at])?, "{at}");
    }
    Ok(())
}
