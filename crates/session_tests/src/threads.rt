//! What is called, and what isn't where no thread can be had.
use deep_thread::{call_deep, join_deep};
use std::test::Fail;

/// The bytes of a stack that any host gives.
const SMALL: usize = 1_048_576;

#[test]
fn both_closures_are_called(rt: HostRuntime) -> Result<(), Fail> {
    let (mut first, mut second) = (0u8, 0u8);
    let told = join_deep(
        &rt,
        SMALL,
        &mut || {
            first = 1;
            3u8
        },
        &mut || {
            second = 2;
            4u8
        },
    );
    assert_eq!(rt; told, (Some(3), Some(4)));
    assert_eq!(rt; (first, second), (1, 2));
    Ok(())
}

#[test]
fn neither_is_called_where_the_stack_is_too_large(rt: HostRuntime) -> Result<(), Fail> {
    let (mut first, mut second) = (0u8, 0u8);
    let told = join_deep(&rt, usize::MAX, &mut || first = 1, &mut || second = 2);
    assert!(rt; told == (None, None));
    assert_eq!(rt; (first, second), (0, 0));
    Ok(())
}

#[test]
fn one_closure_is_called_where_there_is_a_thread(rt: HostRuntime) -> Result<(), Fail> {
    assert_eq!(rt; call_deep(&rt, SMALL, || 3u8), Some(3));
    assert_eq!(rt; call_deep(&rt, usize::MAX, || 3u8), None);
    Ok(())
}
