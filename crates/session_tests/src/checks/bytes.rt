//! Any bytes at all.
use super::checked;
use crate::worked::{ANN_OUT, Worked};
use run_check::Verdict;
use std::alloc::{AllocError, Global};
use std::test::Fail;

/// The number of the line that is under way behind these bytes, counted from 1.
fn line_behind(bytes: &[u8]) -> u32 {
    let mut line: u32 = 1;
    for byte in bytes {
        if *byte == b'\n' {
            line = line.saturating_add(1);
        }
    }
    line
}

/// Whether an output that is cut behind so many bytes is bad at the line where it ends.
fn is_cut_bad(alloc: Global, len: usize) -> Result<bool, AllocError> {
    let Some(front) = ANN_OUT.as_bytes().get(..len) else {
        return Ok(false);
    };
    let line = line_behind(front);
    Ok(checked(alloc, Worked::WriteAndRead.session(), front)? == Verdict::Not { line })
}

/// Whether this holds of each front of the output.
fn are_cuts_bad(alloc: Global) -> Result<bool, AllocError> {
    for len in 0..ANN_OUT.len() {
        if !is_cut_bad(alloc, len)? {
            return Ok(false);
        }
    }
    Ok(true)
}

#[test]
fn an_output_that_is_cut_is_bad_where_it_ends(rt: HostRuntime) -> Result<(), Fail> {
    assert!(rt; are_cuts_bad(rt.alloc())?);
    Ok(())
}

/// The next of a list of numbers in which no order is seen.
fn next_drawn(number: u32) -> u32 {
    number.wrapping_mul(1_664_525).wrapping_add(1_013_904_223)
}

/// So many bytes in no order, from a number on; with `mask` fewer kinds of them.
fn drawn(alloc: Global, from: u32, mask: u8, count: usize) -> Result<Vec<u8>, AllocError> {
    let mut number = from;
    let mut bytes = Vec::new(alloc);
    for _ in 0..count {
        number = next_drawn(number);
        bytes.push((number >> 24) as u8 & mask)?;
    }
    Ok(bytes)
}

/// Whether bytes in no order, behind the heading, are bad at the first line or the one behind it.
fn is_drawn_bad(alloc: Global, from: u32, mask: u8) -> Result<bool, AllocError> {
    let mut out = b"client 1 c1\n1: ".to_vec(alloc)?;
    let bytes = drawn(alloc, from, mask, 300)?;
    out.extend_from_slice(&bytes)?;
    Ok(checked(alloc, Worked::WriteAndRead.session(), &out)? == Verdict::Not { line: 2 })
}

/// Whether this holds of many such bytes.
fn are_drawn_bad(alloc: Global) -> Result<bool, AllocError> {
    for from in 0..100 {
        let held = is_drawn_bad(alloc, from, 255)? && is_drawn_bad(alloc, from, 63)?;
        if !held {
            return Ok(false);
        }
    }
    Ok(true)
}

#[test]
fn bytes_in_no_order_are_bad(rt: HostRuntime) -> Result<(), Fail> {
    assert!(rt; are_drawn_bad(rt.alloc())?);
    Ok(())
}

/// The verdict on a byte that stands so often.
fn verdict_on(alloc: Global, byte: u8, count: usize) -> Result<Verdict, AllocError> {
    let mut out: Vec<u8> = Vec::new(alloc);
    out.resize(count, byte)?;
    checked(alloc, Worked::WriteAndRead.session(), &out)
}

#[test]
fn long_lines_and_zeros_are_bad(rt: HostRuntime) -> Result<(), Fail> {
    let first = Verdict::Not { line: 1 };
    assert!(rt; verdict_on(rt.alloc(), b'1', 16_777_216)? == first);
    assert!(rt; verdict_on(rt.alloc(), 0, 1_000)? == first);
    assert!(rt; verdict_on(rt.alloc(), b'\n', 16_777_216)? == first);
    Ok(())
}
